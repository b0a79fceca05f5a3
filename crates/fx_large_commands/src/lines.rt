//! The lines of a summary.
ghost use Rattle.std.specs.Prelude.{◌≡◌, ◌++◌, codes, IfOk, OnOk};
ghost use Rattle.std.specs.Fmt.{decimal, signed_decimal};
ghost use Rattle.fx_large_commands.specs.Summary.{counted_in, logged_in, node_count, lines, summary};

use crate::counting::{counted, logged, node_count};
use crate::entries::done;
use fx_base::NoMemory;
use fx_board::Board;
use fx_store::{Filestore, LongText};
use std::alloc::Global;

/// Adds words, and the digits of a number after them.
fn add(out: &mut Vec<u8>, words: &[u8], digits: &str) -> Result<(), NoMemory>
    ensures { OnOk result (out.new.items ≡ out.old.items ++ words.now ++ digits.now) }
{
    out.extend_from_slice(words)?;
    out.extend_from_slice(digits.as_bytes())?;
    Ok(())
}

/// Adds the lines of the transactions.
fn add_transactions(out: &mut Vec<u8>, transactions: u64, done: u64) -> Result<(), NoMemory>
    ensures { OnOk result (out.new.items
        ≡ out.old.items ++ codes "transactions " ++ decimal transactions
        ++ codes "\ndone " ++ decimal done) }
{
    let alloc = *out.allocator();
    add(out, b"transactions ", &transactions.to_string(alloc)?)?;
    add(out, b"\ndone ", &done.to_string(alloc)?)
}

/// Adds the line of the counts.
fn add_counted(out: &mut Vec<u8>, store: &Filestore) -> Result<(), NoMemory>
    ensures { OnOk result (out.new.items
        ≡ out.old.items ++ codes "\ncounted " ++ signed_decimal (counted_in store.now.nodes)) }
{
    let alloc = *out.allocator();
    let counted = counted(alloc, store)?;
    add(out, b"\ncounted ", &counted.to_string(alloc)?)
}

/// Adds the lines of the logs and of the nodes.
fn add_logged(out: &mut Vec<u8>, store: &Filestore) -> Result<(), NoMemory>
    ensures { OnOk result (out.new.items
        ≡ out.old.items ++ codes "\nlogged " ++ decimal (logged_in store.now.nodes)
        ++ codes "\nnodes " ++ decimal (node_count store.now.nodes)) }
{
    let alloc = *out.allocator();
    let logged = logged(alloc, store)?;
    let nodes = node_count(store);
    add(out, b"\nlogged ", &logged.to_string(alloc)?)?;
    add(out, b"\nnodes ", &nodes.to_string(alloc)?)
}

/// The five lines of a run of so many transactions, of which so many were done, and which left this filestore.
fn lines(
    alloc: Global,
    transactions: u64,
    done: u64,
    store: &Filestore,
) -> Result<LongText, NoMemory>
    ensures { IfOk result (λ text. text ≡ lines transactions done store.now.nodes) }
{
    let mut out = Vec::new(alloc);
    add_transactions(&mut out, transactions, done)?;
    add_counted(&mut out, store)?;
    add_logged(&mut out, store)?;
    out.push(b'\n')?;
    Ok(LongText::from_vec(out))
}

/// The summary of a run.
pub(crate) fn summary(alloc: Global, board: &Board) -> Result<LongText, NoMemory>
    ensures { IfOk result (λ text. text ≡ summary board.now.base board.now.order) }
{
    lines(alloc, board.len(), done(board), board.store())
}
