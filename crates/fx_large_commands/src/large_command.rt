//! The command `large`.
ghost use Rattle.std.specs.Prelude.{◌≡◌, IfOk, IfSome};
ghost use Rattle.fx_outside.specs.Host.{WritesIn};
ghost use Rattle.fx_command.specs.Out.{WritesOut};
ghost use Rattle.fx_folder.specs.Folder.{IsReady};
ghost use Rattle.fx_command.specs.StatusOf.{status_of};
ghost use Rattle.fx_command.specs.Table.{CommandRow, making_only};
ghost use Rattle.fx_large_commands.specs.Summary as sums;
ghost use Rattle.fx_large_commands.specs.Base.{IsRunOf};
ghost use Rattle.fx_large_commands.specs.LargeRows.{large_making};

use crate::base::base;
use crate::lines::summary;
use fx_base::NoMemory;
use fx_board::Board;
use fx_command::{Status, ready_out, save_and_print};
use fx_folder::Out;
use fx_machine::let_go;
use fx_outside::{Gate, Host, HostText, Sink};
use fx_store::LongText;
use fx_workers::run_all;
use std::alloc::Global;
use std::sync::Wait;
use std::thread::Threads;

/// Runs the scripts of a number's case, each on a thread of its own.
fn run<R: Threads + Wait + Sync, G: Gate + Sync>(
    rt: &R,
    alloc: Global,
    number: u32,
    gate: &G,
) -> Result<Board, NoMemory>
    ensures { IfOk result (IsRunOf number) }
{
    let base = base(alloc, number)?;
    let (board, retries) = run_all(rt, alloc, base, gate)?;
    let_go(retries);
    Ok(board)
}

/// Saves the last filestore, and then prints the summary.
fn leave<H: Host, S: Sink>(
    alloc: Global,
    number: u32,
    path: &HostText,
    there: Out,
    board: &Board,
    output: &LongText,
    host: &mut H,
    out: &mut S,
) -> Result<(), Status>
    requires ready { IfSome (H.view host.old).told (λ t. IsReady t path.now there) }
    requires run { IsRunOf number board.now }
    requires output { output.now ≡ sums.summary board.now.base board.now.order }
    ensures row { CommandRow (making_only (large_making number path.now)) (H.view host.old) (H.view host.new)
        (S.view out.old) (S.view out.new) (status_of result) }
    ensures fit { WritesIn path.now (H.view host.old) (H.view host.new) }
{
    let store = board.store();
    let output = output.as_slice();
    save_and_print(alloc, path, there, store, output, host, out)
}

/// Runs the case of a number on threads, leaves the folder that it makes at a path, and prints what the run is summed up
/// to.
pub fn run_generated<R: Threads + Wait + Sync, H: Host, S: Sink, G: Gate + Sync>(
    rt: &R,
    alloc: Global,
    number: u32,
    path: &HostText,
    host: &mut H,
    out: &mut S,
    gate: &G,
) -> Result<(), Status>
    ensures row { CommandRow (making_only (large_making number path.now)) (H.view host.old) (H.view host.new)
        (S.view out.old) (S.view out.new) (status_of result) }
    ensures fit { WritesOut path.now (H.view host.old) (H.view host.new) }
{
    let there = ready_out(alloc, path, host)?;
    let board = run(rt, alloc, number, gate)?;
    let output = match summary(alloc, &board) {
        Ok(output) => output,
        Err(_) => {
            board.let_go();
            return Err(Status::NoMemory);
        }
    };
    let ended = leave(alloc, number, path, there, &board, &output, host, out);
    board.let_go();
    ended
}
