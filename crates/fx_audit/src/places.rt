//! The table of places: at which entries each shell's transactions stand.
ghost use Rattle.std.specs.Prelude.{◌≡◌, ◌<◌, ◌++◌, ◌∷◌, [], IfOk, OnOk, OnErr, length, slice_index_or, slice_set, slice_get, replicate};

use fx_base::{Listed, NoMemory};
use std::alloc::Global;

/// The numbers of a shell's entries, in order.
pub(crate) type Places = Listed<u64>;

/// No entries of any shell.
pub(crate) fn no_places(alloc: Global, shells: u32) -> Result<Vec<Places>, NoMemory>
    ensures { IfOk result (λ table. table.items ≡ replicate shells []) }
{
    let mut table = Vec::new(alloc);
    for _shell in 0..shells {
        table.push(Places::new(alloc))?;
    }
    Ok(table)
}

/// The number of a shell's entries; 0 where there is no such shell.
pub(crate) fn count(table: &[Places], shell: u32) -> u64
    ensures { result ≡ length (slice_index_or table.now shell []) }
{
    match table.get(shell as usize) {
        Some(places) => places.len() as u64,
        None => 0,
    }
}

/// The entry that is a shell's transaction; none where it stands in no entry.
pub(crate) fn place(table: &[Places], shell: u32, txn: u32) -> Option<u64>
    ensures { result ≡ slice_get (slice_index_or table.now shell []) txn }
{
    let places = table.get(shell as usize)?;
    places.get(txn as usize).copied()
}

/// Adds an entry of a shell. A refusal changes nothing.
pub(crate) fn add(table: &mut [Places], shell: u32, entry: u64) -> Result<(), NoMemory>
    requires { shell < length table.old }
    ensures ok { OnOk result
        (table.new ≡ slice_set table.old shell (slice_index_or table.old shell [] ++ entry ∷ [])) }
    ensures err { OnErr result (table.new ≡ table.old) }
{
    table[shell as usize].push(entry)
}
