//! The index of last changes: for each path that an entry has changed, the number of the last such entry.
ghost use Rattle.std.specs.Prelude.{◌≡◌, ◌≤◌, length};
ghost use Rattle.indexmap.specs.IndexMap.{spare};
ghost use Rattle.fx_view.specs.Reads.{IsReads};
ghost use Rattle.fx_board.specs.Index.{last_in, named_by, changed_since, lesser, least_stale, IsNoted};

use fx_store::Path;
use fx_view::Reads;
use indexmap::IndexMap;

/// The last entry that changed a path.
pub(crate) fn last(index: &IndexMap<Path, u64>, path: &Path) -> Option<u64>
    ensures { result ≡ last_in index.now.entries path.now }
{
    index.get(path).copied()
}

/// The least of the read paths that an entry has changed at or after its look, with the last entry that changed it.
pub(crate) fn stale<'a>(index: &IndexMap<Path, u64>, reads: &'a Reads) -> Option<(&'a Path, u64)>
    ensures least { named_by result ≡ least_stale index.now.entries reads.now }
    ensures reads { IsReads reads.now }
{
    let mut least = None;
    for i in 0..reads.len() {
        let Some((path, read)) = reads.at(i) else {
            unreachable!()
        };
        least = with_read(index, least, path, read.1);
    }
    least
}

/// The lesser of a path and another one, if that was changed at or after a position.
fn with_read<'a>(
    index: &IndexMap<Path, u64>,
    least: Option<(&'a Path, u64)>,
    path: &'a Path,
    position: u64,
) -> Option<(&'a Path, u64)>
    ensures { let here = changed_since path.now position (last_in index.now.entries path.now) in
        named_by result ≡ lesser (named_by least.entry) here }
{
    let Some(entry) = last(index, path) else {
        return least;
    };
    if entry < position {
        return least;
    }
    let Some((other, _)) = least else {
        return Some((path, entry));
    };
    if other.compare(path).is_le() {
        return least;
    }
    Some((path, entry))
}

/// Notes one entry more, which changed these paths. It takes no memory, and needs room for each path.
pub(crate) fn note(index: &mut IndexMap<Path, u64>, changed: Vec<Path>, entry: u64)
    requires { length changed.items ≤ spare index.old }
    ensures { IsNoted index.old.entries index.new.entries changed.items entry }
{
    for path in changed {
        let _last = index.insert(path, entry).unwrap();
    }
}
