//! Values by path: a short list while there are few, and a map for what comes then.
ghost use Rattle.std.specs.Prelude.{◌≡◌, ◌<◌, ◌++◌, ◌∷◌, [], None, length, take, slice_get, slice_set, IfOk, IfSome, MatchOption, OnOk, OnErr, is_some, option_copied, option_map, position, true, ◌^◌, List, ℕ};
ghost use Rattle.std.specs.List.{IsDistinct, position_or_len};
ghost use Rattle.std.specs.List.Sorted.{IsPermutation, IsSorted};
ghost use Rattle.std.specs.Map.{lookup, keys_of};
ghost use Rattle.std.specs.Map.Iter.{deref_pair};
ghost use Rattle.std.specs.Ordering.{eq_by_cmp};
ghost use Rattle.indexmap.specs.IndexMap.{insert_entry};
ghost use Rattle.fx_store.specs.Names.{path_cmp};
ghost use Rattle.fx_view.specs.Reads.{placed};
ghost use Rattle.fx_view.specs.Few.{IsFirst, entries_in};

use fx_base::NoMemory;
use fx_store::{Node, Path};
use indexmap::IndexMap;
use std::alloc::Global;
use std::marker::Model;

/// So many entries stand in the list at most. A look at each of them costs about what a look into a map does.
const FEW: usize = 8;

/// Values by path. Contracts see the entries in the order in which their paths came. The first ones stay in the list, and
/// the map has those that came when the list was full; it is made for the first of these.
pub(crate) struct Table<V> {
    few: Vec<(Path, V)>,
    many: Many<V>,
}

/// It is written out, so that its parts are dropped in this crate alone.
impl<V: Drop> Drop for Table<V> {
    fn drop(self) {
        let Table {
            few: _few,
            many: _many,
        } = self;
    }
}

impl<V> Model for Table<V> {
    ghost use Rattle.std.specs.Prelude.{List, ℕ, ◌++◌, ◌≤◌, length};
    ghost use Rattle.fx_view.specs.declared.table.TheConstants.{FEW};

    ghost Value = { List (List (List ℕ) × V) };

    ghost use Rattle.fx_view.specs.Few.{entries_in};

    ghost view = { λ t. t.few.items ++ entries_in t.many };

    ghost invariant = { λ t. length t.few.items ≤ FEW };
}

impl<V> Table<V> {
    /// No entries.
    pub(crate) fn new(alloc: Global) -> Table<V>
        ensures { result ≡ [] }
    {
        Table {
            few: Vec::new(alloc),
            many: None,
        }
    }

    /// The number of entries.
    pub(crate) fn len(&self) -> usize
        ensures { result ≡ length self.now }
    {
        self.few.len() + count_in(&self.many)
    }

    /// The entry at `i`; None exactly from `len` on.
    pub(crate) fn at(&self, i: usize) -> Option<(&Path, &V)>
        ensures { option_map deref_pair result ≡ slice_get self.now i }
    {
        let few = self.few.as_slice();
        if i < few.len() {
            return Some((&few[i].0, &few[i].1));
        }
        entry_in(&self.many, i - few.len())
    }

    /// The value of a path, if it has one. No two entries may have the same path.
    pub(crate) fn get(&self, path: &Path) -> Option<&V>
        requires { IsDistinct (eq_by_cmp path_cmp) (keys_of self.now) }
        ensures { option_copied result ≡ lookup (eq_by_cmp path_cmp path.now) self.now }
    {
        if let Some(value) = value_in(&self.many, path) {
            return Some(value);
        }
        let few = self.few.as_slice();
        match place_in(few, path) {
            Some(i) => Some(&few[i].1),
            None => None,
        }
    }

    /// How many entries come before the path's; all of them where it has none.
    pub(crate) fn count_before(&self, path: &Path) -> usize
        ensures { result ≡ position_or_len (eq_by_cmp path_cmp path.now) (keys_of self.now) }
    {
        if let Some(i) = place_in(self.few.as_slice(), path) {
            return i;
        }
        let len = self.len();
        match index_in(&self.many, path) {
            Some(i) => self.few.len() + i,
            None => len,
        }
    }

    /// Adds the value of a path that has none yet. A refusal changes nothing.
    pub(crate) fn push(&mut self, alloc: Global, path: Path, value: V) -> Result<(), NoMemory>
    where
        V: Drop,
        requires { lookup (eq_by_cmp path_cmp path) self.old ≡ None }
        ensures ok { OnOk result (self.new ≡ self.old ++ (path, value) ∷ []) }
        ensures err { OnErr result (self.new ≡ self.old) }
    {
        if self.few.len() < FEW && has_none(&self.many) {
            self.few.push((path, value))?;
            return Ok(());
        }
        put_in(alloc, &mut self.many, path, value)?;
        Ok(())
    }

    /// Sets the value of a path: a path that has one keeps its place, and a new one comes last. A refusal changes nothing.
    pub(crate) fn insert(&mut self, alloc: Global, path: Path, value: V) -> Result<(), NoMemory>
    where
        V: Drop,
        ensures ok { OnOk result (self.new ≡ insert_entry (eq_by_cmp path_cmp) self.old path value) }
        ensures err { OnErr result (self.new ≡ self.old) }
    {
        if let Some(i) = place_in(self.few.as_slice(), &path) {
            put(&mut self.few, i, value);
            return Ok(());
        }
        if self.few.len() < FEW && has_none(&self.many) {
            self.few.push((path, value))?;
            return Ok(());
        }
        put_in(alloc, &mut self.many, path, value)?;
        Ok(())
    }

    /// Only the first entries are left, so many at most.
    pub(crate) fn truncate(&mut self, len: usize)
    where
        V: Drop,
        ensures { self.new ≡ take len self.old }
    {
        let few = self.few.len();
        self.few.truncate(len);
        cut(&mut self.many, len.saturating_sub(few));
    }

    /// The entries in ascending order of path.
    pub(crate) fn into_sorted(self) -> Result<Vec<(Path, V)>, NoMemory>
    where
        V: Drop,
        ensures same { IfOk result (λ entries. IsPermutation self entries.items) }
        ensures sorted { IfOk result (λ entries. IsSorted path_cmp (keys_of entries.items)) }
    {
        let Table { few, many } = self;
        let mut entries = all_of(few, many)?;
        entries.sort_unstable_by(|a, b| a.0.compare(&b.0));
        Ok(entries)
    }
}

impl Table<(Option<Node>, u64)> {
    /// The number beside the node at `i` is this one from now on.
    pub(crate) fn place(&mut self, i: usize, position: u64)
        requires { i < length self.old }
        ensures { self.new ≡ placed i position self.old }
    {
        let few = self.few.len();
        if i < few {
            self.few[i].1.1 = position;
        } else {
            place_at(&mut self.many, i - few, position);
        }
    }
}

/// The map of those that came when the list was full. Most tables have none, and are small then.
type Many<V> = Option<Box<IndexMap<Path, V>>>;

fn has_none<V>(many: &Many<V>) -> bool
    ensures { result ≡ true → length (entries_in many.now) ≡ 0 }
{
    match many {
        None => true,
        Some(map) => map.is_empty(),
    }
}

fn count_in<V>(many: &Many<V>) -> usize
    ensures len { result ≡ length (entries_in many.now) }
    ensures small { result < 2 ^ 63 }
{
    match many {
        None => 0,
        Some(map) => map.len(),
    }
}

fn entry_in<V>(many: &Many<V>, i: usize) -> Option<(&Path, &V)>
    ensures { option_map deref_pair result ≡ slice_get (entries_in many.now) i }
{
    match many {
        None => None,
        Some(map) => map.get_index(i),
    }
}

fn value_in<'a, V>(many: &'a Many<V>, path: &Path) -> Option<&'a V>
    ensures { option_copied result ≡ lookup (eq_by_cmp path_cmp path.now) (entries_in many.now) }
{
    match many {
        None => None,
        Some(map) => map.get(path),
    }
}

fn index_in<V>(many: &Many<V>, path: &Path) -> Option<usize>
    ensures index { result ≡ position (eq_by_cmp path_cmp path.now) (keys_of (entries_in many.now)) }
    ensures found { is_some result
        ≡ is_some (lookup (eq_by_cmp path_cmp path.now) (entries_in many.now)) }
    ensures within { IfSome result (λ i. i < length (entries_in many.now)) }
{
    match many {
        None => None,
        Some(map) => map.get_index_of(path),
    }
}

/// Sets the value of a path in a map, which is made where there is none.
fn put_in<V: Drop>(alloc: Global, many: &mut Many<V>, path: Path, value: V) -> Result<(), NoMemory>
    ensures ok { OnOk result (entries_in many.new
        ≡ insert_entry (eq_by_cmp path_cmp) (entries_in many.old) path value) }
    ensures err { OnErr result (entries_in many.new ≡ entries_in many.old) }
{
    match many {
        Some(map) => {
            let_go(map.insert(path, value)?);
            Ok(())
        }
        None => {
            *many = Some(map_of(alloc, path, value)?);
            Ok(())
        }
    }
}

fn map_of<V: Drop>(alloc: Global, path: Path, value: V) -> Result<Box<IndexMap<Path, V>>, NoMemory>
    ensures { IfOk result (λ map. entries_in (Some map)
        ≡ insert_entry (eq_by_cmp path_cmp) [] path value) }
{
    let mut map = IndexMap::new(alloc);
    let_go(map.insert(path, value)?);
    Ok(Box::new(alloc, map)?)
}

fn cut<V: Drop>(many: &mut Many<V>, len: usize)
    ensures { entries_in many.new ≡ take len (entries_in many.old) }
{
    match many {
        None => {}
        Some(map) => map.truncate(len),
    }
}

fn place_at(many: &mut Many<(Option<Node>, u64)>, i: usize, position: u64)
    requires { i < length (entries_in many.old) }
    ensures { entries_in many.new ≡ placed i position (entries_in many.old) }
{
    match many {
        None => unreachable!(),
        Some(map) => place_value(map, i, position),
    }
}

fn place_value(map: &mut IndexMap<Path, (Option<Node>, u64)>, i: usize, position: u64)
    requires { i < length map.old.entries }
    ensures { map.new.entries ≡ placed i position map.old.entries }
{
    map[i].1 = position;
}

/// The entries of a list and of a map, in their order.
fn all_of<V: Drop>(few: Vec<(Path, V)>, many: Many<V>) -> Result<Vec<(Path, V)>, NoMemory>
    ensures { IfOk result (λ entries. entries.items ≡ few.items ++ entries_in many) }
{
    match many {
        None => Ok(few),
        Some(map) => all_behind(few, Box::into_inner(map)),
    }
}

fn all_behind<V: Drop>(
    few: Vec<(Path, V)>,
    map: IndexMap<Path, V>,
) -> Result<Vec<(Path, V)>, NoMemory>
    ensures { IfOk result (λ entries. entries.items ≡ few.items ++ map.entries) }
{
    let mut entries = few;
    for (path, value) in map {
        entries.push((path, value))?;
    }
    Ok(entries)
}

/// The place of a path in a list.
fn place_in<V>(few: &[(Path, V)], path: &Path) -> Option<usize>
    ensures place { let is = eq_by_cmp path_cmp path.now in
        MatchOption result (lookup is few.now ≡ None) (IsFirst is few.now) }
    ensures within { IfSome result (λ i. i < length few.now) }
{
    for (i, entry) in few.iter().enumerate() {
        if *path == entry.0 {
            return Some(i);
        }
    }
    None
}

fn put<V: Drop>(few: &mut Vec<(Path, V)>, i: usize, value: V)
    requires { i < length few.old.items }
    ensures len { length few.new.items ≡ length few.old.items }
    ensures set { (path : List (List ℕ)) (before : V)
        → slice_get few.old.items i ≡ Some (path, before)
        → few.new.items ≡ slice_set few.old.items i (path, value) }
{
    few[i].1 = value;
}

fn let_go<V: Drop>(_: Option<V>) {}
