//! Paths, as lists of names from the root on.
ghost use Rattle.std.specs.Prelude.{◌≡◌, ◌==◌, ◌-◌, ◌<◌, ℕ, List, [], ◌∷◌, ◌++◌, take, suc, length, IfOk, IsTrue, IsFalse, is_some, ◌≢◌, ◌↔◌, slice_get, option_copied, bytes_eq, refl};
ghost use Rattle.std.specs.Cmp.Lexicographic.{pointwise};
ghost use Rattle.std.specs.Iterator.{YieldsFirstRef, item_count};
ghost use Rattle.std.specs.Cmp.{partial_equiv_from_equiv, partial_order_from_total, eq_by_cmp_equiv};
ghost use Rattle.std.specs.Ordering.{as_partial_cmp, eq_by_cmp};
ghost use Rattle.std.specs.List.{flat_map};
ghost use Rattle.std.proofs.Common.{ap};
ghost use Rattle.fx_store.specs.Names.{IsPath, path_cmp, rest_of};
ghost use Rattle.std.specs.Arc.{arc_slice_items};
ghost use Rattle.fx_store.specs.HeldNames.{held_names};
ghost use Rattle.fx_store.specs.Orders.{path_total, path_eq_same};
ghost use Rattle.fx_store.specs.Resolve.{◌/ₚ◌, parent};
ghost use Rattle.fx_store.specs.declared.limits.TheConstants.{MAX_PATH_NAMES};

use crate::limits::MAX_PATH_NAMES;
use crate::name::{Name, PathFault, is_name};
use crate::parts::{add_names, are_names, count_parts};
use fx_base::NoMemory;
use std::alloc::{AllocError, Global};
use std::cmp::Ordering;
use std::hash::{Hash, Hasher};
use std::marker::Model;
use std::slice;
use std::sync::{Arc, ArcSlice};

/// A path of at most 64 names, the first below the root. The root has none. Paths are ordered name by name, so a
/// directory comes just before all that is below it.
///
/// The paths of a directory's entries may share its names, and have one of their own each.
#[derive(Debug)]
pub struct Path {
    held: Held,
}

/// It is written out, so that its parts are dropped in this crate alone.
impl Drop for Path {
    fn drop(self) {
        let Path { held: _held } = self;
    }
}

/// No names, or the first of some that other paths share, and how many they are; or those of an entry.
#[derive(Debug, Drop)]
enum Held {
    Root,
    Names(ArcSlice<Name>, usize),
    Entry(Arc<Entry>),
}

/// The names of an entry: the first of some that are its directory's, how many they are, and its own.
#[derive(Debug, Drop)]
struct Entry {
    names: ArcSlice<Name>,
    count: usize,
    name: Name,
}

impl Model for Path {
    ghost use Rattle.std.specs.Prelude.{List, ℕ};
    ghost use Rattle.fx_store.specs.Names.{IsPath};
    ghost use Rattle.fx_store.specs.HeldNames.{held_names};

    ghost Value = { List (List ℕ) };

    ghost view = { λ p. held_names p.held };

    ghost invariant = { λ p. IsPath (held_names p.held) };
}

impl Path {
    ghost use Rattle.fx_store.specs.Faults.{Answers, read_path, joined, extended};

    /// The root, which has no names.
    pub fn root(_alloc: Global) -> Path
        ensures { result ≡ [] }
    {
        Path { held: Held::Root }
    }

    /// Reads a path text: `/`, or each name with a `/` before it. It is `BadName` where it is no path text of any
    /// length, and else `TooDeep` where it has more than 64 names.
    pub fn read(alloc: Global, text: &[u8]) -> Result<Path, PathFault>
        ensures { Answers result (read_path text.now) }
    {
        match text.split_first() {
            Some((b'/', [])) => Ok(Path::root(alloc)),
            Some((b'/', rest)) => Path::root(alloc).extend(alloc, rest),
            _ => Err(PathFault::BadName),
        }
    }

    /// The path with one name more: `TooDeep` where it has 64 names already.
    pub fn join(&self, alloc: Global, name: &Name) -> Result<Path, PathFault>
        ensures { Answers result (joined self.now name.now) }
    {
        if self.len() as usize >= MAX_PATH_NAMES {
            return Err(PathFault::TooDeep);
        }
        Ok(self.child(alloc, name)?)
    }

    /// The path with one name more, as `join` answers it. It shares the names of a way that goes on by that name.
    pub fn join_along(&self, alloc: Global, name: &Name, way: &Path) -> Result<Path, PathFault>
        ensures { Answers result (joined self.now name.now) }
    {
        if goes_on_by(way, self, name) {
            return Ok(Path {
                held: first(&way.held, self.len() as usize + 1)?,
            });
        }
        self.join(alloc, name)
    }

    /// The path of an entry; the caller keeps the limit of 64 names. It shares the names of this path, if this is gathered.
    pub fn child(&self, alloc: Global, name: &Name) -> Result<Path, NoMemory>
        requires { length self.now < MAX_PATH_NAMES }
        ensures { IfOk result (λ p. p ≡ self.now /ₚ name.now) }
    {
        let name = name.copy(alloc)?;
        if let Held::Names(names, count) = &self.held {
            let entry = Entry {
                names: names.clone()?,
                count: *count,
                name,
            };
            return Ok(Path {
                held: Held::Entry(Arc::new(alloc, entry)?),
            });
        }
        let mut names = self.with_room(alloc, 1)?;
        names.push(name)?;
        Ok(Path {
            held: from_names(names)?,
        })
    }

    /// An equal path, whose entries' paths share its names. Whoever makes many of them takes it first.
    pub fn gathered(&self, alloc: Global) -> Result<Path, NoMemory>
        ensures { IfOk result (λ p. p ≡ self.now) }
    {
        if let Held::Entry(_) = &self.held {
            let names = self.with_room(alloc, 0)?;
            return Ok(Path {
                held: from_names(names)?,
            });
        }
        self.copy(alloc)
    }

    /// A copy of the names, with room for so many more.
    fn with_room(&self, alloc: Global, more: usize) -> Result<Vec<Name>, NoMemory>
        ensures { IfOk result (λ copy. copy.items ≡ self.now) }
    {
        let (front, last) = self.as_slices();
        let room = front.len().saturating_add(last.len());
        let mut copy = Vec::with_capacity(alloc, room.saturating_add(more))?;
        copy.extend_with_clones(front)?;
        copy.extend_with_clones(last)?;
        Ok(copy)
    }

    /// The directory above; the root is above itself.
    pub fn parent(&self, _alloc: Global) -> Result<Path, NoMemory>
        ensures { IfOk result (λ p. p ≡ parent self.now) }
    {
        let kept = (self.len() as usize).saturating_sub(1);
        Ok(Path {
            held: first(&self.held, kept)?,
        })
    }

    /// The path that goes on by the names of a text, which has one `/` between each two. It is `BadName` where the
    /// text is not made so, and else `TooDeep` where there are more than 64 names.
    #[tactic(auto, using(crate::proofs::SpellingLaws::extended_by_name))]
    pub fn extend(&self, alloc: Global, text: &[u8]) -> Result<Path, PathFault>
        ensures { Answers result (extended self.now text.now) }
    {
        if is_name(text) {
            return self.join(alloc, &Name::of(alloc, text)?);
        }
        if !are_names(text) {
            return Err(PathFault::BadName);
        }
        let more = count_parts(text);
        if more > MAX_PATH_NAMES - self.len() as usize {
            return Err(PathFault::TooDeep);
        }
        let mut names = self.with_room(alloc, more)?;
        add_names(alloc, &mut names, text)?;
        Ok(Path {
            held: from_names(names)?,
        })
    }

    /// Whether the path begins with all the names of another, at which or below which it is then.
    pub fn starts_with(&self, other: &Path) -> bool
        ensures { result ≡ is_some (rest_of other.now self.now) }
    {
        self.iter().passes(&other.iter())
    }

    /// How the paths are ordered: by their first names that differ, and else the shorter one first.
    pub fn compare(&self, other: &Path) -> Ordering
        ensures { result ≡ path_cmp self.now other.now }
    {
        self.cmp(other)
    }

    /// The number of names.
    pub fn len(&self) -> u32
        ensures len { result ≡ length self.now }
        ensures path { IsPath self.now }
    {
        let (front, last) = self.as_slices();
        (front.len() + last.len()) as u32
    }

    /// The name at an index, counted from 0 below the root.
    pub fn name(&self, i: u32) -> Option<&Name>
        ensures name { option_copied result ≡ slice_get self.now i }
        ensures path { IsPath self.now }
    {
        let (front, last) = self.as_slices();
        match front.get(i as usize) {
            Some(name) => Some(name),
            None => last.get(i as usize - front.len()),
        }
    }

    /// The last name; the root has none.
    pub fn last(&self) -> Option<&Name>
        ensures name { option_copied result ≡ slice_get self.now (length self.now - 1) }
        ensures path { IsPath self.now }
    {
        let (front, last) = self.as_slices();
        match last.last() {
            Some(name) => Some(name),
            None => front.last(),
        }
    }

    /// The names, from the first below the root.
    pub fn iter(&self) -> PathIter<'_>
        ensures rest { result ≡ self.now }
        ensures path { IsPath self.now }
    {
        let (front, last) = self.as_slices();
        PathIter { front, last }
    }

    /// The names in two parts, the second behind the first.
    fn as_slices(&self) -> (&[Name], &[Name])
        ensures names { result.0.now ++ result.1.now ≡ self.now }
        ensures path { IsPath self.now }
    {
        match &self.held {
            Held::Root => (&[], &[]),
            Held::Names(names, count) => (front(names, *count), &[]),
            Held::Entry(entry) => (
                front(&entry.names, entry.count),
                slice::from_ref(&entry.name),
            ),
        }
    }

    /// An equal path, which shares its names with this one.
    pub fn copy(&self, _alloc: Global) -> Result<Path, NoMemory>
        ensures copied { IfOk result (λ p. p ≡ self.now) }
        ensures path { IsPath self.now }
    {
        Ok(Path {
            held: copied(&self.held)?,
        })
    }
}

/// So many of the names, or all where there are no more.
fn front(names: &ArcSlice<Name>, count: usize) -> &[Name]
    ensures { result.now ≡ take count (arc_slice_items names.now) }
{
    let names = names.as_slice();
    &names[..names.len().min(count)]
}

fn from_names(names: Vec<Name>) -> Result<Held, NoMemory>
    ensures { IfOk result (λ held. held_names held ≡ names.items) }
{
    if names.is_empty() {
        return Ok(Held::Root);
    }
    let count = names.len();
    Ok(Held::Names(ArcSlice::from_vec(names)?, count))
}

fn copied(held: &Held) -> Result<Held, AllocError>
    ensures { IfOk result (λ other. held_names other ≡ held_names held.now) }
{
    match held {
        Held::Root => Ok(Held::Root),
        Held::Names(names, count) => Ok(Held::Names(names.clone()?, *count)),
        Held::Entry(entry) => Ok(Held::Entry(entry.clone()?)),
    }
}

/// So many of the names, shared: all where there are no more.
fn first(held: &Held, count: usize) -> Result<Held, AllocError>
    ensures { IfOk result (λ other. held_names other ≡ take count (held_names held.now)) }
{
    match held {
        Held::Root => Ok(Held::Root),
        Held::Names(names, all) => Ok(Held::Names(names.clone()?, count.min(*all))),
        Held::Entry(entry) => {
            if count > front(&entry.names, entry.count).len() {
                return copied(held);
            }
            Ok(Held::Names(entry.names.clone()?, count.min(entry.count)))
        }
    }
}

/// Whether a way goes on by a name after the names of a path.
fn goes_on_by(way: &Path, path: &Path, name: &Name) -> bool
    ensures { IsTrue result ↔ take (suc (length path.now)) way.now ≡ path.now ++ name.now ∷ [] }
{
    let mut rest = way.iter();
    if !rest.passes(&path.iter()) {
        return false;
    }
    match rest.next() {
        Some(next) => next == name,
        None => false,
    }
}

/// Whether the names are the same, one by one.
fn are_same(a: &[Name], b: &[Name]) -> bool
    ensures { result ≡ pointwise bytes_eq a.now b.now }
{
    if a.len() != b.len() {
        return false;
    }
    let mut a = a;
    let mut b = b;
    'names: while let Some((x, c)) = a.split_first() {
        match b.split_first() {
            None => return false,
            Some((y, d)) => {
                if x != y {
                    return false;
                }
                a = c;
                b = d;
            }
        }
    }
    b.is_empty()
}

/// The names of a path that are left, seen as a list.
#[derive(Drop)]
pub struct PathIter<'a> {
    front: &'a [Name],
    last: &'a [Name],
}

impl<'a> Model for PathIter<'a> {
    ghost use Rattle.std.specs.Prelude.{◌++◌, List, ℕ};

    ghost Value = { List (List ℕ) };

    ghost view = { λ it. it.front.now ++ it.last.now };
}

impl<'a> PathIter<'a> {
    /// Whether none is left.
    pub fn is_empty(&self) -> bool
        ensures { result ≡ (length self.now == 0) }
    {
        self.front.is_empty() && self.last.is_empty()
    }

    /// An equal one.
    pub fn copy(&self) -> PathIter<'a>
        ensures { result ≡ self.now }
    {
        PathIter {
            front: self.front,
            last: self.last,
        }
    }

    /// Passes some names, where those that are left begin with them. Else some may have been passed.
    fn passes(&mut self, names: &PathIter<'_>) -> bool
        ensures yes { IsTrue result → self.old ≡ names.now ++ self.new }
        ensures no { IsFalse result → (rest : List (List ℕ)) → self.old ≢ names.now ++ rest }
    {
        let mut rest = self.copy();
        for name in names.copy() {
            let Some(own) = rest.next() else {
                return false;
            };
            if own != name {
                return false;
            }
        }
        *self = rest;
        true
    }

    fn compare(&self, other: &PathIter<'_>) -> Ordering
        ensures { result ≡ path_cmp self.now other.now }
    {
        let mut rest = other.copy();
        for name in self.copy() {
            let Some(other) = rest.next() else {
                return Ordering::Greater;
            };
            match name.cmp(other) {
                Ordering::Equal => {}
                unequal => return unequal,
            }
        }
        if rest.is_empty() {
            Ordering::Equal
        } else {
            Ordering::Less
        }
    }
}

impl<'a> Iterator for PathIter<'a> {
    type Item = &'a Name;

    ghost next_gives = { YieldsFirstRef (λ rest. rest) };

    ghost remaining = { item_count (λ rest. rest) };

    fn next(&mut self) -> Option<&'a Name> {
        if let Some((name, rest)) = self.front.split_first() {
            self.front = rest;
            return Some(name);
        }
        let (name, rest) = self.last.split_first()?;
        self.last = rest;
        Some(name)
    }
}

impl Clone for Path {
    ghost is_clone = { λ x y. y ≡ x };

    fn clone(&self) -> Result<Path, AllocError> {
        Ok(Path {
            held: copied(&self.held)?,
        })
    }
}

impl PartialEq for Path {
    ghost eq = { eq_by_cmp path_cmp };

    ghost laws = { partial_equiv_from_equiv (eq_by_cmp_equiv path_total) };

    fn eq(&self, other: &Path) -> bool {
        let (names, own) = self.as_slices();
        let (others, another) = other.as_slices();
        if names.len() + own.len() != others.len() + another.len() {
            return false;
        }
        if names.len() == others.len() {
            return are_same(names, others) && are_same(own, another);
        }
        let mut rest = self.iter();
        rest.passes(&other.iter()) && rest.is_empty()
    }
}

impl Eq for Path {
    ghost laws = { eq_by_cmp_equiv path_total };
}

impl PartialOrd for Path {
    ghost partial_cmp = { as_partial_cmp path_cmp };

    ghost laws = { partial_order_from_total path_total };

    fn partial_cmp(&self, other: &Path) -> Option<Ordering> {
        Some(self.cmp(other))
    }
}

impl Ord for Path {
    ghost cmp = { path_cmp };

    ghost total = { path_total };

    ghost matches_partial_cmp = { λ _ _. refl };

    ghost matches_eq = { λ _ _. refl };

    fn cmp(&self, other: &Path) -> Ordering {
        self.iter().compare(&other.iter())
    }
}

impl Hash for Path {
    ghost hash_input = { flat_map (λ n. n ∷ []) };

    ghost respects_eq = { λ x y e. ap (flat_map (λ n. n ∷ [])) (path_eq_same x y e) };

    fn hash<H: Hasher>(&self, state: &mut H) {
        let (front, last) = self.as_slices();
        Name::hash_slice(front, state);
        Name::hash_slice(last, state);
    }
}
