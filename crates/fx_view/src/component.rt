//! Components of ways: of paths, and of link texts.
ghost use Rattle.std.specs.Prelude.{◌≡◌, ◌==◌, ◌≤◌, true, ◌++◌, ◌∷◌, [], length, map, IfOk, OnOk, MatchOption};
ghost use Rattle.std.specs.List.{list_all, slice_split};
ghost use Rattle.fx_store.specs.Names.{is_name, is_component, is_absolute, after_slash, is_slash};
ghost use Rattle.fx_store.specs.Resolve.{components_of, component_of, names_only};
ghost use Rattle.fx_store.specs.Resolve as rule;
ghost use Rattle.fx_view.specs.Ways.{meant, way};

use fx_base::NoMemory;
use fx_store::{LinkText, Name, NameList, Path, PathFault, PathIter, after_slash, is_slash};
use std::alloc::Global;
use std::collections::VecDeque;
use std::marker::Model;

/// A component of a way: the directory itself, the one above, or an entry.
#[derive(Drop)]
pub(crate) enum Component {
    CurDir,
    ParentDir,
    Normal(Name),
}

/// The components that are left of a way: those of links, and then names of a path. Contracts see them in order.
#[derive(Drop)]
pub(crate) struct Way<'a> {
    parts: VecDeque<Component>,
    names: PathIter<'a>,
}

impl<'a> Model for Way<'a> {
    ghost use Rattle.std.specs.Prelude.{List, ◌++◌, map};
    ghost use Rattle.fx_store.specs.Resolve as rule;
    ghost use Rattle.fx_view.specs.Ways.{way};

    ghost Value = { List rule.Component };

    ghost view = { λ w. way w.parts.items ++ map rule.Normal w.names };
}

impl<'a> Way<'a> {
    /// The names of a path, one after another.
    pub(crate) fn along(alloc: Global, path: &'a Path) -> Way<'a>
        ensures { result ≡ map rule.Normal path.now }
    {
        Way {
            parts: VecDeque::new(alloc),
            names: path.iter(),
        }
    }

    /// Whether nothing is left.
    pub(crate) fn is_empty(&self) -> bool
        ensures { result ≡ (length self.now == 0) }
    {
        self.parts.is_empty() && self.names.is_empty()
    }

    /// Takes the first component; None exactly where nothing is left.
    pub(crate) fn take_first(&mut self, alloc: Global) -> Result<Option<Component>, NoMemory>
        ensures { IfOk result (λ first. MatchOption first ((self.old ≡ []) × (self.new ≡ []))
            (λ component. self.old ≡ meant component ∷ self.new)) }
    {
        if let Some(component) = self.parts.pop_front() {
            return Ok(Some(component));
        }
        match self.names.next() {
            Some(name) => Ok(Some(Component::Normal(name.copy(alloc)?))),
            None => Ok(None),
        }
    }

    /// Puts components before those that are left.
    pub(crate) fn put_first(&mut self, parts: VecDeque<Component>) -> Result<(), NoMemory>
        ensures { OnOk result (self.new ≡ way parts.items ++ self.old) }
    {
        let mut parts = parts;
        parts.append(&mut self.parts)?;
        self.parts = parts;
        Ok(())
    }

    /// The names that are left, from a first one on, where names alone are left.
    pub(crate) fn names_only(
        &self,
        alloc: Global,
        first: Name,
    ) -> Result<Option<NameList>, NoMemory>
        ensures { IfOk result (λ names. names ≡ names_only (rule.Normal first ∷ self.now)) }
    {
        match names_only(alloc, first, &self.parts)? {
            Some(names) => Ok(Some(with_names(alloc, names, &self.names)?)),
            None => Ok(None),
        }
    }
}

/// The names, and then these.
fn with_names(alloc: Global, names: NameList, more: &PathIter<'_>) -> Result<NameList, NoMemory>
    ensures { IfOk result (λ all. all ≡ names ++ more.now) }
{
    let mut all = names;
    for name in more.copy() {
        all.add(alloc, name.copy(alloc)?)?;
    }
    Ok(all)
}

/// The components of a link text, at most 64.
pub(crate) fn components(alloc: Global, text: &LinkText) -> Result<VecDeque<Component>, NoMemory>
    ensures way { IfOk result (λ q. way q.items ≡ components_of text.now) }
    ensures few { IfOk result (λ q. length q.items ≤ 64) }
{
    let steps = after_slash(text.as_slice());
    if steps.is_empty() {
        return Ok(VecDeque::new(alloc));
    }
    parts(alloc, steps)
}

/// The components of a text that has one `/` between each two.
fn parts(alloc: Global, steps: &[u8]) -> Result<VecDeque<Component>, NoMemory>
    requires { list_all is_component (slice_split is_slash steps.now) ≡ true }
    ensures { IfOk result (λ q. way q.items ≡ map component_of (slice_split is_slash steps.now)) }
{
    let mut found = VecDeque::new(alloc);
    for part in steps.split(|b| is_slash(b)) {
        found.push_back(read_component(alloc, part)?)?;
    }
    Ok(found)
}

fn read_component(alloc: Global, part: &[u8]) -> Result<Component, NoMemory>
    requires { is_component part.now ≡ true }
    ensures { IfOk result (λ c. meant c ≡ component_of part.now) }
{
    if part == b".".as_slice() {
        return Ok(Component::CurDir);
    }
    if part == b"..".as_slice() {
        return Ok(Component::ParentDir);
    }
    Ok(Component::Normal(read_name(alloc, part)?))
}

fn read_name(alloc: Global, part: &[u8]) -> Result<Name, NoMemory>
    requires { is_name part.now ≡ true }
    ensures { IfOk result (λ n. n ≡ part.now) }
{
    match Name::read(alloc, part) {
        Ok(name) => Ok(name),
        Err(PathFault::NoMemory) => Err(NoMemory),
        Err(PathFault::BadName | PathFault::TooDeep) => unreachable!(),
    }
}

/// Whether a link text starts at the root.
pub(crate) fn is_absolute(text: &LinkText) -> bool
    ensures { result ≡ is_absolute text.now }
{
    match text.as_slice().first() {
        Some(byte) => is_slash(byte),
        None => false,
    }
}

/// The names of a way that has names alone, from a first one on.
fn names_only(
    alloc: Global,
    first: Name,
    rest: &VecDeque<Component>,
) -> Result<Option<NameList>, NoMemory>
    ensures { IfOk result (λ names. names ≡ names_only (rule.Normal first ∷ way rest.now.items)) }
{
    let mut names = NameList::new(alloc);
    names.add(alloc, first)?;
    for component in rest.iter() {
        match component {
            Component::Normal(name) => names.add(alloc, name.copy(alloc)?)?,
            Component::CurDir => return Ok(None),
            Component::ParentDir => return Ok(None),
        }
    }
    Ok(Some(names))
}
