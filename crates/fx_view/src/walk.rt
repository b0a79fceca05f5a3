//! A walk of resolution: the directory where it is, the components that are left, and the links that it may yet follow.
ghost use Rattle.std.specs.Prelude.{◌≡◌, ◌≤◌, IfOk, IfNone};
ghost use Rattle.fx_store.specs.Resolve as rule;
ghost use Rattle.fx_store.specs.Resolve.{◌/ₚ◌};
ghost use Rattle.fx_view.specs.Walks.{rule_of, rule_named, rule_at, rule_linked, rule_then, rule_after, left, GoesOn, LooksAt};

use crate::component::{Component, Way, components, is_absolute};
use fx_base::NoMemory;
use fx_store::{Landing, LinkText, Name, Node, Path, PathFault};
use std::alloc::Global;
use std::mem;

/// The most links that are followed.
const MAX_LINKS: u32 = 40;

/// It knows the path that was asked, so that the paths along it share its names.
#[derive(Drop)]
pub(crate) struct Walk<'a> {
    here: Path,
    path: &'a Path,
    rest: Way<'a>,
    links: u32,
    follow: bool,
}

/// How a walk goes on before it looks again.
#[derive(Drop)]
pub(crate) enum Next {
    Lands(Landing),
    Goes,
    /// It looks at an entry of the directory where it is: its name and its path.
    Looks(Name, Path),
}

/// The walk of a path from the root.
pub(crate) fn start<'a>(alloc: Global, path: &'a Path, follow: bool) -> Walk<'a>
    ensures { rule_of result ≡ rule.resolve path.now follow }
{
    Walk {
        here: Path::root(alloc),
        path,
        rest: Way::along(alloc, path),
        links: MAX_LINKS,
        follow,
    }
}

/// Takes the next component.
pub(crate) fn advance(alloc: Global, walk: &mut Walk<'_>) -> Result<Next, NoMemory>
    ensures rule { IfOk result (λ next. rule_of walk.old ≡ rule_then walk.new next) }
    ensures goes_on { IfOk result (GoesOn walk.old walk.new) }
{
    let first = walk.rest.take_first(alloc)?;
    match first {
        None => Ok(Next::Lands(Landing::At(take(alloc, &mut walk.here)))),
        Some(Component::CurDir) => Ok(Next::Goes),
        Some(Component::ParentDir) => {
            walk.here = walk.here.parent(alloc)?;
            Ok(Next::Goes)
        }
        Some(Component::Normal(name)) => enter(alloc, walk, name),
    }
}

/// Takes the directory out of a walk that ends there, so that it need not be copied.
fn take(alloc: Global, here: &mut Path) -> Path
    ensures { result ≡ here.old }
{
    mem::replace(here, Path::root(alloc))
}

/// How a walk goes on at a name: it looks at that entry, unless its path would have more than 64 names.
fn enter(alloc: Global, walk: &Walk<'_>, name: Name) -> Result<Next, NoMemory>
    ensures rule { IfOk result (λ next. rule_named walk.now name ≡ rule_then walk.now next) }
    ensures looks { IfOk result (LooksAt walk.now name) }
{
    match walk.here.join_along(alloc, &name, walk.path) {
        Ok(path) => Ok(Next::Looks(name, path)),
        Err(PathFault::TooDeep) => {
            let here = walk.here.copy(alloc)?;
            Ok(Next::Lands(missing(alloc, here, name, &walk.rest)?))
        }
        Err(PathFault::BadName) => unreachable!(),
        Err(PathFault::NoMemory) => Err(NoMemory),
    }
}

/// The landing where the directory has no entry of a name.
fn missing(alloc: Global, here: Path, name: Name, rest: &Way<'_>) -> Result<Landing, NoMemory>
    ensures { IfOk result (λ l. l ≡ rule.missing here name rest.now) }
{
    match rest.names_only(alloc, name)? {
        Some(names) => Ok(Landing::Absent(here, names)),
        None => Ok(Landing::Blocked(here)),
    }
}

/// Goes on by what is at the entry that was looked at, or lands.
pub(crate) fn arrive(
    alloc: Global,
    walk: &mut Walk<'_>,
    name: Name,
    path: Path,
    node: Option<Node>,
) -> Result<Option<Landing>, NoMemory>
    requires { path ≡ walk.old.here /ₚ name }
    ensures rule { IfOk result
        (λ landing. rule_at walk.old name node ≡ rule_after walk.new landing) }
    ensures left { IfOk result (λ landing. IfNone landing (left walk.new ≤ left walk.old)) }
{
    match node {
        None => {
            let here = take(alloc, &mut walk.here);
            Ok(Some(missing(alloc, here, name, &walk.rest)?))
        }
        Some(Node::File { bytes, exec: _ }) => {
            drop(bytes);
            Ok(Some(at_file(walk, path)))
        }
        Some(Node::Dir(names)) => {
            drop(names);
            walk.here = path;
            Ok(None)
        }
        Some(Node::Link(text)) => at_link(alloc, walk, path, text),
    }
}

fn at_file(walk: &Walk<'_>, path: Path) -> Landing
    ensures { result ≡ rule.at_file path walk.now.rest }
{
    if walk.rest.is_empty() {
        Landing::At(path)
    } else {
        Landing::Blocked(path)
    }
}

fn at_link(
    alloc: Global,
    walk: &mut Walk<'_>,
    path: Path,
    text: LinkText,
) -> Result<Option<Landing>, NoMemory>
    ensures rule { IfOk result
        (λ landing. rule_linked walk.old path text ≡ rule_after walk.new landing) }
    ensures left { IfOk result (λ landing. IfNone landing (left walk.new ≤ left walk.old)) }
{
    if !goes_along(walk) {
        return Ok(Some(Landing::At(path)));
    }
    if walk.links == 0 {
        return Ok(Some(Landing::TooManyLinks));
    }
    walk.links -= 1;
    let parts = components(alloc, &text)?;
    walk.rest.put_first(parts)?;
    if is_absolute(&text) {
        walk.here = Path::root(alloc);
    }
    Ok(None)
}

fn goes_along(walk: &Walk<'_>) -> bool
    ensures { result ≡ rule.goes_along walk.now.follow walk.now.rest }
{
    walk.follow || !walk.rest.is_empty()
}
