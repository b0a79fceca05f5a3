//! Resolution over what a reader reads, with own changes on top.
ghost use Rattle.std.specs.Prelude.{ℕ, ◌<◌, ◌≤◌, ◌≡◌, IfOk, IfNone};
ghost use Rattle.fx_store.specs.Resolve as rule;
ghost use Rattle.fx_store.specs.Resolve.{◌/ₚ◌};
ghost use Rattle.fx_store.specs.Rule.{Look};
ghost use Rattle.fx_view.specs.Follows.{Consults};
ghost use Rattle.fx_view.specs.Own.{own_at};
ghost use Rattle.fx_view.specs.Steps.{StepsFrom};
ghost use Rattle.fx_view.specs.Walks.{rule_of, rule_at, left};

use crate::looking::look;
use crate::overlay::Overlay;
use crate::reader::{Reader, Stop};
use crate::walk::{Next, Walk, advance, arrive, start};
use fx_store::{Landing, Name, Path};
use std::alloc::Global;

/// Where a path lands; `follow` says whether a last link is followed. It consults just the paths that resolution looks at,
/// in order.
pub fn resolve<R: Reader>(
    alloc: Global,
    reader: &mut R,
    overlay: &Overlay,
    path: &Path,
    follow: bool,
) -> Result<Landing, Stop>
    ensures follows { Consults R.meaning (λ l. l) (own_at overlay.now) reader.old reader.new
        (rule.resolve path.now follow) result }
{
    let mut walk = start(alloc, path, follow);
    loop {
        match step(alloc, reader, overlay, &mut walk)? {
            None => {}
            Some(landing) => return Ok(landing),
        }
    }
}

/// Goes on by one component, or lands.
fn step<R: Reader>(
    alloc: Global,
    reader: &mut R,
    overlay: &Overlay,
    walk: &mut Walk<'_>,
) -> Result<Option<Landing>, Stop>
    ensures rule { (n : ℕ) → StepsFrom R.meaning (own_at overlay.now) (reader.old, n)
        (reader.new, n) (rule_of walk.old) walk.new result }
    ensures left { IfOk result (λ landing. IfNone landing (left walk.new < left walk.old)) }
{
    match advance(alloc, walk)? {
        Next::Lands(landing) => Ok(Some(landing)),
        Next::Goes => Ok(None),
        Next::Looks(name, path) => look_into(alloc, reader, overlay, walk, name, path),
    }
}

/// Looks at an entry of the directory where the walk is, and goes on there, or lands.
fn look_into<R: Reader>(
    alloc: Global,
    reader: &mut R,
    overlay: &Overlay,
    walk: &mut Walk<'_>,
    name: Name,
    path: Path,
) -> Result<Option<Landing>, Stop>
    requires { path ≡ walk.old.here /ₚ name }
    ensures rule { (n : ℕ) → StepsFrom R.meaning (own_at overlay.now) (reader.old, n)
        (reader.new, n) (Look path (rule_at walk.old name)) walk.new result }
    ensures left { IfOk result (λ landing. IfNone landing (left walk.new ≤ left walk.old)) }
{
    let node = look(alloc, reader, overlay, &path)?;
    Ok(arrive(alloc, walk, name, path, node)?)
}
