//! What a zipper keeps of a step.
ghost use Rattle.std.specs.Prelude.{◌≡◌, IfOk, None, Some};
ghost use Rattle.fx_expr.specs.Views.{tree_of};
ghost use Rattle.fx_steps.specs.Spots.{BindsText, BindsValue, BindsNames};
ghost use Rattle.fx_steps.specs.declared.frame.Bound.TheVariants as bounds;

use crate::step::Step;
use fx_base::NoMemory;
use fx_expr::{Env, Text, TextSet, Value, Word};
use fx_store::Path;
use std::alloc::Global;

/// The path to which a step leads; at an element, the set of the comprehension around it; the number of the reader's first
/// reads by which the place is known; and in a body, the names bound around the call.
#[derive(Drop)]
pub struct Frame {
    pub path: Path,
    pub set: Option<TextSet>,
    pub reads: u64,
    pub caller: Option<Env>,
}

/// What a step binds: nothing, one name more, or other names in place of those before it.
#[derive(Drop)]
pub enum Bound {
    Nothing,
    Name(Word, Value),
    Names(Env),
}

/// What a frame is made of, and what its step binds.
#[derive(Drop)]
pub struct Spot {
    pub path: Path,
    pub set: Option<TextSet>,
    pub reads: u64,
    pub bound: Bound,
}

/// A step with the spot to which it leads.
#[derive(Drop)]
pub struct Entry {
    pub step: Step,
    pub spot: Spot,
}

/// An element of a comprehension that was chosen, with the name that its step binds and the set of which it is one.
#[derive(Drop)]
pub struct Chosen {
    pub name: Word,
    pub text: Text,
    pub set: TextSet,
}

/// What stands inside a place: the first part of a pair, an element, an entry that was found by so many reads, or a body with
/// its names.
#[derive(Drop)]
pub enum Inner {
    First,
    Element(Chosen),
    Inside(u64),
    Body(Env),
}

/// The spot at a path, for a step that binds nothing.
pub(crate) fn spot_at(path: Path, reads: u64) -> Spot
    ensures path { result.path ≡ path }
    ensures reads { result.reads ≡ reads }
    ensures bound { result.bound ≡ bounds.Nothing }
{
    Spot {
        path,
        set: None,
        reads,
        bound: Bound::Nothing,
    }
}

/// The spot in a body, where these names are bound.
pub(crate) fn body_spot(alloc: Global, path: &Path, names: Env) -> Result<Spot, NoMemory>
    ensures { IfOk result (BindsNames path.now names) }
{
    let path = path.copy(alloc)?;
    Ok(Spot {
        path,
        set: None,
        reads: 0,
        bound: Bound::Names(names),
    })
}

/// The spot at an element of a set.
pub(crate) fn element_spot(
    alloc: Global,
    path: &Path,
    name: &Word,
    text: &Text,
    set: &TextSet,
) -> Result<Spot, NoMemory>
    ensures { IfOk result (BindsText path.now name.now text.now set.now) }
{
    let path = path.copy(alloc)?;
    let set = set.copy(alloc)?;
    let word = name.copy(alloc)?;
    let text = text.copy(alloc)?;
    Ok(Spot {
        path,
        set: Some(set),
        reads: 0,
        bound: Bound::Name(word, Value::Str(text)),
    })
}

/// The spot at a second part, where the first one has this value.
pub fn second_spot(
    alloc: Global,
    path: &Path,
    name: &Word,
    value: Value,
    reads: u64,
) -> Result<Spot, NoMemory>
    ensures binds { IfOk result (BindsValue path.now name.now (tree_of value)) }
    ensures reads { IfOk result (λ spot. spot.reads ≡ reads) }
{
    let path = path.copy(alloc)?;
    let word = name.copy(alloc)?;
    Ok(Spot {
        path,
        set: None,
        reads,
        bound: Bound::Name(word, value),
    })
}
