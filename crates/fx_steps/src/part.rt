//! The part of a description to which steps lead.
ghost use Rattle.std.specs.Prelude.{◌≡◌, List, ℕ, drop};
ghost use Rattle.fx_spec.specs.Parts.{part_of};
ghost use Rattle.fx_spec.specs.Place as place;
ghost use Rattle.fx_steps.specs.Parts as parts;
ghost use Rattle.fx_steps.specs.Steps.{step_tree, turned};

use crate::forms::{call_of, comp_of, focus_of, option_of, pair_of};
use crate::step::Step;
use fx_spec::Part;

/// The part to which a step leads; a step that the form lacks leads back to it.
pub(crate) fn child<'a>(step: &Step, spec: &Part<'a>) -> Part<'a>
    ensures part { part_of result ≡ parts.child (step_tree step.now) (part_of spec.now) }
    ensures defs { result.defs.now ≡ spec.now.defs.now }
{
    match step {
        Step::First => first_part(spec),
        Step::Second => second_part(spec),
        Step::Inside => present_part(spec),
        Step::Down => focus_part(spec),
        Step::Body => body_part(spec),
        Step::Elem(_) => row_part(spec),
    }
}

fn first_part<'a>(spec: &Part<'a>) -> Part<'a>
    ensures part { part_of result ≡ parts.child place.First (part_of spec.now) }
    ensures defs { result.defs.now ≡ spec.now.defs.now }
{
    match pair_of(spec) {
        Some((_, first, _)) => first,
        None => *spec,
    }
}

fn second_part<'a>(spec: &Part<'a>) -> Part<'a>
    ensures part { part_of result ≡ parts.child place.Second (part_of spec.now) }
    ensures defs { result.defs.now ≡ spec.now.defs.now }
{
    match pair_of(spec) {
        Some((_, _, second)) => second,
        None => *spec,
    }
}

fn present_part<'a>(spec: &Part<'a>) -> Part<'a>
    ensures part { part_of result ≡ parts.child place.Inside (part_of spec.now) }
    ensures defs { result.defs.now ≡ spec.now.defs.now }
{
    match option_of(spec) {
        Some(part) => part,
        None => *spec,
    }
}

fn focus_part<'a>(spec: &Part<'a>) -> Part<'a>
    ensures part { part_of result ≡ parts.child place.Down (part_of spec.now) }
    ensures defs { result.defs.now ≡ spec.now.defs.now }
{
    match focus_of(spec) {
        Some((_, part)) => part,
        None => *spec,
    }
}

fn body_part<'a>(spec: &Part<'a>) -> Part<'a>
    ensures part { part_of result ≡ parts.child place.Body (part_of spec.now) }
    ensures defs { result.defs.now ≡ spec.now.defs.now }
{
    match call_of(spec) {
        Some((_, _, body)) => body,
        None => *spec,
    }
}

fn row_part<'a>(spec: &Part<'a>) -> Part<'a>
    ensures part { (text : List ℕ)
        → part_of result ≡ parts.child (place.Elem text) (part_of spec.now) }
    ensures defs { result.defs.now ≡ spec.now.defs.now }
{
    match comp_of(spec) {
        Some((part, _, _)) => part,
        None => *spec,
    }
}

/// The part to which all of the steps lead.
pub fn part<'a>(root: &Part<'a>, steps: &[Step]) -> Part<'a>
    ensures part { part_of result ≡ parts.part (part_of root.now) (turned step_tree steps.now) }
    ensures defs { result.defs.now ≡ root.now.defs.now }
{
    let mut spec = *root;
    for step in steps {
        spec = child(step, &spec);
    }
    spec
}

/// The part to which all steps but the last one lead.
pub fn part_around<'a>(root: &Part<'a>, steps: &[Step]) -> Part<'a>
    ensures part { part_of result
        ≡ parts.part (part_of root.now) (drop 1 (turned step_tree steps.now)) }
    ensures defs { result.defs.now ≡ root.now.defs.now }
{
    match steps.split_last() {
        Some((_, front)) => part(root, front),
        None => *root,
    }
}
