//! The parts of a description of a form.
ghost use Rattle.std.specs.Prelude.{◌≡◌, ◌-◌, MatchOption};
ghost use Rattle.std.specs.Option.{IfSome};
ghost use Rattle.fx_spec.specs.Parts.{part_of};
ghost use Rattle.fx_spec.specs.SpecTree.{SpecTree};
ghost use Rattle.fx_spec.specs.Views.{spec_tree};
ghost use Rattle.fx_spec.specs.Written.{part_tree};
ghost use Rattle.fx_steps.specs.Parts.{IsNoPair, IsNoComp, IsNoFocus, IsNoOption, IsNoCall};

use fx_expr::{Formula, Word};
use fx_spec::{Exprs, Form, Params, Part, Spec};

/// Another part of the same text, inside the same calls.
fn within<'a>(around: &Part<'a>, spec: &'a Spec) -> Part<'a>
    ensures part { part_of result
        ≡ part_tree around.now.defs.now (64 - around.now.level) (spec_tree spec.now) }
    ensures defs { result.defs.now ≡ around.now.defs.now }
{
    Part {
        spec,
        defs: around.defs,
        level: around.level,
    }
}

/// The name and the parts of a pair.
pub fn pair_of<'a>(spec: &Part<'a>) -> Option<(&'a Word, Part<'a>, Part<'a>)>
    ensures form { MatchOption result (IsNoPair (part_of spec.now)) (λ r.
        part_of spec.now ≡ SpecTree.pair r.0.now (part_of r.1) (part_of r.2)) }
    ensures defs { IfSome result (λ r. (r.1.defs.now ≡ spec.now.defs.now)
        × (r.2.defs.now ≡ spec.now.defs.now)) }
{
    match spec.spec {
        Spec::Pair(name, first, second) => Some((name, within(spec, first), within(spec, second))),
        Spec::File | Spec::Dir | Spec::Link | Spec::Focus(_, _) | Spec::Comp(_, _, _) => None,
        Spec::Opt(_) | Spec::Pred(_) => None,
        Spec::Call(_, _) => None,
    }
}

/// The part, the name and the set of a comprehension.
pub fn comp_of<'a>(spec: &Part<'a>) -> Option<(Part<'a>, &'a Word, &'a Formula)>
    ensures form { MatchOption result (IsNoComp (part_of spec.now)) (λ r.
        part_of spec.now ≡ SpecTree.comp (part_of r.0) r.1.now r.2.now) }
    ensures defs { IfSome result (λ r. r.0.defs.now ≡ spec.now.defs.now) }
{
    match spec.spec {
        Spec::Comp(part, name, set) => Some((within(spec, part), name, set)),
        Spec::File | Spec::Dir | Spec::Link | Spec::Focus(_, _) | Spec::Pair(_, _, _) => None,
        Spec::Opt(_) | Spec::Pred(_) => None,
        Spec::Call(_, _) => None,
    }
}

/// The text and the part of a focus.
pub(crate) fn focus_of<'a>(spec: &Part<'a>) -> Option<(&'a Formula, Part<'a>)>
    ensures form { MatchOption result (IsNoFocus (part_of spec.now)) (λ r.
        part_of spec.now ≡ SpecTree.focus r.0.now (part_of r.1)) }
    ensures defs { IfSome result (λ r. r.1.defs.now ≡ spec.now.defs.now) }
{
    match spec.spec {
        Spec::Focus(text, part) => Some((text, within(spec, part))),
        Spec::File | Spec::Dir | Spec::Link | Spec::Pair(_, _, _) | Spec::Comp(_, _, _) => None,
        Spec::Opt(_) | Spec::Pred(_) => None,
        Spec::Call(_, _) => None,
    }
}

/// The part of an option.
pub(crate) fn option_of<'a>(spec: &Part<'a>) -> Option<Part<'a>>
    ensures form { MatchOption result (IsNoOption (part_of spec.now)) (λ part.
        part_of spec.now ≡ SpecTree.opt (part_of part)) }
    ensures defs { IfSome result (λ part. part.defs.now ≡ spec.now.defs.now) }
{
    match spec.spec {
        Spec::Opt(part) => Some(within(spec, part)),
        Spec::File | Spec::Dir | Spec::Link | Spec::Focus(_, _) | Spec::Pair(_, _, _) => None,
        Spec::Comp(_, _, _) | Spec::Pred(_) => None,
        Spec::Call(_, _) => None,
    }
}

/// The arguments, the parameters and the body of a call that is unfolded.
pub(crate) fn call_of<'a>(spec: &Part<'a>) -> Option<(&'a Exprs, &'a Params, Part<'a>)>
    ensures form { MatchOption result (IsNoCall (part_of spec.now)) (λ r.
        part_of spec.now ≡ SpecTree.call r.0.now r.1.now (part_of r.2)) }
    ensures defs { IfSome result (λ r. r.2.defs.now ≡ spec.now.defs.now) }
{
    match spec.form() {
        Form::Call(args, params, body) => Some((args, params, body)),
        Form::File | Form::Dir | Form::Link | Form::Focus(_, _) | Form::Pair(_, _, _) => None,
        Form::Comp(_, _, _) | Form::Opt(_) | Form::Pred(_) | Form::Last(_) => None,
    }
}
