//! A part of a description with its definitions, and the form that it has.
ghost use Rattle.std.specs.Prelude.{◌≡◌, ◌-◌};
ghost use Rattle.fx_spec.specs.Forms.{IsForm, HasDefs};
ghost use Rattle.fx_spec.specs.Views.{spec_tree};
ghost use Rattle.fx_spec.specs.Written.{part_tree, WrittenTree};
ghost use Rattle.fx_spec.specs.Parts.{part_of};

use crate::description::{Defs, Params};
use crate::exprs::Exprs;
use crate::spec::Spec;
use fx_expr::{Formula, Word};

/// Inside so many calls no further one is unfolded.
const CALL_LIMIT: u32 = 64;

/// A part of a description, inside so many calls of the definitions. Contracts see what it means.
#[derive(Clone, Copy)]
pub struct Part<'a> {
    pub spec: &'a Spec,
    pub defs: &'a Defs,
    /// The number of calls that it is inside.
    pub level: u32,
}

/// The form of a part, with its own parts.
pub enum Form<'a> {
    File,
    Dir,
    Link,
    Focus(&'a Formula, Part<'a>),
    Pair(&'a Word, Part<'a>, Part<'a>),
    Comp(Part<'a>, &'a Word, &'a Formula),
    Opt(Part<'a>),
    Pred(&'a Formula),
    /// The arguments, the parameters and the body of a call that is unfolded.
    Call(&'a Exprs, &'a Params, Part<'a>),
    /// Those of a call inside 64 others.
    Last(&'a Exprs),
}

impl<'a> Part<'a> {
    /// Another part of the same text, inside the same calls.
    fn with(&self, spec: &'a Spec) -> Part<'a>
        ensures part { part_of result
            ≡ part_tree self.now.defs.now (64 - self.now.level) (spec_tree spec.now) }
        ensures defs { result.defs.now ≡ self.now.defs.now }
    {
        Part {
            spec,
            defs: self.defs,
            level: self.level,
        }
    }

    /// The form of the part.
    pub fn form(&self) -> Form<'a>
        ensures form { IsForm (part_of self.now) result }
        ensures defs { HasDefs self.now.defs.now result }
    {
        match self.spec {
            Spec::File => Form::File,
            Spec::Dir => Form::Dir,
            Spec::Link => Form::Link,
            Spec::Focus(text, part) => Form::Focus(text, self.with(part)),
            Spec::Pair(name, first, second) => {
                Form::Pair(name, self.with(first), self.with(second))
            }
            Spec::Comp(part, name, set) => Form::Comp(self.with(part), name, set),
            Spec::Opt(part) => Form::Opt(self.with(part)),
            Spec::Pred(test) => Form::Pred(test),
            Spec::Call(name, args) => self.called(name, args),
        }
    }

    /// The form of a call.
    fn called(&self, name: &Word, args: &'a Exprs) -> Form<'a>
        ensures form { IsForm (part_tree self.now.defs.now (64 - self.now.level)
            (WrittenTree.call name.now args.now)) result }
        ensures defs { HasDefs self.now.defs.now result }
    {
        match self.defs.get(name) {
            Some(def) => {
                if self.level < CALL_LIMIT {
                    Form::Call(
                        args,
                        &def.params,
                        Part {
                            spec: &def.body,
                            defs: self.defs,
                            level: self.level + 1,
                        },
                    )
                } else {
                    Form::Last(args)
                }
            }
            None => Form::Last(args),
        }
    }
}
