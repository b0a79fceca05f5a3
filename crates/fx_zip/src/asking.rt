//! What is asked at the zipper's place.
ghost use Rattle.std.specs.Prelude.{◌≡◌, [], IfOk};
ghost use Rattle.fx_expr.specs.Shapes.{ValueHas};
ghost use Rattle.fx_expr.specs.Views.{tree_of};
ghost use Rattle.fx_spec.specs.WellShaped.{IsDescription};
ghost use Rattle.fx_session.specs.Implements.{Answers};
ghost use Rattle.fx_zip.specs.Asking.{asked_at, asked_shape, IsTruth};
ghost use Rattle.fx_zip.specs.Calls.{AsksAtPlace};
ghost use Rattle.fx_zip.specs.Fresh.{IsFreshIn, StandsIn};
ghost use Rattle.fx_zip.specs.Trees.{here};

use crate::fetching::answer_at;
use crate::question::Question;
use crate::zip::Zip;
use fx_expr::Value;
use fx_session::{Halt, Session};
use fx_steps::frames::last_path;
use fx_steps::part::part;
use fx_view::Reader;
use std::sync::ledger::Ledger;

impl Zip {
    /// The answer to a question at the place, which has to be there.
    pub fn ask<R: Reader, L: Ledger>(
        &mut self,
        session: &mut Session<'_, R, L>,
        question: &Question<'_>,
    ) -> Result<Value, Halt>
        requires fresh { IsFreshIn R.meaning session.old self.old }
        ensures asks { AsksAtPlace R.meaning tree_of self.old self.new
            session.old session.new (asked_at question.now) result }
        ensures shape { IfOk result (λ value. ValueHas (tree_of value) (asked_shape question.now)) }
    {
        self.find(session)?;
        self.ask_here(session, question)
    }

    /// The answer where the zipper stands.
    fn ask_here<R: Reader, L: Ledger>(
        &mut self,
        session: &mut Session<'_, R, L>,
        question: &Question<'_>,
    ) -> Result<Value, Halt>
        requires stands { StandsIn R.meaning session.old self.old }
        ensures same { self.new ≡ self.old }
        ensures follows { Answers R.meaning tree_of session.old session.new
            (asked_at question.now (here self.old)) result }
        ensures truth { IfOk result (λ value. IsTruth question.now (tree_of value)) }
        ensures described { IsDescription [] self.old.root }
    {
        let path = last_path(&self.top, self.frames.as_slice());
        let spec = part(&self.base.description.root(), self.steps.as_slice());
        answer_at(session, path, &mut self.env, &spec, question)
    }
}
