//! Acts, each by the rule of its effect.
ghost use Rattle.fx_expr.specs.Views.{expr_tree};
ghost use Rattle.fx_spec.specs.CommandTree.{ActTree};
ghost use Rattle.fx_spec.specs.Transaction.{effect};
ghost use Rattle.fx_spec.specs.Views.{act_tree};
ghost use Rattle.fx_zip.specs.Fresh.{IsFreshIn};
ghost use Rattle.fx_run.specs.Acts.{Acts, HasAct};

use crate::evaluating::evaluated;
use crate::walk::Walk;
use fx_expr::{Env, Expr};
use fx_session::Halt;
use fx_spec::Act;
use fx_view::Reader;
use std::sync::ledger::Ledger;

impl<'a, R: Reader, L: Ledger> Walk<'a, R, L> {
    /// A move or an edit, whose own expression sees the variables. A refusal changes nothing; after a stop the walk is not
    /// used again.
    pub(crate) fn act(&mut self, variables: &Env, act: &Act) -> Result<(), Halt>
        requires fresh { IsFreshIn R.meaning self.old.session self.old.zip }
        requires shaped { HasAct variables.now (act_tree act.now) }
        ensures acts { Acts R.meaning self.old self.new
            (effect self.old.zip.root self.old.zip.address variables.now
            (act_tree act.now)) result }
    {
        match act {
            Act::Into => self.zip.go_into(&mut self.session),
            Act::To(text) => self.go_to(variables, text),
            Act::Next => self.zip.go_next(&mut self.session),
            Act::Prev => self.zip.go_prev(&mut self.session),
            Act::Out => Ok(self.zip.go_out()?),
            Act::Down => self.zip.go_down(&mut self.session),
            Act::Up => Ok(self.zip.go_up()?),
            Act::Top => {
                self.zip.go_top();
                Ok(())
            }
            Act::Store(value) => self.store(variables, value),
            Act::Create => self.create(),
            Act::Remove => self.remove(),
        }
    }

    /// To the element of a comprehension that the expression names.
    fn go_to(&mut self, variables: &Env, text: &Expr) -> Result<(), Halt>
        requires fresh { IsFreshIn R.meaning self.old.session self.old.zip }
        requires shaped { HasAct variables.now (ActTree.to (expr_tree text.now)) }
        ensures acts { Acts R.meaning self.old self.new
            (effect self.old.zip.root self.old.zip.address variables.now
            (ActTree.to (expr_tree text.now))) result }
    {
        let value = evaluated(&mut self.session, text, variables)?;
        let text = value.into_text(self.session.alloc);
        self.zip.go_to(&mut self.session, &text)
    }
}
