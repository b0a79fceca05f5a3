//! Edits at the place where a transaction walks. The zipper keeps what it found by reads that the own changes leave untouched,
//! and finds the rest of its place again.
ghost use Rattle.fx_expr.specs.Views.{expr_tree, tree_of};
ghost use Rattle.fx_spec.specs.CommandTree.{ActTree};
ghost use Rattle.fx_spec.specs.Edit as edit;
ghost use Rattle.fx_spec.specs.Move.{at_place};
ghost use Rattle.fx_spec.specs.Transaction.{effect, editing};
ghost use Rattle.fx_zip.specs.Fresh.{IsFreshIn};
ghost use Rattle.fx_run.specs.Acts.{Acts, HasAct};

use crate::evaluating::evaluated;
use crate::walk::Walk;
use fx_edit::{create, remove, store};
use fx_expr::{Env, Expr, Value};
use fx_session::Halt;
use fx_view::Reader;
use std::sync::ledger::Ledger;

impl<'a, R: Reader, L: Ledger> Walk<'a, R, L> {
    /// The expression's value becomes the content of the node at the place.
    pub(crate) fn store(&mut self, variables: &Env, value: &Expr) -> Result<(), Halt>
        requires fresh { IsFreshIn R.meaning self.old.session self.old.zip }
        requires shaped { HasAct variables.now (ActTree.store (expr_tree value.now)) }
        ensures acts { Acts R.meaning self.old self.new
            (effect self.old.zip.root self.old.zip.address variables.now
            (ActTree.store (expr_tree value.now))) result }
    {
        let value = evaluated(&mut self.session, value, variables)?;
        self.store_value(&value)
    }

    fn store_value(&mut self, value: &Value) -> Result<(), Halt>
        requires fresh { IsFreshIn R.meaning self.old.session self.old.zip }
        ensures acts { Acts R.meaning self.old self.new
            (editing (at_place self.old.zip.root self.old.zip.address
            (edit.store_at (tree_of value.now)))) result }
    {
        self.zip.find(&mut self.session)?;
        let untouched = store(&mut self.session, &self.zip.here(), value)?;
        self.zip.edited(untouched);
        Ok(())
    }

    /// An empty file or directory at the place.
    pub(crate) fn create(&mut self) -> Result<(), Halt>
        requires fresh { IsFreshIn R.meaning self.old.session self.old.zip }
        ensures acts { Acts R.meaning self.old self.new
            (editing (at_place self.old.zip.root self.old.zip.address edit.create_at)) result }
    {
        self.zip.find(&mut self.session)?;
        let untouched = create(&mut self.session, &self.zip.here())?;
        self.zip.edited(untouched);
        Ok(())
    }

    /// The entry at the place goes, with all below it.
    pub(crate) fn remove(&mut self) -> Result<(), Halt>
        requires fresh { IsFreshIn R.meaning self.old.session self.old.zip }
        ensures acts { Acts R.meaning self.old self.new
            (editing (at_place self.old.zip.root self.old.zip.address edit.remove_at)) result }
    {
        self.zip.find(&mut self.session)?;
        let untouched = remove(&mut self.session, &self.zip.here())?;
        self.zip.edited(untouched);
        Ok(())
    }
}
