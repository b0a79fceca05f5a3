//! Moves from the zipper's place.
ghost use Rattle.fx_spec.specs.Move as move;
ghost use Rattle.fx_zip.specs.Calls.{MovesBy};
ghost use Rattle.fx_zip.specs.Fresh.{IsFreshIn};

use crate::zip::Zip;
use fx_expr::Text;
use fx_session::{Halt, Session};
use fx_steps::Step;
use fx_steps::moving::{down, into, to};
use fx_view::Reader;
use std::sync::ledger::Ledger;

impl Zip {
    /// To the path of a focus, at which nothing need be there.
    pub fn go_down<R: Reader, L: Ledger>(
        &mut self,
        session: &mut Session<'_, R, L>,
    ) -> Result<(), Halt>
        requires fresh { IsFreshIn R.meaning session.old self.old }
        ensures moves { MovesBy R.meaning self.old self.new
            session.old session.new move.go_down result }
    {
        self.find(session)?;
        let path = down(session, self.path(), self.env(), &self.spec())?;
        Ok(self.enter_at(Step::Down, path, 0)?)
    }

    /// To an element of a comprehension.
    pub fn go_to<R: Reader, L: Ledger>(
        &mut self,
        session: &mut Session<'_, R, L>,
        text: &Text,
    ) -> Result<(), Halt>
        requires fresh { IsFreshIn R.meaning session.old self.old }
        ensures moves { MovesBy R.meaning self.old self.new
            session.old session.new (move.go_to text.now) result }
    {
        self.find(session)?;
        let chosen = to(session, self.env(), &self.spec(), self.kept(), text)?;
        Ok(self.enter_chosen(session.alloc, chosen)?)
    }

    /// To a first part, to the least element, inside an entry, or into a call's body.
    pub fn go_into<R: Reader, L: Ledger>(
        &mut self,
        session: &mut Session<'_, R, L>,
    ) -> Result<(), Halt>
        requires fresh { IsFreshIn R.meaning session.old self.old }
        ensures moves { MovesBy R.meaning self.old self.new
            session.old session.new move.go_into result }
    {
        self.find(session)?;
        let inner = into(session, self.path(), self.env(), &self.spec(), self.kept())?;
        Ok(self.enter_inner(session.alloc, inner)?)
    }
}
