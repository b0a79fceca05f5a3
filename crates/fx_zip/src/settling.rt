//! The place of a zipper, found step by step.
ghost use Rattle.std.specs.Prelude.{◌≡◌, IfOk, false};
ghost use Rattle.fx_spec.specs.Shaped.{IsDescribedPlace};
ghost use Rattle.fx_spec.specs.WellShaped.{AreDefined};
ghost use Rattle.fx_session.specs.Implements.{Answers};
ghost use Rattle.fx_session.specs.Places.{place_tree};
ghost use Rattle.fx_zip.specs.Calls.{Finds, SettlesFrames, Evaluates, place_needed};
ghost use Rattle.fx_zip.specs.Fresh.{IsFreshIn};
ghost use Rattle.fx_zip.specs.Entered.{LeadsNext};
ghost use Rattle.fx_zip.specs.Trees.{is_settled};

use crate::leading::led;
use crate::zip::Zip;
use fx_session::{Halt, Session};
use fx_spec::{Place, Refusal};
use fx_steps::Spot;
use fx_steps::frames::last_path;
use fx_steps::part::part;
use fx_view::{Reader, Stop};
use std::sync::ledger::Ledger;

impl Zip {
    /// Finds the place of the address, at which the zipper then stands: `NoPlace` where there is none.
    pub fn find<R: Reader, L: Ledger>(
        &mut self,
        session: &mut Session<'_, R, L>,
    ) -> Result<(), Halt>
        requires fresh { IsFreshIn R.meaning session.old self.old }
        ensures { Finds R.meaning self.old self.new
            session.old session.new result }
    {
        'settling: while !self.is_settled() {
            if !self.settle_next(session)? {
                return Err(Halt::Refused(Refusal::NoPlace));
            }
        }
        Ok(())
    }

    /// The place of the address, which is lent as long as the zipper is; `find` and then `here` say besides what the zipper
    /// is afterwards.
    pub fn place<R: Reader, L: Ledger>(
        &mut self,
        session: &mut Session<'_, R, L>,
    ) -> Result<Place<'_>, Halt>
        requires fresh { IsFreshIn R.meaning session.old self.old }
        ensures follows { Answers R.meaning place_tree session.old session.new
            (place_needed self.old.root self.old.address) result }
        ensures described { IfOk result (λ place. IsDescribedPlace (place_tree place)) }
        ensures defined { IfOk result (λ place. AreDefined place.defs.now) }
        ensures most { Evaluates R.meaning self.old
            session.old session.new (λ S. 0) }
    {
        self.find(session)?;
        Ok(self.here())
    }

    /// Finds the frame of the first step that has none, where its place is there.
    fn settle_next<R: Reader, L: Ledger>(
        &mut self,
        session: &mut Session<'_, R, L>,
    ) -> Result<bool, Stop>
        requires fresh { IsFreshIn R.meaning session.old self.old }
        requires unsettled { is_settled self.old ≡ false }
        ensures settles { SettlesFrames R.meaning self.old self.new
            session.old session.new result }
    {
        match self.next_spot(session)? {
            Some(spot) => {
                self.keep(session.alloc, spot)?;
                Ok(true)
            }
            None => Ok(false),
        }
    }

    /// The spot to which the first step leads that has no frame, where it leads to one.
    fn next_spot<R: Reader, L: Ledger>(
        &mut self,
        session: &mut Session<'_, R, L>,
    ) -> Result<Option<Spot>, Stop>
        requires fresh { IsFreshIn R.meaning session.old self.old }
        requires unsettled { is_settled self.old ≡ false }
        ensures same { self.new ≡ self.old }
        ensures leads { LeadsNext R.meaning self.old
            session.old session.new result }
    {
        let done = self.frames.len();
        let spec = part(&self.base.description.root(), &self.steps[..done]);
        let path = last_path(&self.top, self.frames.as_slice());
        led(session, &self.steps[done], path, &mut self.env, &spec)
    }
}
