//! Moves to a second or a first part, and to another element.
ghost use Rattle.std.specs.Prelude.{◌≡◌, Some, MatchOption, drop};
ghost use Rattle.std.specs.Option.{option_copied};
ghost use Rattle.fx_expr.specs.Sets.{least_above, greatest_below};
ghost use Rattle.fx_spec.specs.Move as move;
ghost use Rattle.fx_spec.specs.Place as place;
ghost use Rattle.fx_store.specs.Rule.{Known};
ghost use Rattle.fx_view.specs.ReadList.{ReadList};
ghost use Rattle.fx_zip.specs.Calls.{Moves, Turns, Turned, Besides, sideways_evals, next_at, prev_at, next_evals, beside};
ghost use Rattle.fx_zip.specs.Fresh.{IsFreshIn, Stands, StandsIn, IsNoElement, is_first, is_second_step};
ghost use Rattle.fx_steps.specs.Frames.{last_step, last_set, path_of};
ghost use Rattle.fx_steps.specs.Parts.{comp_name, part};
ghost use Rattle.fx_steps.specs.Spots.{Chooses, as_entry, chosen_entry};
ghost use Rattle.fx_zip.specs.Entered.{FirstLeads};
ghost use Rattle.fx_zip.specs.Trees.{here};

use crate::leading::after_first;
use crate::zip::Zip;
use fx_expr::{Text, TextSet};
use fx_session::{Halt, Session};
use fx_spec::Refusal;
use fx_steps::frames::path_around;
use fx_steps::moving::chosen;
use fx_steps::part::part_around;
use fx_steps::{Chosen, Entry, Spot, Step, comp_of, pair_of};
use fx_view::{Reader, Stop};
use std::alloc::Global;
use std::sync::ledger::Ledger;

impl Zip {
    /// From a first part, which needs a value, to the second; or to the next greater element.
    pub fn go_next<R: Reader, L: Ledger>(
        &mut self,
        session: &mut Session<'_, R, L>,
    ) -> Result<(), Halt>
        requires fresh { IsFreshIn R.meaning session.old self.old }
        ensures moves { Moves R.meaning self.old self.new
            session.old session.new
            (move.go_next self.old.root self.old.address)
            (sideways_evals self.old self.old.address) result }
    {
        self.find(session)?;
        if self.is_at_first() {
            self.to_second(session)
        } else {
            self.to_greater(session.alloc)
        }
    }

    /// From a second part to the first, or to the next smaller element.
    pub fn go_prev<R: Reader, L: Ledger>(
        &mut self,
        session: &mut Session<'_, R, L>,
    ) -> Result<(), Halt>
        requires fresh { IsFreshIn R.meaning session.old self.old }
        ensures moves { Moves R.meaning self.old self.new
            session.old session.new
            (move.go_prev self.old.root self.old.address) (λ S. 0) result }
    {
        self.find(session)?;
        if self.is_at_second() {
            self.to_first(session.alloc)
        } else {
            self.to_smaller(session.alloc)
        }
    }
}

impl Zip {
    /// From a first part to the second.
    fn to_second<R: Reader, L: Ledger>(
        &mut self,
        session: &mut Session<'_, R, L>,
    ) -> Result<(), Halt>
        requires stands { StandsIn R.meaning session.old self.old }
        requires first { last_step self.old.address ≡ Some place.First }
        ensures turns { Turns R.meaning self.old self.new
            session.old session.new
            (next_at self.old.root self.old.address (here self.old))
            (next_evals self.old.address (here self.old)) result }
    {
        match self.after_first(session)? {
            Some(spot) => Ok(self.replace(
                session.alloc,
                Entry {
                    step: Step::Second,
                    spot,
                },
            )?),
            None => Err(Halt::Refused(Refusal::Lacks)),
        }
    }

    /// The spot at the second part of the pair around, where the first part has a value.
    fn after_first<R: Reader, L: Ledger>(
        &mut self,
        session: &mut Session<'_, R, L>,
    ) -> Result<Option<Spot>, Stop>
        requires stands { StandsIn R.meaning session.old self.old }
        requires first { last_step self.old.address ≡ Some place.First }
        ensures same { self.new ≡ self.old }
        ensures leads { FirstLeads R.meaning self.old
            session.old session.new result }
    {
        let path = path_around(&self.top, self.frames.as_slice());
        let around = part_around(&self.base.description.root(), self.steps.as_slice());
        match pair_of(&around) {
            Some((name, first, _)) => after_first(session, path, &mut self.env, name, &first),
            None => Ok(None),
        }
    }

    /// Whether the zipper stands at a first part.
    fn is_at_first(&self) -> bool
        ensures { result ≡ is_first (last_step self.now.address) }
    {
        match self.last() {
            Some(Step::First) => true,
            Some(Step::Second) | Some(Step::Inside) | Some(Step::Down) => false,
            Some(Step::Body) | Some(Step::Elem(_)) | None => false,
        }
    }

    /// Whether the zipper stands at a second part.
    fn is_at_second(&self) -> bool
        ensures { result ≡ is_second_step (last_step self.now.address) }
    {
        match self.last() {
            Some(Step::Second) => true,
            Some(Step::First) | Some(Step::Inside) | Some(Step::Down) => false,
            Some(Step::Body) | Some(Step::Elem(_)) | None => false,
        }
    }

    /// From a second part to the first.
    fn to_first(&mut self, alloc: Global) -> Result<(), Halt>
        requires second { last_step self.old.address ≡ Some place.Second }
        ensures { (reads : ReadList) (own : Known) → Stands reads own self.old
            → Turned reads own self.old self.new
            (prev_at self.old.root self.old.address (here self.old)) result }
    {
        self.leave();
        let path = self.path().copy(alloc)?;
        Ok(self.enter_at(Step::First, path, 0)?)
    }

    /// From an element to the next greater one.
    fn to_greater(&mut self, alloc: Global) -> Result<(), Halt>
        ensures { (reads : ReadList) (own : Known) → Stands reads own self.old
            → Turned reads own self.old self.new
            (beside self.old.root least_above self.old.address) result }
    {
        let chosen = self.greater(alloc)?;
        self.leave();
        Ok(self.enter_chosen(alloc, chosen)?)
    }

    /// From an element to the next smaller one.
    fn to_smaller(&mut self, alloc: Global) -> Result<(), Halt>
        ensures { (reads : ReadList) (own : Known) → Stands reads own self.old
            → Turned reads own self.old self.new
            (beside self.old.root greatest_below self.old.address) result }
    {
        let chosen = self.smaller(alloc)?;
        self.leave();
        Ok(self.enter_chosen(alloc, chosen)?)
    }

    fn greater(&self, alloc: Global) -> Result<Chosen, Halt>
        ensures { (reads : ReadList) (own : Known) → Stands reads own self.now → Besides reads own
            self.now (beside self.now.root least_above self.now.address)
            (as_entry (chosen_entry (path_of (drop 1 self.now.frames))) result) }
    {
        match self.element() {
            Some((text, set)) => self.other(alloc, set, set.above(text)),
            None => Err(Halt::Refused(Refusal::NoStep)),
        }
    }

    fn smaller(&self, alloc: Global) -> Result<Chosen, Halt>
        ensures { (reads : ReadList) (own : Known) → Stands reads own self.now → Besides reads own
            self.now (beside self.now.root greatest_below self.now.address)
            (as_entry (chosen_entry (path_of (drop 1 self.now.frames))) result) }
    {
        match self.element() {
            Some((text, set)) => self.other(alloc, set, set.below(text)),
            None => Err(Halt::Refused(Refusal::NoStep)),
        }
    }

    /// The chosen element of the set around the place.
    fn other(&self, alloc: Global, set: &TextSet, choice: Option<&Text>) -> Result<Chosen, Halt>
        ensures { MatchOption (comp_name (part self.now.root (drop 1 self.now.address)))
            (Unit {0})
            (λ x. Chooses (path_of (drop 1 self.now.frames)) x set.now
            (option_copied choice.entry)
            (as_entry (chosen_entry (path_of (drop 1 self.now.frames))) result)) }
    {
        match comp_of(&self.around()) {
            Some((_, name, _)) => chosen(alloc, name, set, choice),
            None => Err(Halt::Refused(Refusal::NoStep)),
        }
    }

    /// The element at which the zipper stands, with the set around it.
    fn element(&self) -> Option<(&Text, &TextSet)>
        ensures { MatchOption result (IsNoElement self.now) (λ r.
            (last_step self.now.address ≡ Some (place.Elem r.0.now))
            × (last_set self.now.frames ≡ Some r.1.now)) }
    {
        match self.last() {
            Some(Step::Elem(text)) => match self.held() {
                Some(set) => Some((text, set)),
                None => None,
            },
            Some(Step::First) | Some(Step::Second) | Some(Step::Inside) => None,
            Some(Step::Down) | Some(Step::Body) | None => None,
        }
    }
}
