ghost use Rattle.std.specs.Prelude.{◌≡◌, ◌≤◌, ◌+◌, IfOk, OnOk, IsSome, MatchOption};
ghost use Rattle.std.specs.FinMap.{get};
ghost use Rattle.fx_store.specs.Whole.{Store};
ghost use Rattle.fx_watch.specs.Validity.{has_value, evaluations, DiffersAt, Spares};
ghost use Rattle.fx_watch.specs.WatchView.{AnswersFor};

use crate::walking::{Walked, are_unread, walk};
use fx_base::{NoMemory, Steps};
use fx_spec::Base;
use fx_store::{Filestore, Paths};
use std::alloc::Global;
use std::marker::Model;
use std::sync::Arc;
use std::sync::ledger::Ledger;

/// Whether the description of a base has a value on a filestore that changes step by step. Contracts see the description, and
/// what was found on the filestore that was told last. A watch whose call was refused is to be made anew.
#[derive(Drop)]
pub struct Watch {
    base: Arc<Base>,
    found: Option<Walked>,
}

impl Model for Watch {
    ghost use Rattle.fx_watch.specs.WatchView.{WatchView, watch_code};

    ghost Value = { WatchView };

    ghost coded = { watch_code };

    ghost use Rattle.std.specs.Option.{option_map};

    ghost view = { λ w. record {
      root = w.base.value.description;
      found = option_map (λ f. (f.reads, f.valid)) w.found;
    } };
}

impl Watch {
    /// A watch that was told the loaded filestore, over which it walks. The counter is given back.
    pub fn new<L: Ledger>(
        alloc: Global,
        base: Arc<Base>,
        steps: Steps<L>,
    ) -> (Steps<L>, Result<Watch, NoMemory>)
        ensures root { IfOk result.1 (λ watch. watch.root ≡ base.value.description) }
        ensures told { IfOk result.1 (λ watch. AnswersFor watch (get base.value.loaded.nodes)) }
        ensures most { result.0 ≤ steps
            + evaluations base.value.description (get base.value.loaded.nodes) }
    {
        match walk(alloc, &base.description, &base.loaded, steps) {
            (steps, Ok(walked)) => {
                let found = Some(walked);
                (steps, Ok(Watch { base, found }))
            }
            (steps, Err(NoMemory)) => {
                Base::let_go(base);
                (steps, Err(NoMemory))
            }
        }
    }

    /// Lets go of the watch.
    pub fn let_go(self) {
        let Watch { base, .. } = self;
        Base::let_go(base);
    }

    /// Whether the description has a value on the filestore that was told last.
    pub fn valid(&self) -> bool
        requires { IsSome self.now.found }
        ensures { (S : Store) → AnswersFor self.now S → result ≡ has_value self.now.root S }
    {
        match &self.found {
            Some(found) => found.valid,
            None => unreachable!(),
        }
    }

    /// Whether it has one on this filestore, which needs to differ from the one that was told last at no other than the
    /// changed paths. Where none of these was consulted there, nothing is walked and nothing evaluated. The counter is given
    /// back.
    pub fn after<L: Ledger>(
        &mut self,
        alloc: Global,
        changed: &Paths,
        store: &Filestore,
        steps: Steps<L>,
    ) -> (Steps<L>, Result<bool, NoMemory>)
        ensures valid { (S : Store) → AnswersFor self.old S
            → DiffersAt changed.now S (get store.now.nodes)
            → IfOk result.1 (λ valid. valid ≡ has_value self.old.root (get store.now.nodes)) }
        ensures told { (S : Store) → AnswersFor self.old S
            → DiffersAt changed.now S (get store.now.nodes)
            → OnOk result.1 (AnswersFor self.new (get store.now.nodes)) }
        ensures root { self.new.root ≡ self.old.root }
        ensures skips { (S : Store) → AnswersFor self.old S
            → Spares self.old.root S changed.now → result.0 ≡ steps }
        ensures most { result.0 ≤ steps + evaluations self.old.root (get store.now.nodes) }
    {
        if let Some(valid) = self.kept(changed) {
            return (steps, Ok(valid));
        }
        self.found = None;
        match walk(alloc, &self.base.description, store, steps) {
            (steps, Ok(walked)) => {
                let valid = walked.valid;
                self.found = Some(walked);
                (steps, Ok(valid))
            }
            (steps, Err(NoMemory)) => (steps, Err(NoMemory)),
        }
    }

    /// The answer that was found, where none of these paths was consulted for it.
    fn kept(&self, changed: &Paths) -> Option<bool>
        ensures { (S : Store) → AnswersFor self.now S → MatchOption result
            (Spares self.now.root S changed.now → ⊥)
            (λ valid. Spares self.now.root S changed.now × (valid ≡ has_value self.now.root S)) }
    {
        match &self.found {
            Some(found) => are_unread(&found.reads, changed).then_some(found.valid),
            None => None,
        }
    }
}
