//! The log that keeps each state, as one that passes take by turns.
use crate::logged::{Logged, Versions};
use crate::shares::Shares;
use crate::versioned::Versioned;
use fx_base::NoMemory;
use fx_board::{Settle, Settled};
use fx_machine::Attempt;
use fx_spec::Base;
use fx_store::{Node, Path};
use std::alloc::Global;
use std::sync::Arc;

/// A shared log of which a pass can look at each state that it has seen.
pub type Snaps = Shares<Versioned>;

impl Logged for Versioned {
    ghost use Rattle.std.specs.Prelude.{refl};

    ghost log = { λ v. v };

    fn new(alloc: Global, base: Arc<Base>) -> Result<Versioned, NoMemory> {
        Versioned::new(alloc, base)
    }

    fn look(&self, alloc: Global, path: &Path) -> Result<(Option<Node>, u64), NoMemory> {
        Versioned::look(self, alloc, path)
    }

    fn settle_keeping_reads(&mut self, alloc: Global, attempt: Attempt) -> Result<Settled, Settle> {
        Versioned::settle_keeping_reads(self, alloc, attempt)
    }

    fn entries(&self) -> u64 {
        self.board().len()
    }

    ghost begun = { λ v. refl };

    ghost ordered = { λ v. refl };

    ghost numbered = { λ turn. refl };
}

impl Versions for Versioned {
    fn at(&self, alloc: Global, path: &Path, i: u64) -> Result<Option<Node>, NoMemory> {
        Versioned::at(self, alloc, path, i)
    }
}
