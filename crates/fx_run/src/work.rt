//! Where a transaction stands between two commands.
ghost use Rattle.std.specs.Prelude.{◌≡◌, []};
ghost use Rattle.fx_store.specs.Rule.{Known};
ghost use Rattle.fx_view.specs.ReadList.{ReadList};
ghost use Rattle.fx_zip.specs.Fresh.{IsFresh};

use crate::walk::Walk;
use fx_expr::{Env, Values};
use fx_session::Session;
use fx_spec::Base;
use fx_view::Reader;
use std::sync::Arc;
use std::sync::ledger::Ledger;

/// Where a transaction stands between two commands: its place with its own changes, its variables, and what it has printed.
#[derive(Drop)]
pub(crate) struct Work<'a, R: Reader, L: Ledger> {
    pub(crate) walk: Walk<'a, R, L>,
    pub(crate) variables: Env,
    pub(crate) outputs: Values,
}

impl<'a, R: Reader, L: Ledger> Work<'a, R, L> {
    /// At the root description, with nothing bound or printed.
    pub(crate) fn new(base: Arc<Base>, session: Session<'a, R, L>) -> Work<'a, R, L>
        ensures root { result.walk.zip.root ≡ base.value.description }
        ensures address { result.walk.zip.address ≡ [] }
        ensures session { result.walk.session ≡ session.entry }
        ensures variables { result.variables ≡ [] }
        ensures outputs { result.outputs ≡ [] }
        ensures fresh { (reads : ReadList) (own : Known) → IsFresh reads own result.walk.zip }
    {
        let alloc = session.alloc;
        Work {
            walk: Walk::new(base, session),
            variables: Env::new(alloc),
            outputs: Values::new(alloc),
        }
    }
}
