//! Where a transaction walks.
ghost use Rattle.std.specs.Prelude.{◌≡◌, []};
ghost use Rattle.fx_store.specs.Rule.{Known};
ghost use Rattle.fx_view.specs.ReadList.{ReadList};
ghost use Rattle.fx_zip.specs.Fresh.{IsFresh};

use fx_session::Session;
use fx_spec::Base;
use fx_view::Reader;
use fx_zip::Zip;
use std::sync::Arc;
use std::sync::ledger::Ledger;

/// Where a transaction walks: its zipper, and what it reads through, with its own changes.
#[derive(Drop)]
pub(crate) struct Walk<'a, R: Reader, L: Ledger> {
    pub(crate) zip: Zip,
    pub(crate) session: Session<'a, R, L>,
}

impl<'a, R: Reader, L: Ledger> Walk<'a, R, L> {
    /// At the root description.
    pub(crate) fn new(base: Arc<Base>, session: Session<'a, R, L>) -> Walk<'a, R, L>
        ensures root { result.zip.root ≡ base.value.description }
        ensures address { result.zip.address ≡ [] }
        ensures session { result.session ≡ session.entry }
        ensures fresh { (reads : ReadList) (own : Known) → IsFresh reads own result.zip }
    {
        Walk {
            zip: Zip::new(session.alloc, base),
            session,
        }
    }
}
