//! One walk over a whole filestore.
ghost use Rattle.std.specs.Prelude.{◌≡◌, ◌≤◌, ◌+◌, [], IfOk, not, is_some};
ghost use Rattle.std.specs.List.{list_all};
ghost use Rattle.std.specs.FinMap.{get};
ghost use Rattle.fx_spec.specs.Shaped.{IsDescribedPlace};
ghost use Rattle.fx_view.specs.Reads.{read_at};
ghost use Rattle.fx_session.specs.Places.{place_tree};
ghost use Rattle.fx_walk.specs.Places.{value_at};
ghost use Rattle.fx_watch.specs.Validity.{IsFound, IsWalked, evaluations};
ghost use Rattle.fx_store.specs.Rule.{ticks};

use fx_base::{NoMemory, Steps};
use fx_expr::Env;
use fx_session::Session;
use fx_spec::{Checked, Place};
use fx_store::{Filestore, Path, Paths};
use fx_view::{Overlay, Reader, Reads, Stop, Whole};
use fx_walk::validate;
use std::alloc::Global;
use std::sync::ledger::Ledger;

/// What a walk has found: the paths that it consulted, and whether there is a value.
#[derive(Drop)]
pub(crate) struct Walked {
    pub reads: Reads,
    pub valid: bool,
}

/// Whether there is a value at a place of a filestore of which nothing is read yet, and where nothing is changed.
fn valid_at<L: Ledger>(session: &mut Session<'_, Whole, L>, place: &Place) -> Result<bool, NoMemory>
    requires described { IsDescribedPlace (place_tree place.now) }
    requires unread { session.old.reader.now.reads ≡ [] }
    requires unchanged { session.old.own ≡ [] }
    ensures walked { IfOk result (IsWalked (get session.old.reader.now.store.now.nodes)
        (value_at (place_tree place.now)) session.new.reader.now.reads) }
    ensures most { session.new.steps ≤ session.old.steps
        + ticks (get session.old.reader.now.store.now.nodes) (value_at (place_tree place.now)) }
    ensures lent { session.new.reader.ghost_name ≡ session.old.reader.ghost_name }
{
    match validate(session, place) {
        Ok(valid) => Ok(valid),
        Err(Stop::NoMemory) => Err(NoMemory),
        Err(Stop::Needs(_)) => unreachable!(),
    }
}

/// Walks over a filestore from the root, and gives the counter back.
pub(crate) fn walk<L: Ledger>(
    alloc: Global,
    spec: &Checked,
    store: &Filestore,
    steps: Steps<L>,
) -> (Steps<L>, Result<Walked, NoMemory>)
    ensures found { IfOk result.1 (λ w. IsFound spec.now (get store.now.nodes) w.reads w.valid) }
    ensures most { result.0 ≤ steps + evaluations spec.now (get store.now.nodes) }
{
    let mut reader = Whole::new(alloc, store);
    let path = Path::root(alloc);
    let env = Env::new(alloc);
    let root = spec.root();
    let place = Place {
        path: &path,
        env: &env,
        spec: root.spec,
        defs: root.defs,
        level: root.level,
    };
    let mut session = Session {
        alloc,
        reader: &mut reader,
        own: Overlay::new(alloc),
        steps,
    };
    let valid = valid_at(&mut session, &place);
    let Session {
        reader: whole,
        own,
        steps,
        ..
    } = session;
    let reads = whole.take_reads(alloc);
    drop(own);
    match valid {
        Ok(valid) => (steps, Ok(Walked { reads, valid })),
        Err(NoMemory) => (steps, Err(NoMemory)),
    }
}

/// Whether none of the paths was read.
pub(crate) fn are_unread(reads: &Reads, paths: &Paths) -> bool
    ensures { result ≡ list_all (λ path. not (is_some (read_at reads.now path))) paths.now }
{
    paths.iter().all(|path| reads.get(path).is_none())
}
