//! A reader of a whole filestore.
ghost use Rattle.std.specs.Prelude.{◌≡◌, [], true, IfOk, refl};
ghost use Rattle.std.specs.FinMap.{get};
ghost use Rattle.fx_view.specs.Wholes.{AreOf, AreOf-prop};

use crate::reader::{Reader, Stop};
use crate::reads::Reads;
use fx_base::NoMemory;
use fx_store::{Filestore, Node, Path};
use std::alloc::Global;

/// A reader that reads every path of a filestore, each at position 0.
///
/// It vouches that the filestore is the one from the start, and that its reads agree with it, each at position 0.
#[derive(Drop)]
pub struct Whole<'a> {
    store: &'a Filestore,
    reads: Reads,
    ghost of_store: { AreOf (get store.now.nodes) reads } by { AreOf-prop (get store.now.nodes) reads },
}

impl<'a> Whole<'a> {
    /// Nothing read yet.
    pub fn new(alloc: Global, store: &'a Filestore) -> Whole<'a>
        ensures store { result.store.now ≡ store.now }
        ensures reads { result.reads ≡ [] }
    {
        let _places = store.places();
        Whole {
            store,
            reads: Reads::new(alloc),
        }
    }
}

impl Reader for Whole<'_> {
    ghost meaning = { record {
      reads = λ w. w.reads;
      complete = λ _. true;
      vouches = λ start now reads. (now.store.now ≡ start.store.now)
          × AreOf (get start.store.now.nodes) reads;
    } };

    fn read(&mut self, alloc: Global, path: &Path) -> Result<Option<Node>, Stop> {
        if let Some((node, _)) = self.reads.get(path) {
            return Ok(node.clone()?);
        }
        let node = node_at(alloc, self.store, path)?;
        let copy = path.copy(alloc)?;
        self.reads.add(alloc, copy, node.clone()?, 0)?;
        Ok(node)
    }

    fn reads(&self) -> &Reads {
        &self.reads
    }

    fn take_reads(&mut self, alloc: Global) -> Reads {
        self.reads.take(alloc)
    }

    ghost begins = { λ reader. (refl, reader.of_store) };
}

/// A copy of what stands at a path.
fn node_at(alloc: Global, store: &Filestore, path: &Path) -> Result<Option<Node>, NoMemory>
    ensures { IfOk result (λ node. node ≡ get store.now.nodes path.now) }
{
    match store.get(path) {
        Some(node) => Ok(Some(node.copy(alloc)?)),
        None => Ok(None),
    }
}
