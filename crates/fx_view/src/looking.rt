//! One look at a path, with own changes on top.
ghost use Rattle.std.specs.Prelude.{◌≡◌, IfOk, IfErr};
ghost use Rattle.fx_store.specs.Rule as rule;
ghost use Rattle.fx_view.specs.Follows.{Consults};
ghost use Rattle.fx_view.specs.Own.{own_at};
ghost use Rattle.fx_view.specs.declared.reader.Stop.TheVariants.{NoMemory as OutOfMemory};

use crate::overlay::Overlay;
use crate::reader::{Reader, Stop};
use fx_store::{Node, Path};
use std::alloc::Global;

/// What stands at a path: the own change there, or else what the reader reads. The reader reads the path in both cases.
pub fn look<R: Reader>(
    alloc: Global,
    reader: &mut R,
    overlay: &Overlay,
    path: &Path,
) -> Result<Option<Node>, Stop>
    ensures follows { Consults R.meaning (λ n. n) (own_at overlay.now) reader.old reader.new
        (rule.look path.now) result }
{
    let node = reader.read(alloc, path)?;
    match overlay.get(path) {
        None => Ok(node),
        Some(own) => {
            let_go(node);
            copied(own)
        }
    }
}

fn copied(node: &Option<Node>) -> Result<Option<Node>, Stop>
    ensures copied { IfOk result (λ n. n ≡ node.now) }
    ensures refused { IfErr result (λ stop. stop ≡ OutOfMemory) }
{
    Ok(node.clone()?)
}

fn let_go(_: Option<Node>) {}
