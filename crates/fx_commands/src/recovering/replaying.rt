//! The stage that replays the order.
ghost use Rattle.std.specs.Prelude.{◌≡◌, IfOk, length};
ghost use Rattle.fx_spec.specs.Bases.{base_tree};
ghost use Rattle.fx_spec.specs.Order.{IsLegal, state};
ghost use Rattle.fx_durable.specs.Journal.{turns_of};
ghost use Rattle.fx_commands.specs.Recoveries.Recovered.{recovered_line};

use fx_audit::replay;
use fx_base::NoMemory;
use fx_durable::Pairs;
use fx_spec::Base;
use fx_store::Filestore;
use std::alloc::Global;
use std::sync::Arc;

/// The filestore after an order, and the line that tells its length.
pub(crate) struct Recovered {
    pub store: Filestore,
    pub line: Vec<u8>,
}

impl Recovered {
    /// Lets go of both.
    pub(crate) fn let_go(self) {
        let Recovered { store, line: _ } = self;
        store.let_go();
    }
}

/// The line that tells how many transactions there are.
fn line_of(alloc: Global, count: u64) -> Result<Vec<u8>, NoMemory>
    ensures { IfOk result (λ line. line.items ≡ recovered_line count) }
{
    let digits = count.to_string(alloc)?;
    let mut line = Vec::new(alloc);
    line.extend_from_slice(b"recovered ")?;
    line.extend_from_slice(digits.as_bytes())?;
    line.extend_from_slice(b"\n")?;
    Ok(line)
}

/// Runs the transactions of a legal order whole, one after another, on the loaded filestore.
pub(crate) fn replayed(
    alloc: Global,
    base: &Arc<Base>,
    order: &Pairs,
) -> Result<Recovered, NoMemory>
    requires { IsLegal (base_tree base.now.value) (turns_of order.now) }
    ensures last { IfOk result (λ r. r.store.nodes
        ≡ state (base_tree base.now.value) (turns_of order.now) (length (turns_of order.now))) }
    ensures line { IfOk result (λ r. r.line.items ≡ recovered_line (length (turns_of order.now))) }
{
    let line = line_of(alloc, order.len() as u64)?;
    let store = replay(alloc, base, order)?;
    Ok(Recovered { store, line })
}
