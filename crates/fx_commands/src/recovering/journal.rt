//! The stage that reads the journal.
ghost use Rattle.std.specs.Prelude.{◌≡◌, IfOk, IfErr, OnOk};
ghost use Rattle.fx_spec.specs.Bases.{base_tree};
ghost use Rattle.fx_spec.specs.Order.{IsLegal};
ghost use Rattle.fx_durable.specs.Disk.{IsAsTold, ChoosesTold};
ghost use Rattle.fx_durable.specs.Journal.{turns_of, Spells};
ghost use Rattle.fx_commands.specs.Recoveries.Recovered.{HasImage};
ghost use Rattle.fx_commands.specs.Recoveries.Rows.{StaysCalm};
ghost use Rattle.fx_commands.specs.Recoveries.Unread.{journal_status, OrderCause};

use crate::recovering::order::first_illegal;
use fx_command::Status;
use fx_durable::{Disk, JournalFault, Pairs, read_journal};
use fx_outside::HostText;
use fx_spec::Base;
use std::alloc::Global;

/// How the command ends where no order was read.
fn unread(fault: JournalFault) -> Status
    ensures { result ≡ journal_status fault }
{
    match fault {
        JournalFault::Broken(place) => Status::BadJournal { place },
        JournalFault::Failed => Status::ReadFault,
        JournalFault::NoMemory => Status::NoMemory,
    }
}

/// The order that the journal at a path spells, which has to be legal.
pub(crate) fn read_order<D: Disk>(
    alloc: Global,
    path: &HostText,
    base: &Base,
    disk: &mut D,
) -> Result<Pairs, Status>
    ensures read { IfOk result (λ order.
        HasImage path.now (D.view disk.old) (Spells (turns_of order))) }
    ensures legal { IfOk result (λ order. IsLegal (base_tree base.now) (turns_of order)) }
    ensures same { IsAsTold (D.view disk.old) (D.view disk.new) }
    ensures others { ChoosesTold path.now (D.view disk.old) (D.view disk.new) }
    ensures early { (D.view disk.new).choice.early ≡ (D.view disk.old).choice.early }
    ensures calm { OnOk result ((D.view disk.new).faults ≡ (D.view disk.old).faults) }
    ensures calm_err { IfErr result (StaysCalm (D.view disk.old) (D.view disk.new)) }
    ensures cause { IfErr result
        (OrderCause path.now (base_tree base.now) (D.view disk.old) (D.view disk.new)) }
{
    let order = match read_journal(alloc, disk, path) {
        Ok(order) => order,
        Err(fault) => return Err(unread(fault)),
    };
    match first_illegal(alloc, base, &order)? {
        None => Ok(order),
        Some(place) => Err(Status::BadJournal { place }),
    }
}
