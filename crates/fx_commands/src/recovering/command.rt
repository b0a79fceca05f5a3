//! The command `recover`.
ghost use Rattle.std.specs.Prelude.{IfSome};
ghost use Rattle.fx_command.specs.Out.{WritesOut};
ghost use Rattle.fx_spec.specs.Bases.{base_tree};
ghost use Rattle.fx_spec.specs.Order.{IsLegal};
ghost use Rattle.fx_words.specs.JobOf.{asked_recover, AreInputs};
ghost use Rattle.fx_command.specs.StatusOf.{status_of};
ghost use Rattle.fx_durable.specs.Journal.{turns_of};
ghost use Rattle.fx_inputs.specs.Inputs.{HasBase, IsOnlyBase};
ghost use Rattle.fx_commands.specs.Recoveries.Rows.{RecoverRow, RecoverAsks};
ghost use Rattle.fx_commands.specs.Recoveries.Stages.{LeaveEnd};

use crate::recovering::journal::read_order;
use crate::recovering::replaying::replayed;
use fx_command::{Status, ready_out, save_and_print};
use fx_durable::{Disk, Pairs};
use fx_inputs::read_base;
use fx_outside::{Host, Sink};
use fx_spec::Base;
use fx_words::RecoverJob;
use std::alloc::Global;
use std::sync::Arc;
use std::thread::Threads;

/// Leaves the folder after a legal order at OUT, and prints how many transactions it has.
fn leave<H: Host, S: Sink>(
    alloc: Global,
    job: &RecoverJob,
    base: &Arc<Base>,
    order: &Pairs,
    host: &mut H,
    out: &mut S,
) -> Result<(), Status>
    requires { IsLegal (base_tree base.now.value) (turns_of order.now) }
    ensures end { LeaveEnd (asked_recover job.now) (base_tree base.now.value) (turns_of order.now)
        (H.view host.old) (H.view host.new) (S.view out.old) (S.view out.new) (status_of result) }
    ensures fit { WritesOut (asked_recover job.now).out (H.view host.old) (H.view host.new) }
{
    let there = ready_out(alloc, job.out, host)?;
    let recovered = replayed(alloc, base, order)?;
    let ended = save_and_print(
        alloc,
        job.out,
        there,
        &recovered.store,
        &recovered.line,
        host,
        out,
    );
    recovered.let_go();
    ended
}

/// Reads the journal by the base that is read, and leaves the folder after its order at OUT.
fn restore<H: Host, S: Sink, D: Disk>(
    alloc: Global,
    job: &RecoverJob,
    base: &Arc<Base>,
    host: &mut H,
    out: &mut S,
    disk: &mut D,
) -> Result<(), Status>
    requires begins { IfSome (H.view host.old).told (λ t.
        HasBase t (asked_recover job.now).inputs (base_tree base.now.value)) }
    requires only { IfSome (H.view host.old).told (λ t.
        IsOnlyBase t (asked_recover job.now).inputs (base_tree base.now.value)) }
    ensures row { RecoverRow (asked_recover job.now) (H.view host.old) (H.view host.new)
        (S.view out.old) (S.view out.new) (D.view disk.old) (D.view disk.new) (status_of result) }
    ensures fit { WritesOut (asked_recover job.now).out (H.view host.old) (H.view host.new) }
{
    let order = read_order(alloc, job.journal, base, disk)?;
    leave(alloc, job, base, &order, host, out)
}

/// Leaves at OUT the folder after the commits that the journal keeps, and prints how many they are. A journal that breaks, or
/// that spells an order which is not legal, is refused with the number of its first such record.
pub fn recover<R: Threads, H: Host, S: Sink, D: Disk>(
    rt: &R,
    alloc: Global,
    job: &RecoverJob,
    host: &mut H,
    out: &mut S,
    disk: &mut D,
) -> Result<(), Status>
    requires { AreInputs job.now.inputs }
    ensures row { RecoverRow (asked_recover job.now) (H.view host.old) (H.view host.new)
        (S.view out.old) (S.view out.new) (D.view disk.old) (D.view disk.new) (status_of result) }
    ensures fit { RecoverAsks (asked_recover job.now) (H.view host.old) (H.view host.new) }
{
    let base = read_base(rt, alloc, &job.inputs, host)?;
    let ended = restore(alloc, job, &base, host, out, disk);
    Base::let_go(base);
    ended
}
