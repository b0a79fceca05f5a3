//! The command `views`, stage by stage. It leaves its log where it is, as `run` does.
ghost use Rattle.std.specs.Prelude.{IfSome};
ghost use Rattle.fx_words.specs.JobOf.{asked_views, IsViewsJob};
ghost use Rattle.fx_command.specs.StatusOf.{status_of};
ghost use Rattle.fx_command.specs.Table.{IsComing};
ghost use Rattle.fx_views_command.specs.Answers.{last_of_views};
ghost use Rattle.fx_views_command.specs.Rows.{views_making, ViewsRow, ViewsAsk};

use crate::viewing::{Answer, run_bases};
use fx_command::{Status, ready_out, save_and_print};
use fx_folder::Out;
use fx_inputs::read_bases;
use fx_outside::{Gate, Host, Sink};
use fx_words::ViewsJob;
use std::alloc::Global;
use std::sync::Wait;
use std::thread::Threads;

/// Saves the last filestore, and then prints the output.
fn leave<H: Host, S: Sink>(
    alloc: Global,
    job: &ViewsJob,
    there: Out,
    answer: &Answer,
    host: &mut H,
    out: &mut S,
) -> Result<(), Status>
    requires { IfSome (H.view host.old).told (λ t. IsComing (views_making (asked_views job.now)) t
        (last_of_views answer.now, answer.now.output) there) }
    ensures row { ViewsRow (asked_views job.now) (H.view host.old) (H.view host.new)
        (S.view out.old) (S.view out.new) (status_of result) }
    ensures fit { ViewsAsk (asked_views job.now) (H.view host.old) (H.view host.new) }
{
    let store = answer.log.board().store();
    let output = answer.output.as_slice();
    save_and_print(alloc, job.out, there, store, output, host, out)
}

/// Runs the scripts on the folder, by the description, while the views look on, and leaves the folder that the scripts make
/// at OUT. A view keeps nothing.
pub fn views<R: Threads + Wait + Sync, H: Host, S: Sink, G: Gate + Sync>(
    rt: &R,
    alloc: Global,
    job: &ViewsJob,
    host: &mut H,
    out: &mut S,
    gate: &G,
) -> Result<(), Status>
    requires { IsViewsJob job.now }
    ensures row { ViewsRow (asked_views job.now) (H.view host.old) (H.view host.new)
        (S.view out.old) (S.view out.new) (status_of result) }
    ensures fit { ViewsAsk (asked_views job.now) (H.view host.old) (H.view host.new) }
{
    let bases = read_bases(rt, alloc, job, host)?;
    let there = match ready_out(alloc, job.out, host) {
        Ok(there) => there,
        Err(status) => {
            bases.let_go();
            return Err(status);
        }
    };
    let answer = run_bases(rt, alloc, bases, gate)?;
    let ended = leave(alloc, job, there, &answer, host, out);
    answer.leave();
    ended
}
