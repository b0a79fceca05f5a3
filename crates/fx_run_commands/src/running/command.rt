//! The command `run`, which runs its scripts on threads, and `trace`, which runs them by a schedule, and as `watch` tells
//! besides whether the tree has a value.
//!
//! Each leaves its log where it is: a command ends the process, whose memory then goes back all at once. To let go of each part
//! of a long log takes a sixth of the run.
ghost use Rattle.std.specs.Prelude.{◌≡◌, IfOk, IfErr, IfSome};
ghost use Rattle.fx_outside.specs.Host.{ReadsOnly};
ghost use Rattle.fx_folder.specs.Folder.{IsReady};
ghost use Rattle.fx_spec.specs.Bases.{base_tree};
ghost use Rattle.fx_inputs.specs.Inputs.{HasBase, HasEachScript};
ghost use Rattle.fx_words.specs.Job.{Plain};
ghost use Rattle.fx_words.specs.JobOf.{asked, IsJob};
ghost use Rattle.fx_command.specs.StatusOf.{status_of};
ghost use Rattle.fx_command.specs.Table.{IsComing, CommandEndsAs};
ghost use Rattle.fx_run_commands.specs.Runs.Answers.{last_of};
ghost use Rattle.fx_run_commands.specs.Runs.Rows.{run_making, run_command, RunRow, RunAsks};

use crate::running::runs::{Answer, run_base, trace_base};
use fx_command::{Status, ready_out, save_and_print};
use fx_folder::Out;
use fx_inputs::read_base;
use fx_outside::{Gate, Host, Sink};
use fx_spec::Base;
use fx_words::RunJob;
use std::alloc::Global;
use std::sync::{Arc, Wait};
use std::thread::Threads;

/// Reads what a run begins with, and then sees that OUT can be written: that nothing stands there, or an empty folder.
fn begin<R: Threads, H: Host>(
    rt: &R,
    alloc: Global,
    job: &RunJob,
    host: &mut H,
) -> Result<(Arc<Base>, Out), Status>
    requires { IsJob job.now }
    ensures read { IfOk result (λ r. IfSome (H.view host.old).told
        (λ t. HasBase t (asked job.now).inputs (base_tree r.0.value))) }
    ensures count { IfOk result
        (λ r. HasEachScript (asked job.now).inputs (base_tree r.0.value)) }
    ensures ready { IfOk result (λ r.
        IfSome (H.view host.old).told (λ t. IsReady t (asked job.now).out r.1)) }
    ensures same { ReadsOnly (H.view host.old) (H.view host.new) }
    ensures fit { RunAsks (asked job.now) (H.view host.old) (H.view host.new) }
    ensures ends { IfErr result (CommandEndsAs (run_command (asked job.now))
        (H.view host.old) (H.view host.new)) }
{
    let base = read_base(rt, alloc, &job.inputs, host)?;
    match ready_out(alloc, job.out, host) {
        Ok(there) => Ok((base, there)),
        Err(status) => {
            Base::let_go(base);
            Err(status)
        }
    }
}

/// Saves the last filestore, and then prints the output.
fn leave<H: Host, S: Sink>(
    alloc: Global,
    job: &RunJob,
    there: Out,
    answer: &Answer,
    host: &mut H,
    out: &mut S,
) -> Result<(), Status>
    requires { IfSome (H.view host.old).told (λ t. IsComing (run_making (asked job.now)) t
        (last_of answer.now, answer.now.output) there) }
    ensures row { RunRow (asked job.now) (H.view host.old) (H.view host.new)
        (S.view out.old) (S.view out.new) (status_of result) }
    ensures fit { RunAsks (asked job.now) (H.view host.old) (H.view host.new) }
{
    let store = answer.board.store();
    let output = answer.output.as_slice();
    save_and_print(alloc, job.out, there, store, output, host, out)
}

/// Runs the scripts on the folder, by the description, each on a thread of its own, and leaves the folder that they make at
/// OUT.
pub fn run<R: Threads + Wait + Sync, H: Host, S: Sink, G: Gate + Sync>(
    rt: &R,
    alloc: Global,
    job: &RunJob,
    host: &mut H,
    out: &mut S,
    gate: &G,
) -> Result<(), Status>
    requires job { IsJob job.now }
    requires plain { (asked job.now).mode ≡ Plain }
    ensures row { RunRow (asked job.now) (H.view host.old) (H.view host.new)
        (S.view out.old) (S.view out.new) (status_of result) }
    ensures fit { RunAsks (asked job.now) (H.view host.old) (H.view host.new) }
{
    let (base, there) = begin(rt, alloc, job, host)?;
    let answer = run_base(rt, alloc, base, gate)?;
    let ended = leave(alloc, job, there, &answer, host, out);
    answer.leave();
    ended
}

/// Runs the scripts on the folder, by the description and the job's schedule, on one thread, and leaves the folder that they
/// make at OUT. Their texts may be looked at on others before.
pub fn trace<R: Threads, H: Host, S: Sink>(
    rt: &R,
    alloc: Global,
    job: &RunJob,
    host: &mut H,
    out: &mut S,
) -> Result<(), Status>
    requires job { IsJob job.now }
    requires scheduled { (asked job.now).mode ≡ Plain → ⊥ }
    ensures row { RunRow (asked job.now) (H.view host.old) (H.view host.new)
        (S.view out.old) (S.view out.new) (status_of result) }
    ensures fit { RunAsks (asked job.now) (H.view host.old) (H.view host.new) }
{
    let (base, there) = begin(rt, alloc, job, host)?;
    let answer = trace_base(alloc, job, base)?;
    let ended = leave(alloc, job, there, &answer, host, out);
    answer.leave();
    ended
}
