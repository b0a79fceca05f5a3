//! The top call.
ghost use Rattle.std.specs.Prelude.{◌≡◌, ◌⊎◌, false, None, IfSome};
ghost use Rattle.fx_words.specs.Job.{job_of};
ghost use Rattle.fx_words.specs.JobOf.{asked_job, IsAnyJob};
ghost use Rattle.fx_top.specs.Rows.{Row, LeavesDisk, KeepsWrittenOrder, AsksInside, Completes};
ghost use Rattle.fx_top.specs.Waits.{may_wait};
ghost use Rattle.fx_command.specs.Left.{IsUnasked};
ghost use Rattle.fx_command.specs.StatusOf.{status_of};

use fx_command::Status;
use fx_commands::{audit, recover, show};
use fx_durable::Disk;
use fx_large_commands::{run_generated, write_generated};
use fx_outside::{Gate, Host, Sink, Words};
use fx_run_commands::{journal, run, trace};
use fx_views_command::views;
use fx_words::{Job, RunMode, WordsFault, job_of};
use std::alloc::Global;
use std::sync::Wait;
use std::thread::Threads;

/// Does what a command asks for whose transactions run on one thread. It returns.
fn still<R: Threads, H: Host, S: Sink, D: Disk>(
    rt: &R,
    alloc: Global,
    job: &Job,
    host: &mut H,
    out: &mut S,
    disk: &mut D,
) -> Result<(), Status>
    requires job { IsAnyJob job.now }
    requires still { may_wait (asked_job job.now) ≡ false }
    ensures row { Row (asked_job job.now) (H.view host.old) (H.view host.new)
        (S.view out.old) (S.view out.new) (D.view disk.old) (D.view disk.new) (status_of result) }
    ensures fit { AsksInside (asked_job job.now) (H.view host.old) (H.view host.new) }
    ensures disk { LeavesDisk (asked_job job.now) (D.view disk.old) (D.view disk.new) }
    ensures kept { KeepsWrittenOrder (asked_job job.now) (H.view host.old)
        (S.view out.old) (S.view out.new) (D.view disk.old) (D.view disk.new) }
{
    match job {
        Job::Run(job) => trace(rt, alloc, job, host, out),
        Job::Show(job) => show(alloc, job, host, out),
        Job::Gen(job) => write_generated(alloc, job.number, job.out, host, out),
        Job::Audit(job) => audit(rt, alloc, job, host, out),
        Job::Journal(job) => journal(rt, alloc, job, host, out, disk),
        Job::Recover(job) => recover(rt, alloc, job, host, out, disk),
        Job::Large(_) => unreachable!(),
        Job::Views(_) => unreachable!(),
    }
}

/// Does what a command asks for.
fn run_job<R: Threads + Wait + Sync, H: Host, S: Sink, G: Gate + Sync, D: Disk>(
    rt: &R,
    alloc: Global,
    job: &Job,
    host: &mut H,
    out: &mut S,
    gate: &G,
    disk: &mut D,
) -> Result<(), Status>
    requires { IsAnyJob job.now }
    ensures row { Row (asked_job job.now) (H.view host.old) (H.view host.new)
        (S.view out.old) (S.view out.new) (D.view disk.old) (D.view disk.new) (status_of result) }
    ensures fit { AsksInside (asked_job job.now) (H.view host.old) (H.view host.new) }
    ensures disk { LeavesDisk (asked_job job.now) (D.view disk.old) (D.view disk.new) }
    ensures kept { KeepsWrittenOrder (asked_job job.now) (H.view host.old)
        (S.view out.old) (S.view out.new) (D.view disk.old) (D.view disk.new) }
{
    match job {
        Job::Run(run_as) => match run_as.mode {
            RunMode::Plain => run(rt, alloc, run_as, host, out, gate),
            RunMode::Scheduled(_) | RunMode::Watched(_) => still(rt, alloc, job, host, out, disk),
        },
        Job::Large(job) => run_generated(rt, alloc, job.number, job.out, host, out, gate),
        Job::Views(job) => views(rt, alloc, job, host, out, gate),
        Job::Show(_) | Job::Gen(_) | Job::Audit(_) | Job::Journal(_) | Job::Recover(_) => {
            still(rt, alloc, job, host, out, disk)
        }
    }
}

/// The status of a command's end.
fn status_of(ended: Result<(), Status>) -> Status
    ensures { result ≡ status_of ended }
{
    match ended {
        Ok(()) => Status::Done,
        Err(status) => status,
    }
}

/// Does what the words of the command line ask for, and answers how it ended. What is read stands in the host, the output
/// goes to the sink, and a journal is kept on the disk. Each thread of a run passes the gate before each look, before each
/// settle, and once it has settled.
pub fn top<R: Threads + Wait + Sync, H: Host, S: Sink, G: Gate + Sync, D: Disk>(
    rt: &R,
    alloc: Global,
    words: &Words,
    host: &mut H,
    out: &mut S,
    gate: &G,
    disk: &mut D,
) -> Status
    // The words have no command's form, as far as memory serves to read them.
    ensures usage { result ≡ Status.Usage → job_of words.now ≡ None }
    ensures refused { job_of words.now ≡ None
        → (result ≡ Status.Usage) ⊎ (result ≡ Status.NoMemory) }
    ensures idle { job_of words.now ≡ None
        → IsUnasked (H.view host.old) (H.view host.new) (S.view out.old) (S.view out.new) }
    ensures unasked { job_of words.now ≡ None → D.view disk.new ≡ D.view disk.old }

    // Every other status has its cause, and says what is left at the host, the sink and the disk.
    ensures rows { IfSome (job_of words.now) (λ j.
        Row j (H.view host.old) (H.view host.new) (S.view out.old) (S.view out.new)
        (D.view disk.old) (D.view disk.new) result) }

    // Where the host's fences let through the texts of the words, FOLDER and OUT, no call is outside of them, whatever the
    // host tells.
    ensures fit { IfSome (job_of words.now) (λ j.
        AsksInside j (H.view host.old) (H.view host.new)) }

    // A command that neither keeps nor reads a journal leaves the disk as it was.
    ensures disk { IfSome (job_of words.now) (λ j.
        LeavesDisk j (D.view disk.old) (D.view disk.new)) }

    // A command that keeps a journal leaves on the disk the order of what it wrote, however it ends.
    ensures kept { IfSome (job_of words.now) (λ j.
        KeepsWrittenOrder j (H.view host.old) (S.view out.old) (S.view out.new)
        (D.view disk.old) (D.view disk.new)) }

    // With fit inputs and no fault of the host, the sink or the disk all is done, or memory runs out.
    ensures complete { IfSome (job_of words.now) (λ j.
        Completes j (H.view host.old) (H.view host.new) (S.view out.old) (S.view out.new)
        (D.view disk.old) (D.view disk.new) result) }
{
    match job_of(alloc, words) {
        Ok(job) => status_of(run_job(rt, alloc, &job, host, out, gate, disk)),
        Err(WordsFault::Usage) => Status::Usage,
        Err(WordsFault::NoMemory) => Status::NoMemory,
    }
}
