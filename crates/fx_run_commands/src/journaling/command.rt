//! The command `journal`, stage by stage. It leaves its log where it is, as `run` does.
ghost use Rattle.std.specs.Prelude.{◌≡◌, true, IfOk, IfErr, OnOk, OnErr, IfSome};
ghost use Rattle.fx_outside.specs.Host.{WritesIn};
ghost use Rattle.fx_folder.specs.Folder.{IsReady};
ghost use Rattle.fx_spec.specs.Bases.{base_tree};
ghost use Rattle.fx_board.specs.Board.{last_state};
ghost use Rattle.fx_words.specs.Job.{shells_of};
ghost use Rattle.fx_words.specs.JobOf.{asked, asked_journal, IsJob, IsJournalJob};
ghost use Rattle.fx_command.specs.Saved.{SaveEnd};
ghost use Rattle.fx_command.specs.StatusOf.{status_of};
ghost use Rattle.fx_inputs.specs.Inputs.{HasBase, HasEachScript};
ghost use Rattle.fx_durable.specs.Disk.{Continues, StaysUnstarted, ChoosesTold, ChoosesFirst, TellsLength};
ghost use Rattle.fx_journaling.specs.Recorded.{IsStarted, EndsRecorded};
ghost use Rattle.fx_run_commands.specs.Journals.Rows.{JournalEnd, JournalRow, JournalAsks, KeepsJournal};
ghost use Rattle.fx_run_commands.specs.Journals.Stages.{MayLeaveGate, StartCause, RecordCause, run_report};

use fx_command::{Status, ready_out, save_and_print};
use fx_durable::{Disk, Journal, StartFault};
use fx_folder::Out;
use fx_inputs::read_base;
use fx_journaling::{RecordFault, Recorded, record};
use fx_outside::{Host, HostText, Sink};
use fx_report::report;
use fx_spec::Base;
use fx_words::{JournalJob, RunJob};
use std::alloc::Global;
use std::mem;
use std::sync::Arc;
use std::thread::Threads;

/// Starts the journal on an empty file.
fn start<D: Disk>(path: &HostText, disk: &mut D) -> Result<Journal, Status>
    ensures started { IfOk result (λ journal. IsStarted journal (D.view disk.new)) }
    ensures empty { IfOk result (λ _. TellsLength (D.view disk.old) path.now 0) }
    ensures gate { IfOk result (λ _. MayLeaveGate (D.view disk.new)) }
    ensures goes_on { Continues (D.view disk.old) (D.view disk.new) }
    ensures calm { OnOk result ((D.view disk.new).faults ≡ (D.view disk.old).faults) }
    ensures others { ChoosesTold path.now (D.view disk.old) (D.view disk.new) }
    ensures early { (D.view disk.new).choice.early ≡ (D.view disk.old).choice.early }
    ensures chosen { OnOk result ((D.view disk.new).choice.chosen ≡ true) }
    ensures cause { IfErr result (StartCause path.now (D.view disk.old) (D.view disk.new)) }
    ensures unstarted { OnErr result
        (StaysUnstarted path.now (D.view disk.old).told (D.view disk.new).told) }
{
    match Journal::start(disk, path) {
        Ok(journal) => Ok(journal),
        Err(StartFault::NotEmpty) => Err(Status::NotEmpty),
        Err(StartFault::Failed) => Err(Status::WriteFault),
    }
}

/// Runs the scripts by the job's schedule, over a journal that was just started.
fn run_on<D: Disk, S: Sink>(
    alloc: Global,
    job: &RunJob,
    base: Arc<Base>,
    journal: Journal,
    disk: &mut D,
    out: &mut S,
) -> Result<Recorded, Status>
    requires job { IsJob job.now }
    requires count { HasEachScript (asked job.now).inputs (base_tree base.value) }
    requires started { IsStarted journal (D.view disk.old) }
    ensures done { IfOk result (EndsRecorded (base_tree base.value) (shells_of (asked job.now))
        (D.view disk.old) (D.view disk.new) (S.view out.old) (S.view out.new)) }
    ensures broken { IfErr result (RecordCause (base_tree base.value) (shells_of (asked job.now))
        (D.view disk.old) (D.view disk.new) (S.view out.old) (S.view out.new)) }
{
    let schedule = match job.shells(alloc) {
        Ok(schedule) => schedule,
        Err(_) => {
            Base::let_go(base);
            return Err(Status::NoMemory);
        }
    };
    match record(alloc, base, &schedule, journal, disk, out) {
        Ok(recorded) => Ok(recorded),
        Err(RecordFault::NoMemory) => Err(Status::NoMemory),
        Err(RecordFault::DiskFailed | RecordFault::SinkFailed) => Err(Status::WriteFault),
    }
}

/// Makes the report, saves the last filestore, and then prints the report.
fn finish<H: Host, S: Sink>(
    alloc: Global,
    out_path: &HostText,
    there: Out,
    recorded: &Recorded,
    host: &mut H,
    out: &mut S,
) -> Result<(), Status>
    requires { IfSome (H.view host.old).told (λ t. IsReady t out_path.now there) }
    ensures end { SaveEnd out_path.now there (last_state recorded.now.board)
        (run_report recorded.now)
        (H.view host.old) (H.view host.new) (S.view out.old) (S.view out.new) (status_of result) }
    ensures fit { WritesIn out_path.now (H.view host.old) (H.view host.new) }
{
    let report = report(alloc, &recorded.board, &recorded.retries)?;
    let store = recorded.board.store();
    save_and_print(alloc, out_path, there, store, report.as_slice(), host, out)
}

/// Starts the journal, runs the scripts over it, and leaves the folder that they make.
fn keep<H: Host, S: Sink, D: Disk>(
    alloc: Global,
    job: &JournalJob,
    base: Arc<Base>,
    there: Out,
    host: &mut H,
    out: &mut S,
    disk: &mut D,
) -> Result<(), Status>
    requires job { IsJournalJob job.now }
    requires begins { IfSome (H.view host.old).told (λ t.
        HasBase t (asked job.now.run).inputs (base_tree base.value)) }
    requires count { HasEachScript (asked job.now.run).inputs (base_tree base.value) }
    requires free { IfSome (H.view host.old).told (λ t. IsReady t (asked job.now.run).out there) }
    ensures end { JournalEnd (asked_journal job.now) (H.view host.old) (H.view host.new)
        (S.view out.old) (S.view out.new) (D.view disk.old) (D.view disk.new) (status_of result) }
    ensures chooses { ChoosesFirst job.now.journal.now (D.view disk.old) (D.view disk.new) }
    ensures keeps { KeepsJournal (asked_journal job.now) (H.view host.old)
        (S.view out.old) (S.view out.new) (D.view disk.old) (D.view disk.new) }
    ensures fit { WritesIn job.now.run.out.now (H.view host.old) (H.view host.new) }
{
    let _whole = base.loaded.places();
    let journal = match start(job.journal, disk) {
        Ok(journal) => journal,
        Err(status) => {
            Base::let_go(base);
            return Err(status);
        }
    };
    let recorded = run_on(alloc, &job.run, base, journal, disk, out)?;
    let ended = finish(alloc, job.run.out, there, &recorded, host, out);
    let Recorded { board, retries } = recorded;
    mem::forget(board);
    mem::forget(retries);
    ended
}

/// Runs the scripts on the folder by a schedule, keeps each commit in the journal before its line is written, and leaves the
/// folder that they make at OUT.
pub fn journal<R: Threads, H: Host, S: Sink, D: Disk>(
    rt: &R,
    alloc: Global,
    job: &JournalJob,
    host: &mut H,
    out: &mut S,
    disk: &mut D,
) -> Result<(), Status>
    requires { IsJournalJob job.now }
    ensures row { JournalRow (asked_journal job.now) (H.view host.old) (H.view host.new)
        (S.view out.old) (S.view out.new) (D.view disk.old) (D.view disk.new) (status_of result) }
    ensures keeps { KeepsJournal (asked_journal job.now) (H.view host.old)
        (S.view out.old) (S.view out.new) (D.view disk.old) (D.view disk.new) }
    ensures fit { JournalAsks (asked_journal job.now) (H.view host.old) (H.view host.new) }
{
    let base = read_base(rt, alloc, &job.run.inputs, host)?;
    let there = match ready_out(alloc, job.run.out, host) {
        Ok(there) => there,
        Err(status) => {
            Base::let_go(base);
            return Err(status);
        }
    };
    keep(alloc, job, base, there, host, out, disk)
}
