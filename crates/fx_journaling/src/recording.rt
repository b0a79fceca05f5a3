//! Whole runs whose commits a journal keeps.
ghost use Rattle.std.specs.Prelude.{◌≡◌, ◌<◌, ◌≤◌, All, IfOk, IfErr, length};
ghost use Rattle.fx_spec.specs.Bases.{base_tree};
ghost use Rattle.fx_journaling.specs.Recorded.{IsStarted, EndsRecorded, HasBrokenOff, fault_in};
ghost use Rattle.fx_journaling.specs.Taken.{beginning};

use crate::fault::RecordFault;
use crate::recorder::{Origin, Recorder};
use fx_board::{Board, Retries};
use fx_durable::{Disk, Journal};
use fx_outside::Sink;
use fx_sched::{Ended, play};
use fx_spec::Base;
use std::alloc::Global;
use std::marker::{Brand, PhantomData};
use std::sync::Arc;

/// A run that has come to its end: its log, and the attempts that had to start again, by shell.
pub struct Recorded {
    pub board: Board,
    pub retries: Retries,
}

/// Why a run has ended.
fn fault_of(ended: Ended<RecordFault>) -> RecordFault
    ensures { result ≡ fault_in ended }
{
    match ended {
        Ended::NoMemory => RecordFault::NoMemory,
        Ended::Stopped(fault) => fault,
    }
}

/// The run, whose events the recorder takes from the moment on that contracts name.
fn play_with<K: Origin, D: Disk, S: Sink>(
    alloc: Global,
    base: Arc<Base>,
    schedule: &[u32],
    recorder: &mut Recorder<'_, '_, K, D, S>,
) -> Result<Recorded, RecordFault>
    requires shells { All (λ k. k < length base.value.plan) schedule.now }
    requires started { IsStarted recorder.old.journal (D.view recorder.old.disk.now) }
    requires origin { K.began ≡ beginning (base_tree base.value) (D.view recorder.old.disk.now)
        (S.view recorder.old.out.now) recorder.old.disk.ghost_name recorder.old.out.ghost_name }
    ensures disk { recorder.new.disk.ghost_name ≡ recorder.old.disk.ghost_name }
    ensures out { recorder.new.out.ghost_name ≡ recorder.old.out.ghost_name }
    ensures done { IfOk result (EndsRecorded (base_tree base.value) schedule.now
        (D.view recorder.old.disk.now) (D.view recorder.new.disk.now)
        (S.view recorder.old.out.now) (S.view recorder.new.out.now)) }
    ensures broken { IfErr result (HasBrokenOff (base_tree base.value) schedule.now
        (D.view recorder.old.disk.now) (D.view recorder.new.disk.now)
        (S.view recorder.old.out.now) (S.view recorder.new.out.now)) }
{
    match play(alloc, base, schedule, recorder) {
        Ok((board, retries)) => Ok(Recorded { board, retries }),
        Err(ended) => Err(fault_of(ended)),
    }
}

/// Steps the shells of a schedule in order, and then all shells in rounds, over a journal that was just started on the disk.
/// Each event's line is written as it comes, that of an attempt that was settled once the journal has it. A crash at any
/// moment since the start leaves a journal of which the settled lines that were written are a front, with at most one entry
/// more; whatever ends the run.
pub fn record<D: Disk, S: Sink>(
    alloc: Global,
    base: Arc<Base>,
    schedule: &[u32],
    journal: Journal,
    disk: &mut D,
    out: &mut S,
) -> Result<Recorded, RecordFault>
    requires shells { All (λ k. k < length base.value.plan) schedule.now }
    requires started { IsStarted journal (D.view disk.old) }
    ensures done { IfOk result (EndsRecorded (base_tree base.value) schedule.now
        (D.view disk.old) (D.view disk.new) (S.view out.old) (S.view out.new)) }
    ensures broken { IfErr result (HasBrokenOff (base_tree base.value) schedule.now
        (D.view disk.old) (D.view disk.new) (S.view out.old) (S.view out.new)) }
{
    let mut recorder = Recorder::<'_, '_, Brand, D, S> {
        journal,
        disk,
        out,
        origin: PhantomData,
    };
    let recorded = play_with::<Brand, D, S>(alloc, base, schedule, &mut recorder);
    let Recorder { disk, out, .. } = recorder;
    let _disk = &mut *disk;
    let _out = &mut *out;
    recorded
}
