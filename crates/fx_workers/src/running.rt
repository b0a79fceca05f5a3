//! A run of all scripts of a plan.
ghost use Rattle.std.specs.Prelude.{◌≡◌, [], IfOk, OnOk, length, map};
ghost use Rattle.fx_spec.specs.Bases.{base_tree};
ghost use Rattle.fx_spec.specs.Order.{IsComplete, RetriesOk};
ghost use Rattle.fx_machine.specs.Tried.{retry_tree};
ghost use Rattle.fx_diaries.specs.Runs.{IsOfSomeRun};
ghost use Rattle.fx_turn.specs.Views.{joins};
ghost use Rattle.fx_turn.specs.Seats.{view};
ghost use Rattle.fx_shared.specs.Crews.{base_of};
ghost use Rattle.fx_shared.specs.Shared.{IsPassOf, IsFresh, AreFresh, IsMakerOf};
ghost use Rattle.fx_crew.specs.Workers.{IsDoneBy, AreDone, HasGathered};

use crate::working::work_on_board;
use fx_base::NoMemory;
use fx_board::Board;
use fx_crew::{Worked, take_in};
use fx_machine::Retries;
use fx_outside::Gate;
use fx_shared::{Crew, Pass, Shared, passes_of};
use fx_spec::Base;
use fx_threads::map_vec;
use std::alloc::{AllocError, Global};
use std::sync::{Arc, Wait};
use std::thread::Threads;

/// Each script in a thread of its own; where none can be started, the caller's thread does its work.
fn work_all<R: Threads + Wait + Sync, G: Gate + Sync>(
    crew: &Crew<'_, R, G, Board>,
    passes: Vec<Pass>,
) -> Result<Vec<Result<Worked<Board>, NoMemory>>, AllocError>
    requires passes { AreFresh (base_of crew.now) crew.now.shares.now passes.items }
    ensures all { IfOk result (λ all. length all.items ≡ length passes.items) }
    ensures done { IfOk result (λ all. AreDone (base_of crew.now) crew.now.shares.now all.items) }
{
    map_vec(
        crew.rt,
        passes,
        &|pass: Pass| -> Result<Worked<Board>, NoMemory>
            requires { IsFresh (base_of crew.now) crew.now.shares.now pass }
            ensures { IfOk result
                (IsDoneBy (base_of crew.entry.now) crew.entry.now.shares.now pass) }
        { work_on_board(crew, pass) },
    )
}

/// Takes in the passes of all workers, and answers their retries by shell.
fn gather<R, G>(
    crew: &Crew<'_, R, G, Board>,
    maker: &mut Pass,
    all: Vec<Result<Worked<Board>, NoMemory>>,
) -> Result<Retries, NoMemory>
    requires pass { IsPassOf crew.now.shares.now maker.old }
    requires none { HasGathered (base_of crew.now) (view maker.old) [] }
    requires first { joins (view maker.old) ≡ 0 }
    requires done { AreDone (base_of crew.now) crew.now.shares.now all.items }
    ensures pass { OnOk result (IsPassOf crew.now.shares.now maker.new) }
    ensures splits { OnOk result ((view maker.new).splits ≡ (view maker.old).splits) }
    ensures joins { OnOk result (joins (view maker.new) ≡ length all.items) }
    ensures gathered { IfOk result (HasGathered (base_of crew.now) (view maker.new)) }
{
    let mut retries = Retries::new(crew.alloc);
    for worked in all {
        let worked = worked?;
        take_in(crew, maker, &mut retries, worked)?;
    }
    Ok(retries)
}

/// Gives out a pass for each script, has the scripts worked off, and takes the passes in.
fn work_over<R: Threads + Wait + Sync, G: Gate + Sync>(
    crew: &Crew<'_, R, G, Board>,
    maker: &mut Pass,
) -> Result<Retries, NoMemory>
    requires maker { IsMakerOf (base_of crew.now) crew.now.shares.now maker.old }
    requires first { ((view maker.old).splits ≡ 0) × ((view maker.old).joined ≡ []) }
    ensures pass { OnOk result (IsPassOf crew.now.shares.now maker.new) }
    ensures splits { OnOk result ((view maker.new).splits ≡ length (base_of crew.now).plan) }
    ensures joins { OnOk result (joins (view maker.new) ≡ length (base_of crew.now).plan) }
    ensures gathered { IfOk result (HasGathered (base_of crew.now) (view maker.new)) }
{
    let passes = passes_of(crew, maker)?;
    let all = work_all(crew, passes)?;
    gather(crew, maker, all)
}

/// Runs the scripts of a shared base, as [`run_all`] does.
fn run_shared<R: Threads + Wait + Sync, G: Gate + Sync>(
    rt: &R,
    alloc: Global,
    base: &Arc<Base>,
    gate: &G,
) -> Result<(Board, Retries), NoMemory>
    ensures base { IfOk result (λ r. r.0.base ≡ base_tree base.now.value) }
    ensures complete { IfOk result (λ r. IsComplete r.0.base r.0.order) }
    ensures ran { IfOk result (λ r. IsOfSomeRun r.0.base r.0.order r.1) }
    ensures retries { IfOk result (λ r. RetriesOk r.0.base r.0.order (map retry_tree r.1)) }
{
    let (shares, mut maker) = Shared::new(alloc, Arc::try_clone(base)?)?;
    let crew = Crew {
        rt,
        alloc,
        base,
        shares: &shares,
        gate,
    };
    let retries = work_over(&crew, &mut maker)?;
    Ok((shares.close(maker), retries))
}

/// Runs the scripts of a plan over one shared log, each in a thread of its own, and answers the log and the retries by
/// shell. Before each look and each settle, and after each settled transaction, a worker passes the gate.
pub fn run_all<R: Threads + Wait + Sync, G: Gate + Sync>(
    rt: &R,
    alloc: Global,
    base: Arc<Base>,
    gate: &G,
) -> Result<(Board, Retries), NoMemory>
    ensures base { IfOk result (λ r. r.0.base ≡ base_tree base.value) }
    ensures complete { IfOk result (λ r. IsComplete r.0.base r.0.order) }
    ensures ran { IfOk result (λ r. IsOfSomeRun r.0.base r.0.order r.1) }
    ensures retries { IfOk result (λ r. RetriesOk r.0.base r.0.order (map retry_tree r.1)) }
{
    let ran = run_shared(rt, alloc, &base, gate);
    Base::let_go(base);
    ran
}
