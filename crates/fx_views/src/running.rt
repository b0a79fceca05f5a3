//! A run of all scripts of a plan, and of views beside it.
ghost use denote.Param.Send.{IsSync};
ghost use Rattle.std.specs.Prelude.{◌≡◌, ◌+◌, ◌<◌, [], IfOk, OnOk, length, map};
ghost use Rattle.fx_base.specs.Limits.{shell_limit};
ghost use Rattle.fx_spec.specs.Bases.{base_tree};
ghost use Rattle.fx_spec.specs.Order.{IsComplete, RetriesOk};
ghost use Rattle.fx_spec.specs.Plans.{script_of};
ghost use Rattle.fx_machine.specs.Tried.{retry_tree};
ghost use Rattle.fx_diaries.specs.Runs.{IsOfSomeRun};
ghost use Rattle.fx_turn.specs.Views.{joins};
ghost use Rattle.fx_turn.specs.Seats.{view};
ghost use Rattle.fx_shared.specs.Crews.{base_of};
ghost use Rattle.fx_shared.specs.Shared.{IsPassOf, IsFresh, AreFresh, IsMakerOf};
ghost use Rattle.fx_crew.specs.Workers.{IsDoneBy, AreDone, HasGathered};
ghost use Rattle.fx_views.specs.Viewing.{AreAlike, HasLookedOn, HasLookedOver};
ghost use Rattle.fx_views.specs.Views.{AreViews};

use crate::viewing::{Onlooker, look_on};
use crate::working::work_on_versions;
use fx_base::NoMemory;
use fx_crew::{Worked, take_in};
use fx_machine::Retries;
use fx_outside::Gate;
use fx_report::Viewed;
use fx_shared::{Crew, SnapPass, Snaps, Versioned, passes_of};
use fx_spec::Base;
use fx_threads::{join, map_vec};
use std::alloc::{AllocError, Global};
use std::sync::{Arc, Wait};
use std::thread::Threads;

/// What the worker of a script comes to.
type Work = Result<Worked<Versioned>, NoMemory>;

/// Each script in a thread of its own; where none can be started, the caller's thread does its work.
fn work_all<R: Threads + Wait + Sync, G: Gate + Sync>(
    crew: &Crew<'_, R, G, Versioned>,
    passes: Vec<SnapPass>,
) -> Result<Vec<Work>, AllocError>
    requires passes { AreFresh (base_of crew.now) crew.now.shares.now passes.items }
    ensures all { IfOk result (λ all. length all.items ≡ length passes.items) }
    ensures done { IfOk result (λ all. AreDone (base_of crew.now) crew.now.shares.now all.items) }
{
    map_vec(
        crew.rt,
        passes,
        &|pass: SnapPass| -> Work
            requires { IsFresh (base_of crew.now) crew.now.shares.now pass }
            ensures { IfOk result
                (IsDoneBy (base_of crew.entry.now) crew.entry.now.shares.now pass) }
        { work_on_versions(crew, pass) },
    )
}

fn crew_of<'a, R, G>(
    rt: &'a R,
    alloc: Global,
    base: &'a Arc<Base>,
    shares: &'a Snaps,
    gate: &'a G,
) -> Crew<'a, R, G, Versioned>
    ensures base { result.base.now ≡ base.now }
    ensures shares { result.shares.now ≡ shares.now }
{
    Crew {
        rt,
        alloc,
        base,
        shares,
        gate,
    }
}

/// The scripts in threads of their own, and the views in one more.
fn work_beside<R: Threads + Wait + Sync, G: Gate + Sync>(
    crew: &Crew<'_, R, G, Versioned>,
    views: &Arc<Base>,
    passes: Vec<SnapPass>,
    last: SnapPass,
) -> Result<(Onlooker, Vec<Work>), NoMemory>
    requires alike { AreAlike (base_of crew.now) (base_tree views.now.value) }
    requires passes { AreFresh (base_of crew.now) crew.now.shares.now passes.items }
    requires last { IsFresh (base_of crew.now) crew.now.shares.now last }
    ensures viewed { IfOk result (λ r. HasLookedOn (base_of crew.now)
        (base_tree views.now.value) crew.now.shares.now (view last).number r.0) }
    ensures all { IfOk result (λ r. length r.1.items ≡ length passes.items) }
    ensures done { IfOk result
        (λ r. AreDone (base_of crew.now) crew.now.shares.now r.1.items) }
{
    // A thread that owns a pass takes the crew's parts one by one: of a crew behind one reference its result would tell nothing.
    let Crew {
        rt,
        alloc,
        base,
        shares,
        gate,
    } = *crew;
    let look = move || -> Result<Onlooker, NoMemory>
        requires { AreAlike (base_tree base.now.value) (base_tree views.now.value)
            × IsFresh (base_tree base.now.value) shares.now last }
        ensures { IfOk result (HasLookedOn (base_tree base.entry.now.value)
            (base_tree views.entry.now.value) shares.entry.now (view last).number) }
    { look_on(&crew_of(rt, alloc, base, shares, gate), views, last) };
    let work = move || -> Result<Vec<Work>, AllocError>
        requires { IsSync R.row × IsSync G.row
            × AreFresh (base_tree base.now.value) shares.now passes.items }
        ensures { IfOk result (λ all. (length all.items ≡ length passes.items)
            × AreDone (base_tree base.entry.now.value) shares.entry.now all.items) }
    {
        let alloc = *passes.allocator();
        work_all(&crew_of(rt, alloc, base, shares, gate), passes)
    };
    let (all, onlooker) = join(rt, work, look);
    let all = all?;
    Ok((onlooker?, all))
}

/// Takes in the passes of all scripts' workers, and answers their retries by shell.
fn gather<R, G>(
    crew: &Crew<'_, R, G, Versioned>,
    maker: &mut SnapPass,
    all: Vec<Work>,
) -> Result<Retries, NoMemory>
    requires pass { IsPassOf crew.now.shares.now maker.old }
    requires none { HasGathered (base_of crew.now) (view maker.old) [] }
    requires first { joins (view maker.old) ≡ 0 }
    requires done { AreDone (base_of crew.now) crew.now.shares.now all.items }
    ensures pass { OnOk result (IsPassOf crew.now.shares.now maker.new) }
    ensures splits { OnOk result ((view maker.new).splits ≡ (view maker.old).splits) }
    ensures joins { OnOk result (joins (view maker.new) ≡ length all.items) }
    ensures gathered { IfOk result (HasGathered (base_of crew.now) (view maker.new)) }
{
    let mut retries = Retries::new(crew.alloc);
    for worked in all {
        let worked = worked?;
        take_in(crew, maker, &mut retries, worked)?;
    }
    Ok(retries)
}

/// Gives out a pass for each script and one for the views, has them work, and takes the passes in.
fn look_over<R: Threads + Wait + Sync, G: Gate + Sync>(
    crew: &Crew<'_, R, G, Versioned>,
    views: &Arc<Base>,
    maker: &mut SnapPass,
) -> Result<(Retries, Viewed), NoMemory>
    requires maker { IsMakerOf (base_of crew.now) crew.now.shares.now maker.old }
    requires first { ((view maker.old).splits ≡ 0) × ((view maker.old).joined ≡ []) }
    requires few { length (base_of crew.now).plan < shell_limit }
    requires alike { AreAlike (base_of crew.now) (base_tree views.now.value) }
    ensures pass { OnOk result (IsPassOf crew.now.shares.now maker.new) }
    ensures splits { OnOk result (joins (view maker.new) ≡ (view maker.new).splits) }
    ensures over { IfOk result (λ r. HasLookedOver (base_of crew.now) (base_tree views.now.value)
        (view maker.new) r.0 r.1) }
{
    let passes = passes_of(crew, maker)?;
    let last = crew.shares.pass(maker);
    let (onlooker, all) = work_beside(crew, views, passes, last)?;
    let retries = gather(crew, maker, all)?;
    let Onlooker { pass, viewed } = onlooker;
    crew.shares.join(maker, pass);
    Ok((retries, viewed))
}

/// Runs the scripts of a shared base, and views beside them, as [`run_views`] does.
fn run_shared<R: Threads + Wait + Sync, G: Gate + Sync>(
    rt: &R,
    alloc: Global,
    base: &Arc<Base>,
    views: &Arc<Base>,
    gate: &G,
) -> Result<(Versioned, Retries, Viewed), NoMemory>
    requires few { length base.now.value.plan < shell_limit }
    requires description { views.now.value.description ≡ base.now.value.description }
    requires loaded { views.now.value.loaded.nodes ≡ base.now.value.loaded.nodes }
    requires one { length views.now.value.plan ≡ 1 }
    ensures base { IfOk result (λ r. r.0.base ≡ base_tree base.now.value) }
    ensures complete { IfOk result (λ r. IsComplete r.0.base r.0.order) }
    ensures ran { IfOk result (λ r. IsOfSomeRun r.0.base r.0.order r.1) }
    ensures retries { IfOk result (λ r. RetriesOk r.0.base r.0.order (map retry_tree r.1)) }
    ensures viewed { IfOk result (λ r.
        AreViews r.0.base (script_of views.now.value.plan 0) r.0.order r.2) }
{
    let (snaps, mut maker) = Snaps::new(alloc, Arc::try_clone(base)?)?;
    let crew = Crew {
        rt,
        alloc,
        base,
        shares: &snaps,
        gate,
    };
    let (retries, viewed) = look_over(&crew, views, &mut maker)?;
    Ok((snaps.close(maker), retries, viewed))
}

/// Runs the scripts of a plan over one shared log, each in a thread of its own, and beside them the views, one after
/// another, in one more thread; answers the log, the retries by shell, and the views. Each view runs at the state after all
/// entries of some moment, and none changes anything. The views' worker passes the gate as the shell after the last.
pub fn run_views<R: Threads + Wait + Sync, G: Gate + Sync>(
    rt: &R,
    alloc: Global,
    base: Arc<Base>,
    views: Arc<Base>,
    gate: &G,
) -> Result<(Versioned, Retries, Viewed), NoMemory>
    requires few { length base.value.plan < shell_limit }
    requires description { views.value.description ≡ base.value.description }
    requires loaded { views.value.loaded.nodes ≡ base.value.loaded.nodes }
    requires one { length views.value.plan ≡ 1 }
    ensures base { IfOk result (λ r. r.0.base ≡ base_tree base.value) }
    ensures complete { IfOk result (λ r. IsComplete r.0.base r.0.order) }
    ensures ran { IfOk result (λ r. IsOfSomeRun r.0.base r.0.order r.1) }
    ensures retries { IfOk result (λ r. RetriesOk r.0.base r.0.order (map retry_tree r.1)) }
    ensures viewed { IfOk result (λ r.
        AreViews r.0.base (script_of views.value.plan 0) r.0.order r.2) }
{
    let ran = run_shared(rt, alloc, &base, &views, gate);
    Base::let_go(base);
    Base::let_go(views);
    ran
}
