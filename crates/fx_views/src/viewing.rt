//! Views, one after another.
ghost use Rattle.std.specs.Prelude.{◌≡◌, ◌<◌, ◌≤◌, ◌+◌, IfOk, length};
ghost use Rattle.fx_spec.specs.Bases.{base_tree};
ghost use Rattle.fx_spec.specs.Plans.{count_of};
ghost use Rattle.fx_turn.specs.Seats.{view};
ghost use Rattle.fx_shared.specs.Passes.{HasSeenMore};
ghost use Rattle.fx_shared.specs.Crews.{base_of};
ghost use Rattle.fx_shared.specs.Shared.{IsReadyPass, IsFresh};
ghost use Rattle.fx_views.specs.Viewing.{AreAlike, IsOnlooker, HasLookedOn, IsViewSeen, IsViewedAfter};

use fx_base::NoMemory;
use fx_board::answer_of;
use fx_machine::Attempt;
use fx_outside::{Gate, Moment};
use fx_report::{View, Viewed};
use fx_run::run;
use fx_shared::{Crew, Past, SnapPass, Versioned};
use fx_spec::Base;
use fx_view::Stop;
use std::sync::{Arc, Wait};

/// The worker of the views between two of them: its pass, and what was viewed.
#[derive(Drop)]
pub struct Onlooker {
    pub pass: SnapPass,
    pub viewed: Viewed,
}

/// Runs a view at the state that is the last one when its reader is opened: not before what the pass had seen.
fn view_at<R: Wait, G: Gate>(
    crew: &Crew<'_, R, G, Versioned>,
    views: &Arc<Base>,
    pass: SnapPass,
    txn: u32,
) -> Result<(SnapPass, View), NoMemory>
    requires ready { IsReadyPass crew.now.shares.now pass }
    requires based { (view pass).base ≡ Some (base_of crew.now) }
    requires alike { AreAlike (base_of crew.now) (base_tree views.now.value) }
    requires planned { txn < count_of (base_tree views.now.value).plan 0 }
    ensures ready { IfOk result (λ r. IsReadyPass crew.now.shares.now r.0) }
    ensures more { IfOk result (λ r. HasSeenMore (view pass) (view r.0)) }
    ensures after { IfOk result (λ r. length (view pass).seen ≤ r.1.position) }
    ensures view { IfOk result (λ r.
        IsViewSeen (base_of crew.now) (base_tree views.now.value) txn (view r.0) r.1) }
{
    let _whole = views.loaded.places();
    let mut past = Past::open(crew.rt, crew.alloc, crew.shares, pass, txn, crew.gate);
    let position = past.position();
    let ended = run(crew.alloc, views, 0, txn, &mut past);
    let pass = past.into_pass();
    match ended {
        Ok(attempt) => Ok((pass, view_of(attempt, position))),
        Err(Stop::Needs(_)) => unreachable!(),
        Err(Stop::NoMemory) => Err(NoMemory),
    }
}

/// What an attempt comes to, as a view. What it has read and what it would change are dropped.
fn view_of(attempt: Attempt, position: u64) -> View
    ensures position { result.position ≡ position }
    ensures outputs { result.outputs ≡ attempt.outputs }
    ensures end { result.end ≡ attempt.end }
{
    let (outputs, end) = answer_of(attempt);
    View {
        position,
        outputs,
        end,
    }
}

/// Runs the next view at the state that is then the last: not before what the pass had seen.
fn look_once<R: Wait, G: Gate>(
    crew: &Crew<'_, R, G, Versioned>,
    views: &Arc<Base>,
    onlooker: Onlooker,
    shell: u32,
    txn: u32,
) -> Result<Onlooker, NoMemory>
    requires alike { AreAlike (base_of crew.now) (base_tree views.now.value) }
    requires planned { txn < count_of (base_tree views.now.value).plan 0 }
    requires onlooker { IsOnlooker (base_of crew.now) (base_tree views.now.value)
        crew.now.shares.now shell txn onlooker }
    ensures onlooker { IfOk result (IsOnlooker (base_of crew.now) (base_tree views.now.value)
        crew.now.shares.now shell (txn + 1)) }
    ensures after { IfOk result (IsViewedAfter (view onlooker.pass)) }
{
    let Onlooker { pass, mut viewed } = onlooker;
    crew.gate.pass(crew.rt, shell, txn, Moment::BeforeLook);
    let (pass, view) = view_at(crew, views, pass, txn)?;
    viewed.push(view)?;
    Ok(Onlooker { pass, viewed })
}

/// Runs the views, one after another.
pub fn look_on<R: Wait, G: Gate>(
    crew: &Crew<'_, R, G, Versioned>,
    views: &Arc<Base>,
    pass: SnapPass,
) -> Result<Onlooker, NoMemory>
    requires alike { AreAlike (base_of crew.now) (base_tree views.now.value) }
    requires pass { IsFresh (base_of crew.now) crew.now.shares.now pass }
    ensures { IfOk result (HasLookedOn (base_of crew.now) (base_tree views.now.value)
        crew.now.shares.now (view pass).number) }
{
    let Some(shell) = pass.number() else {
        unreachable!()
    };
    let count = views.plan.count(0);
    let mut onlooker = Onlooker {
        pass,
        viewed: Viewed::new(crew.alloc),
    };
    for txn in 0..count {
        onlooker = look_once(crew, views, onlooker, shell, txn)?;
    }
    Ok(onlooker)
}
