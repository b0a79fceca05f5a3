//! What a run with views reads: the description, the views, the scripts and the folder.
ghost use Rattle.std.specs.Prelude.{◌≡◌, ◌≤◌, ◌∷◌, [], length, IfOk, IfErr, IfSome};
ghost use Rattle.fx_base.specs.Limits.{txn_limit};
ghost use Rattle.fx_outside.specs.Host.{ReadsOnly};
ghost use Rattle.fx_spec.specs.Bases.{base_tree};
ghost use Rattle.fx_spec.specs.WellShaped.{IsScript};
ghost use Rattle.fx_words.specs.JobOf.{asked_views, IsViewsJob};
ghost use Rattle.fx_inputs.specs.Inputs.{HasSomeSpec, HasEachScript};
ghost use Rattle.fx_inputs.specs.Views.{HasBases, HasViewsAlone, IsBeside, ViewsInputsAsk, ViewsReadRow};

use crate::reading::read_rest;
use crate::scripts::read_script_at;
use fx_base::NoMemory;
use fx_command::{Status, read_description};
use fx_outside::Host;
use fx_spec::{Base, Plan, Script};
use fx_words::ViewsJob;
use std::alloc::Global;
use std::sync::Arc;
use std::thread::Threads;

/// The place of VIEWS among the words, the command being 0.
pub const VIEWS_WORD: u32 = 4;

/// What a run with views begins with: the scripts, and the views as the one script of a plan of their own, each with the
/// description and the folder.
pub struct Bases {
    pub scripts: Arc<Base>,
    pub views: Arc<Base>,
}

impl Bases {
    /// Lets go of both.
    pub fn let_go(self) {
        let Bases { scripts, views } = self;
        Base::let_go(scripts);
        Base::let_go(views);
    }
}

/// The plan of one script.
fn plan_of(alloc: Global, script: Script) -> Result<Plan, NoMemory>
    requires shaped { IsScript script }
    requires few { length script ≤ txn_limit }
    ensures { IfOk result (λ plan. plan ≡ script ∷ []) }
{
    let mut plan = Plan::new(alloc);
    match plan.add(alloc, script) {
        Ok(()) => Ok(plan),
        Err(fault) => {
            plan.let_go();
            Err(fault)
        }
    }
}

/// Reads the views, after the description. They are counted by themselves.
fn read_views<H: Host>(alloc: Global, job: &ViewsJob, host: &mut H) -> Result<Plan, Status>
    requires { IfSome (H.view host.old).told (λ t. HasSomeSpec t (asked_views job.now).inputs) }
    ensures read { IfOk result (λ plan. IfSome (H.view host.old).told
        (λ t. HasViewsAlone t (asked_views job.now) plan)) }
    ensures one { IfOk result (λ plan. length plan ≡ 1) }
    ensures same { ReadsOnly (H.view host.old) (H.view host.new) }
    ensures fit { ViewsInputsAsk (asked_views job.now) (H.view host.old) (H.view host.new) }
    ensures ends { IfErr result
        (ViewsReadRow (asked_views job.now) (H.view host.old) (H.view host.new)) }
{
    let script = read_script_at(alloc, host, job.views, VIEWS_WORD, 0)?;
    let plan = plan_of(alloc, script)?;
    Ok(plan)
}

/// The views beside a run that is read, by the description that the run has.
fn beside(alloc: Global, scripts: &Arc<Base>, views: Plan) -> Result<Arc<Base>, NoMemory>
    ensures plan { IfOk result (λ base. base.value.plan ≡ views) }
    ensures description { IfOk result
        (λ base. base.value.description ≡ scripts.now.value.description) }
    ensures loaded { IfOk result (λ base. base.value.loaded.nodes ≡ scripts.now.value.loaded.nodes) }
{
    let description = match scripts.description.copy() {
        Ok(description) => description,
        Err(fault) => {
            views.let_go();
            return Err(fault);
        }
    };
    match scripts.loaded.copy(alloc) {
        Ok(loaded) => Base::shared(alloc, description, views, loaded),
        Err(fault) => {
            views.let_go();
            description.let_go();
            Err(fault)
        }
    }
}

/// Reads what a run with views begins with: the description, the views, the scripts in order, and the folder. The tree that
/// the host tells is as it was, and the call fails for no other cause than that one of these is not read or is refused, or
/// that memory runs out.
pub fn read_bases<R: Threads, H: Host>(
    rt: &R,
    alloc: Global,
    job: &ViewsJob,
    host: &mut H,
) -> Result<Bases, Status>
    requires { IsViewsJob job.now }
    ensures read { IfOk result (λ bases. IfSome (H.view host.old).told
        (λ t. HasBases t (asked_views job.now)
        (base_tree bases.scripts.value) (base_tree bases.views.value))) }
    ensures count { IfOk result
        (λ bases. HasEachScript (asked_views job.now).inputs (base_tree bases.scripts.value)) }
    ensures beside { IfOk result
        (λ bases. IsBeside (base_tree bases.scripts.value) (base_tree bases.views.value)) }
    ensures same { ReadsOnly (H.view host.old) (H.view host.new) }
    ensures fit { ViewsInputsAsk (asked_views job.now) (H.view host.old) (H.view host.new) }
    ensures ends { IfErr result
        (ViewsReadRow (asked_views job.now) (H.view host.old) (H.view host.new)) }
{
    let description = read_description(alloc, job.inputs.spec, host)?;
    let plan = match read_views(alloc, job, host) {
        Ok(plan) => plan,
        Err(status) => {
            description.let_go();
            return Err(status);
        }
    };
    let scripts = match read_rest(rt, alloc, &job.inputs, description, host) {
        Ok(scripts) => scripts,
        Err(status) => {
            plan.let_go();
            return Err(status);
        }
    };
    match beside(alloc, &scripts, plan) {
        Ok(views) => Ok(Bases { scripts, views }),
        Err(_) => {
            Base::let_go(scripts);
            Err(Status::NoMemory)
        }
    }
}
