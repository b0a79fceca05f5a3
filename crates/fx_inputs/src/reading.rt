//! The stages that read: the description, the scripts and the folder.
ghost use Rattle.std.specs.Prelude.{◌≡◌, length, IfOk, IfErr, IfSome};
ghost use Rattle.fx_outside.specs.Host.{ReadsOnly};
ghost use Rattle.fx_folder.specs.HasFolder.{HasFolder};
ghost use Rattle.fx_spec.specs.Bases.{base_tree};
ghost use Rattle.fx_words.specs.JobOf.{asked_inputs, AreInputs};
ghost use Rattle.fx_inputs.specs.Inputs.{HasSpec, HasScripts, AreOnlyScripts, HasSomeSpec, HasTexts, HasBase, IsOnlyBase, HasEachScript};
ghost use Rattle.fx_inputs.specs.Reads.{ReadRow, InputsAsk};

use crate::scripts::read_plan;
use fx_command::{Status, read_description};
use fx_folder::load;
use fx_outside::Host;
use fx_spec::{Base, Checked, Plan};
use fx_store::Filestore;
use fx_words::Inputs;
use std::alloc::Global;
use std::sync::Arc;
use std::thread::Threads;

/// Reads the scripts, after the description.
fn read_scripts<R: Threads, H: Host>(
    rt: &R,
    alloc: Global,
    inputs: &Inputs,
    host: &mut H,
) -> Result<Plan, Status>
    requires inputs { AreInputs inputs.now }
    requires spec { IfSome (H.view host.old).told (λ t. HasSomeSpec t (asked_inputs inputs.now)) }
    ensures read { IfOk result (λ plan. IfSome (H.view host.old).told
        (λ t. HasScripts t 0 (asked_inputs inputs.now).scripts plan)) }
    ensures only { IfOk result (λ plan. IfSome (H.view host.old).told
        (λ t. AreOnlyScripts t (asked_inputs inputs.now) plan)) }
    ensures count { IfOk result
        (λ plan. length plan ≡ length (asked_inputs inputs.now).scripts) }
    ensures same { ReadsOnly (H.view host.old) (H.view host.new) }
    ensures fit { InputsAsk (asked_inputs inputs.now) (H.view host.old) (H.view host.new) }
    ensures ends { IfErr result
        (ReadRow (asked_inputs inputs.now) (H.view host.old) (H.view host.new)) }
{
    let plan = read_plan(rt, alloc, inputs, host)?;
    Ok(plan)
}

/// Loads the folder, after the texts.
fn read_folder<H: Host>(alloc: Global, inputs: &Inputs, host: &mut H) -> Result<Filestore, Status>
    requires { IfSome (H.view host.old).told (λ t. HasTexts t (asked_inputs inputs.now)) }
    ensures loaded { IfOk result (λ s. IfSome (H.view host.old).told
        (λ t. HasFolder t (asked_inputs inputs.now).folder s.nodes)) }
    ensures same { ReadsOnly (H.view host.old) (H.view host.new) }
    ensures fit { InputsAsk (asked_inputs inputs.now) (H.view host.old) (H.view host.new) }
    ensures ends { IfErr result
        (ReadRow (asked_inputs inputs.now) (H.view host.old) (H.view host.new)) }
{
    let store = load(alloc, host, inputs.folder)?;
    // By its places the filestore is whole.
    let _whole = store.places();
    Ok(store)
}

/// Reads what a run begins with besides its description: the scripts in order, and the folder.
pub(crate) fn read_rest<R: Threads, H: Host>(
    rt: &R,
    alloc: Global,
    inputs: &Inputs,
    description: Checked,
    host: &mut H,
) -> Result<Arc<Base>, Status>
    requires inputs { AreInputs inputs.now }
    requires spec { IfSome (H.view host.old).told
        (λ t. HasSpec t (asked_inputs inputs.now) description) }
    ensures read { IfOk result (λ base. IfSome (H.view host.old).told
        (λ t. HasBase t (asked_inputs inputs.now) (base_tree base.value))) }
    ensures count { IfOk result
        (λ base. HasEachScript (asked_inputs inputs.now) (base_tree base.value)) }
    ensures described { IfOk result (λ base. base.value.description ≡ description) }
    ensures only { IfOk result (λ base. IfSome (H.view host.old).told
        (λ t. AreOnlyScripts t (asked_inputs inputs.now) (base_tree base.value).plan)) }
    ensures same { ReadsOnly (H.view host.old) (H.view host.new) }
    ensures fit { InputsAsk (asked_inputs inputs.now) (H.view host.old) (H.view host.new) }
    ensures ends { IfErr result
        (ReadRow (asked_inputs inputs.now) (H.view host.old) (H.view host.new)) }
{
    let plan = match read_scripts(rt, alloc, inputs, host) {
        Ok(plan) => plan,
        Err(status) => {
            description.let_go();
            return Err(status);
        }
    };
    let loaded = match read_folder(alloc, inputs, host) {
        Ok(loaded) => loaded,
        Err(status) => {
            description.let_go();
            plan.let_go();
            return Err(status);
        }
    };
    let base = Base::shared(alloc, description, plan, loaded)?;
    Ok(base)
}

/// Reads what a run begins with: the description, the scripts in order, and the folder. The tree that the host tells is as
/// it was, and the call fails for no other cause than that one of these is not read or is refused, or that memory runs out.
pub fn read_base<R: Threads, H: Host>(
    rt: &R,
    alloc: Global,
    inputs: &Inputs,
    host: &mut H,
) -> Result<Arc<Base>, Status>
    requires { AreInputs inputs.now }
    ensures read { IfOk result (λ base. IfSome (H.view host.old).told
        (λ t. HasBase t (asked_inputs inputs.now) (base_tree base.value))) }
    ensures only { IfOk result (λ base. IfSome (H.view host.old).told
        (λ t. IsOnlyBase t (asked_inputs inputs.now) (base_tree base.value))) }
    ensures count { IfOk result
        (λ base. HasEachScript (asked_inputs inputs.now) (base_tree base.value)) }
    ensures same { ReadsOnly (H.view host.old) (H.view host.new) }
    ensures fit { InputsAsk (asked_inputs inputs.now) (H.view host.old) (H.view host.new) }
    ensures ends { IfErr result
        (ReadRow (asked_inputs inputs.now) (H.view host.old) (H.view host.new)) }
{
    let description = read_description(alloc, inputs.spec, host)?;
    let base = read_rest(rt, alloc, inputs, description, host)?;
    Ok(base)
}
