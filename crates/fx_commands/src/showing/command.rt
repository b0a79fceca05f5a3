//! The command `show`.
ghost use Rattle.std.specs.Prelude.{IfOk, IfErr, IfSome};
ghost use Rattle.fx_outside.specs.Host.{ReadsOnly};
ghost use Rattle.fx_folder.specs.Loads.{Loads};
ghost use Rattle.fx_words.specs.JobOf.{asked_show};
ghost use Rattle.fx_inputs.specs.Inputs.{HasSpec, HasTexts};
ghost use Rattle.fx_inputs.specs.Reads.{InputsAsk};
ghost use Rattle.fx_commands.specs.Shows.Rows.{ShowRow, ShowEndsAs};
ghost use Rattle.fx_commands.specs.Shows.Showing.{IsShowing};
ghost use Rattle.fx_command.specs.StatusOf.{status_of};

use crate::showing::values::shown;
use fx_command::{Status, print_all, read_description};
use fx_folder::load;
use fx_outside::{Host, Sink};
use fx_spec::Checked;
use fx_store::{Filestore, LongText};
use fx_words::ShowJob;
use std::alloc::Global;

/// Loads the folder, after the description.
fn read_folder<H: Host>(alloc: Global, job: &ShowJob, host: &mut H) -> Result<Filestore, Status>
    requires { IfSome (H.view host.old).told (λ t. HasTexts t (asked_show job.now)) }
    ensures loaded { IfOk result (λ s.
        IfSome (H.view host.old).told (λ t. Loads t (asked_show job.now).folder s.nodes)) }
    ensures same { ReadsOnly (H.view host.old) (H.view host.new) }
    ensures fit { InputsAsk (asked_show job.now) (H.view host.old) (H.view host.new) }
    ensures ends { IfErr result
        (ShowEndsAs (asked_show job.now) (H.view host.old) (H.view host.new)) }
{
    let store = load(alloc, host, job.folder)?;
    Ok(store)
}

/// What is shown of the folder by the description.
fn output_by<H: Host>(
    alloc: Global,
    job: &ShowJob,
    spec: &Checked,
    host: &mut H,
) -> Result<LongText, Status>
    requires { IfSome (H.view host.old).told
        (λ t. HasSpec t (asked_show job.now) spec.now) }
    ensures shows { IfOk result (λ output.
        IfSome (H.view host.old).told (λ t. IsShowing t (asked_show job.now) output)) }
    ensures same { ReadsOnly (H.view host.old) (H.view host.new) }
    ensures fit { InputsAsk (asked_show job.now) (H.view host.old) (H.view host.new) }
    ensures ends { IfErr result
        (ShowEndsAs (asked_show job.now) (H.view host.old) (H.view host.new)) }
{
    let store = read_folder(alloc, job, host)?;
    let output = shown(alloc, spec, &store);
    store.let_go();
    Ok(output?)
}

/// What is shown of the folder by the description that is read.
fn output_of<H: Host>(alloc: Global, job: &ShowJob, host: &mut H) -> Result<LongText, Status>
    ensures shows { IfOk result (λ output.
        IfSome (H.view host.old).told (λ t. IsShowing t (asked_show job.now) output)) }
    ensures same { ReadsOnly (H.view host.old) (H.view host.new) }
    ensures fit { InputsAsk (asked_show job.now) (H.view host.old) (H.view host.new) }
    ensures ends { IfErr result
        (ShowEndsAs (asked_show job.now) (H.view host.old) (H.view host.new)) }
{
    let spec = read_description(alloc, job.spec, host)?;
    let output = output_by(alloc, job, &spec, host);
    spec.let_go();
    output
}

/// Prints whether the folder has a value by the description, and which.
pub fn show<H: Host, S: Sink>(
    alloc: Global,
    job: &ShowJob,
    host: &mut H,
    out: &mut S,
) -> Result<(), Status>
    ensures row { ShowRow (asked_show job.now) (H.view host.old) (H.view host.new)
        (S.view out.old) (S.view out.new) (status_of result) }
    ensures fit { InputsAsk (asked_show job.now) (H.view host.old) (H.view host.new) }
{
    let output = output_of(alloc, job, host)?;
    print_all(out, output.as_slice())?;
    Ok(())
}
