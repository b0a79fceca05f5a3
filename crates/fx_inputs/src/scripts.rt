//! The scripts of a run: their texts are read from the host in order, and are then looked at side by side.
ghost use Rattle.std.specs.Prelude.{◌≡◌, ◌+◌, ◌≤◌, [], IfOk, IfErr, OnOk, IfSome, length};
ghost use Rattle.fx_base.specs.Limits.{txn_limit};
ghost use Rattle.fx_outside.specs.Host.{ReadsOnly, AsksAt};
ghost use Rattle.fx_spec.specs.WellShaped.{IsScript};
ghost use Rattle.fx_command.specs.Reading.{ReadEnds};
ghost use Rattle.fx_words.specs.JobOf.{asked_inputs, AreInputs};
ghost use Rattle.fx_inputs.specs.Inputs.{HasMoreScripts, HasScripts, AreOnlyScripts};
ghost use Rattle.fx_inputs.specs.Causes.{script_reading, scripts_reading};
ghost use Rattle.fx_inputs.specs.Reads.{AsksAtAll};

use crate::ahead::read_ahead;
use crate::sources::{Sources, read_sources};
use fx_base::SOURCE_LIMIT;
use fx_command::{Status, read_text, script_of};
use fx_outside::{Host, HostText};
use fx_spec::{Plan, Script};
use fx_words::Inputs;
use std::alloc::Global;
use std::thread::Threads;

/// The script at the path that a word names, after so many transactions.
pub(crate) fn read_script_at<H: Host>(
    alloc: Global,
    host: &mut H,
    path: &HostText,
    word: u32,
    before: u32,
) -> Result<Script, Status>
    requires { before ≤ txn_limit }
    ensures read { IfOk result (λ script.
        IfSome (H.view host.old).told (λ t. HasMoreScripts t path.now before script)) }
    ensures few { IfOk result (λ script. before + length script ≤ txn_limit) }
    ensures shaped { IfOk result IsScript }
    ensures same { ReadsOnly (H.view host.old) (H.view host.new) }
    ensures fit { AsksAt path.now (H.view host.old) (H.view host.new) }
    ensures ends { IfErr result (ReadEnds (script_reading word path.now before)
        (H.view host.old) (H.view host.new)) }
{
    let text = read_text(alloc, host, path, SOURCE_LIMIT as u64)?;
    let script = match script_of(alloc, &text, before) {
        Ok(script) => script,
        Err(fault) => return Err(fault.at(word)),
    };
    Ok(script)
}

/// Adds the scripts, in order, to an empty plan.
fn add_scripts<R: Threads, H: Host>(
    rt: &R,
    alloc: Global,
    inputs: &Inputs,
    host: &mut H,
    plan: &mut Plan,
) -> Result<(), Status>
    requires inputs { AreInputs inputs.now }
    requires none { plan.old ≡ [] }
    ensures read { OnOk result (IfSome (H.view host.old).told
        (λ t. HasScripts t 0 (asked_inputs inputs.now).scripts plan.new)) }
    ensures only { OnOk result (IfSome (H.view host.old).told
        (λ t. AreOnlyScripts t (asked_inputs inputs.now) plan.new)) }
    ensures count { OnOk result
        (length plan.new ≡ length (asked_inputs inputs.now).scripts) }
    ensures same { ReadsOnly (H.view host.old) (H.view host.new) }
    ensures fit { AsksAtAll (asked_inputs inputs.now).scripts
        (H.view host.old) (H.view host.new) }
    ensures ends { IfErr result (ReadEnds (scripts_reading (asked_inputs inputs.now))
        (H.view host.old) (H.view host.new)) }
{
    let Sources { mut texts, stop } = read_sources(alloc, inputs, host);
    read_ahead(rt, alloc, &mut texts);
    let mut before = 0;
    'scripts: for text in texts {
        let i = plan.len();
        let script = match text.into_script(alloc, before) {
            Ok(script) => script,
            Err(fault) => return Err(fault.at(inputs.place(i))),
        };
        match plan.add(alloc, script) {
            Ok(()) => {}
            Err(_) => return Err(Status::NoMemory),
        }
        before += plan.count(i);
    }
    match stop {
        None => Ok(()),
        Some(fault) => Err(Status::from(fault)),
    }
}

/// The scripts, in order, as a plan.
pub(crate) fn read_plan<R: Threads, H: Host>(
    rt: &R,
    alloc: Global,
    inputs: &Inputs,
    host: &mut H,
) -> Result<Plan, Status>
    requires { AreInputs inputs.now }
    ensures read { IfOk result (λ plan. IfSome (H.view host.old).told
        (λ t. HasScripts t 0 (asked_inputs inputs.now).scripts plan)) }
    ensures only { IfOk result (λ plan. IfSome (H.view host.old).told
        (λ t. AreOnlyScripts t (asked_inputs inputs.now) plan)) }
    ensures count { IfOk result
        (λ plan. length plan ≡ length (asked_inputs inputs.now).scripts) }
    ensures same { ReadsOnly (H.view host.old) (H.view host.new) }
    ensures fit { AsksAtAll (asked_inputs inputs.now).scripts
        (H.view host.old) (H.view host.new) }
    ensures ends { IfErr result (ReadEnds (scripts_reading (asked_inputs inputs.now))
        (H.view host.old) (H.view host.new)) }
{
    let mut plan = Plan::new(alloc);
    match add_scripts(rt, alloc, inputs, host, &mut plan) {
        Ok(()) => Ok(plan),
        Err(status) => {
            plan.let_go();
            Err(status)
        }
    }
}
