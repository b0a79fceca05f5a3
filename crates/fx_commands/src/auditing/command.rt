//! The command `audit`.
ghost use Rattle.std.specs.Prelude.{IfOk, IfErr, IfSome};
ghost use Rattle.fx_outside.specs.Host.{ReadsOnly};
ghost use Rattle.fx_spec.specs.Bases.{base_tree};
ghost use Rattle.fx_command.specs.StatusOf.{status_of};
ghost use Rattle.fx_inputs.specs.Inputs.{HasBase};
ghost use Rattle.fx_words.specs.JobOf.{asked_audit, AreInputs};
ghost use Rattle.fx_commands.specs.Audits.Rows.{AuditRow, AuditEndsAs, AuditAsks, IsAuditing};

use crate::auditing::line::verdict_line;
use crate::auditing::reading::read_report;
use fx_command::{Status, print_all};
use fx_inputs::read_base;
use fx_outside::{Host, Sink};
use fx_spec::Base;
use fx_words::AuditJob;
use std::alloc::Global;
use std::sync::Arc;
use std::thread::Threads;

/// The line that tells the verdict on the report, for a base that is read.
fn line_by<H: Host>(
    alloc: Global,
    job: &AuditJob,
    base: Arc<Base>,
    host: &mut H,
) -> Result<Vec<u8>, Status>
    requires { IfSome (H.view host.old).told
        (λ t. HasBase t (asked_audit job.now).inputs (base_tree base.value)) }
    ensures said { IfOk result (λ line. IfSome (H.view host.old).told
        (λ t. IsAuditing t (asked_audit job.now) line.items)) }
    ensures same { ReadsOnly (H.view host.old) (H.view host.new) }
    ensures fit { AuditAsks (asked_audit job.now) (H.view host.old) (H.view host.new) }
    ensures ends { IfErr result
        (AuditEndsAs (asked_audit job.now) (H.view host.old) (H.view host.new)) }
{
    let bytes = match read_report(alloc, job, host) {
        Ok(bytes) => bytes,
        Err(status) => {
            Base::let_go(base);
            return Err(status);
        }
    };
    let verdict = fx_audit::audit(alloc, base, &bytes)?;
    let line = verdict_line(alloc, verdict)?;
    Ok(line)
}

/// The line that tells the verdict on the report.
fn line_of<R: Threads, H: Host>(
    rt: &R,
    alloc: Global,
    job: &AuditJob,
    host: &mut H,
) -> Result<Vec<u8>, Status>
    requires { AreInputs job.now.inputs }
    ensures said { IfOk result (λ line. IfSome (H.view host.old).told
        (λ t. IsAuditing t (asked_audit job.now) line.items)) }
    ensures same { ReadsOnly (H.view host.old) (H.view host.new) }
    ensures fit { AuditAsks (asked_audit job.now) (H.view host.old) (H.view host.new) }
    ensures ends { IfErr result
        (AuditEndsAs (asked_audit job.now) (H.view host.old) (H.view host.new)) }
{
    let base = read_base(rt, alloc, &job.inputs, host)?;
    line_by(alloc, job, base, host)
}

/// Prints the verdict on the text at REPORT, as the report of a run of what SPEC, FOLDER and the scripts stand for. It ends
/// alike for every verdict.
pub fn audit<R: Threads, H: Host, S: Sink>(
    rt: &R,
    alloc: Global,
    job: &AuditJob,
    host: &mut H,
    out: &mut S,
) -> Result<(), Status>
    requires { AreInputs job.now.inputs }
    ensures row { AuditRow (asked_audit job.now) (H.view host.old) (H.view host.new)
        (S.view out.old) (S.view out.new) (status_of result) }
    ensures fit { AuditAsks (asked_audit job.now) (H.view host.old) (H.view host.new) }
{
    let line = line_of(rt, alloc, job, host)?;
    print_all(out, &line)?;
    Ok(())
}
