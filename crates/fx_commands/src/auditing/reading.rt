//! The text of the report.
ghost use Rattle.std.specs.Prelude.{IfOk, IfErr, IfSome};
ghost use Rattle.fx_outside.specs.Host.{ReadsOnly};
ghost use Rattle.fx_inputs.specs.Inputs.{HasInputs};
ghost use Rattle.fx_words.specs.JobOf.{asked_audit};
ghost use Rattle.fx_commands.specs.Audits.Rows.{AuditAsks, AuditEndsAs, HasReport};

use fx_command::{Status, TextFault, read_text};
use fx_outside::Host;
use fx_words::AuditJob;
use std::alloc::Global;

/// How many bytes a report may have.
pub const REPORT_LIMIT: usize = 268_435_456;

/// The place of REPORT among the words, the command being 0.
pub const REPORT_WORD: u32 = 3;

/// Reads the report, after what a run reads.
pub(crate) fn read_report<H: Host>(
    alloc: Global,
    job: &AuditJob,
    host: &mut H,
) -> Result<Vec<u8>, Status>
    requires { IfSome (H.view host.old).told (λ t. HasInputs t (asked_audit job.now).inputs) }
    ensures read { IfOk result (λ bytes. IfSome (H.view host.old).told
        (λ t. HasReport t (asked_audit job.now) bytes.items)) }
    ensures same { ReadsOnly (H.view host.old) (H.view host.new) }
    ensures fit { AuditAsks (asked_audit job.now) (H.view host.old) (H.view host.new) }
    ensures ends { IfErr result
        (AuditEndsAs (asked_audit job.now) (H.view host.old) (H.view host.new)) }
{
    let bytes = read_text(alloc, host, job.report, REPORT_LIMIT as u64)?;
    if bytes.len() > REPORT_LIMIT {
        return Err(Status::TextRefused {
            word: REPORT_WORD,
            cause: TextFault::TooLarge,
        });
    }
    Ok(bytes)
}
