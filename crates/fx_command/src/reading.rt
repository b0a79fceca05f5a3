//! The stage of a command that reads its description.
ghost use Rattle.std.specs.Prelude.{◌≡◌, IfOk, IfErr, IfSome};
ghost use Rattle.fx_outside.specs.Host.{ReadsOnly, AsksAt};
ghost use Rattle.fx_command.specs.Reading.{ReadEnds};
ghost use Rattle.fx_command.specs.Files.{IsDescriptionAt, IsOnlyDescriptionAt, description_reading};

use crate::described::description_of;
use crate::status::Status;
use crate::texts::read_text;
use fx_base::SOURCE_LIMIT;
use fx_outside::{Host, HostText};
use fx_spec::Checked;
use std::alloc::Global;

/// The place of SPEC among the words of each command that has one, the command being 0.
pub const SPEC_WORD: u32 = 1;

/// Reads the description at a path, that of SPEC.
pub fn read_description<H: Host>(
    alloc: Global,
    path: &HostText,
    host: &mut H,
) -> Result<Checked, Status>
    ensures read { IfOk result (λ spec.
        IfSome (H.view host.old).told (λ t. IsDescriptionAt t path.now spec)) }
    ensures only { IfOk result (λ spec.
        IfSome (H.view host.old).told (λ t. IsOnlyDescriptionAt t path.now spec)) }
    ensures same { ReadsOnly (H.view host.old) (H.view host.new) }
    ensures fit { AsksAt path.now (H.view host.old) (H.view host.new) }
    ensures ends { IfErr result
        (ReadEnds (description_reading path.now) (H.view host.old) (H.view host.new)) }
{
    let text = read_text(alloc, host, path, SOURCE_LIMIT as u64)?;
    let spec = match description_of(alloc, &text) {
        Ok(spec) => spec,
        Err(fault) => return Err(fault.at(SPEC_WORD)),
    };
    Ok(spec)
}
