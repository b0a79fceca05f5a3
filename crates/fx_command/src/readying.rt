//! The stage that sees whether OUT can be written.
ghost use Rattle.std.specs.Prelude.{IfOk, IfErr, IfSome};
ghost use Rattle.fx_outside.specs.Host.{ReadsOnly, AsksAt};
ghost use Rattle.fx_folder.specs.Folder.{IsReady};
ghost use Rattle.fx_command.specs.Out.{IsUnready};

use crate::status::Status;
use fx_folder::{Out, ready};
use fx_outside::{Host, HostText};
use std::alloc::Global;

/// Sees that OUT can be written: that nothing stands there, or an empty folder.
pub fn ready_out<H: Host>(alloc: Global, path: &HostText, host: &mut H) -> Result<Out, Status>
    ensures ready { IfOk result (λ there.
        IfSome (H.view host.old).told (λ t. IsReady t path.now there)) }
    ensures same { ReadsOnly (H.view host.old) (H.view host.new) }
    ensures fit { AsksAt path.now (H.view host.old) (H.view host.new) }
    ensures unready { IfErr result (IsUnready path.now (H.view host.old) (H.view host.new)) }
{
    let there = ready(alloc, host, path)?;
    Ok(there)
}
