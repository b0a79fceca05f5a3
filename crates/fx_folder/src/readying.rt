//! Whether a folder can be written at a path.
ghost use Rattle.std.specs.Prelude.{◌≡◌, true, IfOk, IfErr, IfSome};
ghost use Rattle.fx_outside.specs.Tree.{is_folder_at};
ghost use Rattle.fx_outside.specs.Host.{ReadsOnly, AsksAt, FaultIn};
ghost use Rattle.fx_folder.specs.Folder.{IsReady, IsTaken, ReadyCause};

use crate::fault::SaveFault;
use fx_outside::{Host, HostKind, HostText, Standing};
use std::alloc::Global;

/// What stands where a folder is to be written.
#[derive(Clone, Copy, Debug, PartialEq, Eq)]
pub enum Out {
    /// Nothing: the folder can be made if one stands above.
    Absent,
    /// An empty folder.
    Empty,
}

/// Sees that a folder can be written at a path.
pub fn ready<H: Host>(alloc: Global, host: &mut H, folder: &HostText) -> Result<Out, SaveFault>
    ensures same { ReadsOnly (H.view host.old) (H.view host.new) }
    ensures fit { AsksAt folder.now (H.view host.old) (H.view host.new) }
    ensures ready { IfOk result (λ there.
        IfSome (H.view host.old).told (λ tree. IsReady tree folder.now there)) }
    ensures fault { IfErr result (ReadyCause folder.now (H.view host.old) (H.view host.new)) }
{
    match host.standing(alloc, folder)? {
        Standing::Absent => Ok(Out::Absent),
        Standing::Is(HostKind::Folder) => find_empty(alloc, host, folder),
        Standing::Is(HostKind::File) => Err(SaveFault::NotEmpty),
        Standing::Is(HostKind::Other) => Err(SaveFault::NotEmpty),
    }
}

/// The folder that stands at the path is found to be empty.
fn find_empty<H: Host>(alloc: Global, host: &mut H, folder: &HostText) -> Result<Out, SaveFault>
    requires { IfSome (H.view host.old).told (λ tree. is_folder_at tree folder.now ≡ true) }
    ensures same { ReadsOnly (H.view host.old) (H.view host.new) }
    ensures fit { AsksAt folder.now (H.view host.old) (H.view host.new) }
    ensures ready { IfOk result (λ there.
        IfSome (H.view host.old).told (λ tree. IsReady tree folder.now there)) }
    ensures taken { result ≡ Err SaveFault.NotEmpty
        → IfSome (H.view host.old).told (λ tree. IsTaken tree folder.now) }
    ensures fault { result ≡ Err SaveFault.WriteFault
        → FaultIn folder.now (H.view host.old) (H.view host.new) }
{
    let listing = host.list(alloc, folder)?;
    if listing.len() == 0 {
        return Ok(Out::Empty);
    }
    Err(SaveFault::NotEmpty)
}
