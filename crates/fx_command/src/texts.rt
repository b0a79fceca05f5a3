//! Reading a whole text of the host into memory.
ghost use Rattle.std.specs.Prelude.{◌≡◌, IfOk, IfErr, IfSome};
ghost use Rattle.fx_outside.specs.Tree.{is_file_at};
ghost use Rattle.fx_outside.specs.Host.{ReadsOnly, AsksAt, FaultAt, HasFailed};
ghost use Rattle.fx_outside.specs.declared.kind.HostFault.TheVariants.{Failed};
ghost use Rattle.fx_command.specs.Texts.{IsReadAt};

use fx_folder::{buffer, read_whole};
use fx_outside::{Host, HostFault, HostText};
use std::alloc::Global;

/// How many bytes are asked for at a time.
const PIECE: usize = 8_192;

/// The bytes of the file at a path, read to its end. Of a file of more than `limit` bytes these are more than `limit` bytes
/// of its front.
pub fn read_text<H: Host>(
    alloc: Global,
    host: &mut H,
    path: &HostText,
    limit: u64,
) -> Result<Vec<u8>, HostFault>
    ensures read { IfOk result (λ text. IfSome (H.view host.old).told
        (λ tree. IsReadAt tree path.now limit text.items)) }
    ensures same { ReadsOnly (H.view host.old) (H.view host.new) }
    ensures fit { AsksAt path.now (H.view host.old) (H.view host.new) }
    ensures failed { IfErr result (λ fault. fault ≡ Failed
        → HasFailed (FaultAt path.now) (λ tree. is_file_at tree path.now)
        (H.view host.old) (H.view host.new)) }
{
    let mut buf = buffer(alloc, PIECE)?;
    read_whole(alloc, host, path, limit, &mut buf)
}
