//! Reading a file to its end.
ghost use Rattle.std.specs.Prelude.{◌≡◌, ◌<◌, IfOk, IfErr, IfSome, length};
ghost use Rattle.fx_outside.specs.Tree.{is_file_at};
ghost use Rattle.fx_outside.specs.Host.{ReadsOnly, AsksAt, FaultAt, HasFailed};
ghost use Rattle.fx_outside.specs.declared.kind.HostFault.TheVariants.{Failed};
ghost use Rattle.fx_folder.specs.Reads.{IsReadAt};

use fx_outside::{Host, HostFault, HostText};
use std::alloc::{AllocError, Global};

/// A buffer for reads, of so many bytes.
pub fn buffer(alloc: Global, size: usize) -> Result<Vec<u8>, AllocError>
    ensures { IfOk result (λ buf. length buf.items ≡ size) }
{
    vec![in alloc; 0; size]
}

/// The bytes of the file at a path, read to its end by way of a buffer. Of a file of more than `limit` bytes these are
/// more than `limit` bytes of its front, so that the caller can tell.
pub fn read_whole<H: Host>(
    alloc: Global,
    host: &mut H,
    path: &HostText,
    limit: u64,
    buf: &mut [u8],
) -> Result<Vec<u8>, HostFault>
    requires { 0 < length buf.old }
    ensures read { IfOk result (λ text. IfSome (H.view host.old).told
        (λ tree. IsReadAt tree path.now limit text.items)) }
    ensures same { ReadsOnly (H.view host.old) (H.view host.new) }
    ensures fit { AsksAt path.now (H.view host.old) (H.view host.new) }
    ensures failed { IfErr result (λ fault. fault ≡ Failed
        → HasFailed (FaultAt path.now) (λ tree. is_file_at tree path.now)
        (H.view host.old) (H.view host.new)) }
{
    let mut text = Vec::new(alloc);
    'reading: while text.len() as u64 <= limit {
        let count = host.read(alloc, path, text.len() as u64, buf)?;
        if count == 0 {
            return Ok(text);
        }
        text.extend_from_slice(&buf[..count])?;
    }
    Ok(text)
}
