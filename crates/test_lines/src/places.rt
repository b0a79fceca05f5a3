//! Entries that are put into a host in memory.

use fx_base::NoMemory;
use fx_outside::{HostKind, HostText, MemoryHost};
use std::alloc::Global;

/// A text as hosts take one.
pub fn host_text(alloc: Global, text: &str) -> Result<HostText, NoMemory> {
    Ok(HostText::from_string(String::from_str(alloc, text)?))
}

/// Puts an entry where nothing stands and a folder stands above, and says whether it did.
pub fn put(
    alloc: Global,
    host: &mut MemoryHost,
    path: &str,
    kind: HostKind,
    bytes: &[u8],
) -> Result<bool, NoMemory> {
    let path = host_text(alloc, path)?;
    if !host.is_free(alloc, &path)? {
        return Ok(false);
    }
    match kind {
        HostKind::File => host.put(alloc, &path, HostKind::File, bytes)?,
        HostKind::Folder => host.put(alloc, &path, HostKind::Folder, b"")?,
        HostKind::Other => host.put(alloc, &path, HostKind::Other, b"")?,
    }
    Ok(true)
}
