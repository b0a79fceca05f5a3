//! Folders as filestores.
ghost use Rattle.std.specs.Prelude.{◌≡◌, ◌⊎◌, ◌-◌, ◌<◌, ◌≤◌, length, true, false, min, Ok, Err, IfOk, IfErr, IfSome};
ghost use Rattle.fx_outside.specs.Path.{parts};
ghost use Rattle.fx_outside.specs.Tree.{Lists, is_folder_at, is_file_at, bytes_at};
ghost use Rattle.fx_outside.specs.Host.{ReadsOnly, AsksAt, AsksIn, HasFailed, FaultIn};
ghost use Rattle.fx_table.specs.declared.fault.LoadFault.TheVariants.{ReadFault, NoMemory};
ghost use Rattle.fx_folder.specs.Tables.{AnswersFound, items_in};
ghost use Rattle.fx_folder.specs.Loads.{loads, Loads, LoadCause, AnswersAs};
ghost use Rattle.fx_folder.specs.Reads.{path_below, place_below, ReadsFile};
ghost use Rattle.fx_table.specs.Shaped.{AreShaped};

use crate::building::filestore_of;
use crate::joining::{table_kind, with_table};
use crate::pieces::{buffer, read_whole};
use crate::walking::{Loader, walk};
use fx_outside::{Host, HostText, Listing};
use fx_store::limits::MAX_FILE_BYTES;
use fx_store::{Bytes, Change, Filestore};
use fx_table::{FolderCause, LoadFault};
use std::alloc::{AllocError, Global};

/// How many bytes are read at once.
const CHUNK: usize = 65_536;

/// The file in which a folder keeps its links, and which of its files are executable.
pub(crate) const TABLE: &str = ".forest-links";

/// Loads a folder of any depth, with the links and flags of its table. An entry that can't be loaded is refused with its path;
/// where there are several, it is the first in order of path, and the table comes last.
pub fn load<H: Host>(alloc: Global, host: &mut H, folder: &HostText) -> Result<Filestore, LoadFault>
    ensures loaded { IfOk result (λ s.
        IfSome (H.view host.old).told (λ tree. Loads tree folder.now s.nodes)) }
    ensures fault { IfErr result (LoadCause folder.now (H.view host.old) (H.view host.new)) }
    ensures same { ReadsOnly (H.view host.old) (H.view host.new) }
    ensures fit { AsksIn folder.now (H.view host.old) (H.view host.new) }
{
    load_folder(alloc, host, folder)
}

fn load_folder<H: Host>(
    alloc: Global,
    host: &mut H,
    folder: &HostText,
) -> Result<Filestore, LoadFault>
    ensures answer { IfSome (H.view host.old).told (λ tree.
        is_folder_at tree folder.now ≡ true → AnswersAs (loads tree folder.now) result) }
    ensures fault { result ≡ Err ReadFault
        → HasFailed (FaultIn folder.now) (λ tree. is_folder_at tree folder.now)
        (H.view host.old) (H.view host.new) }
    ensures missing { IfSome (H.view host.old).told (λ tree.
        is_folder_at tree folder.now ≡ false → (result ≡ Err ReadFault) ⊎ (result ≡ Err NoMemory)) }
    ensures same { ReadsOnly (H.view host.old) (H.view host.new) }
    ensures fit { AsksIn folder.now (H.view host.old) (H.view host.new) }
{
    let names = host.list(alloc, folder)?;
    let mut buf = buffer(alloc, CHUNK)?;
    let found = find_all(alloc, host, folder, &names, &mut buf)?;
    Ok(filestore_of(alloc, found)?)
}

/// Everything in a folder that has this listing, with the links and flags of its table.
fn find_all<H: Host>(
    alloc: Global,
    host: &mut H,
    folder: &HostText,
    names: &Listing,
    buf: &mut [u8],
) -> Result<Vec<Change>, LoadFault>
    requires room { 0 < length buf.old }
    requires told { IfSome (H.view host.old).told (λ tree.
        (is_folder_at tree folder.now ≡ true) × Lists tree (parts folder.now) names.now) }
    ensures shaped { IfOk result (λ all. AreShaped all.items) }
    ensures answer { IfSome (H.view host.old).told (λ tree.
        AnswersFound tree (parts folder.now) (items_in result)) }
    ensures fault { result ≡ Err ReadFault
        → FaultIn folder.now (H.view host.old) (H.view host.new) }
    ensures same { ReadsOnly (H.view host.old) (H.view host.new) }
    ensures fit { AsksIn folder.now (H.view host.old) (H.view host.new) }
{
    let table = table_kind(alloc, names)?;
    let walked = walk(alloc, host, folder, names, buf)?;
    match table {
        Some(kind) => with_table(host, folder, kind, walked, buf),
        None => Ok(all_of(walked)),
    }
}

fn all_of(walked: Loader) -> Vec<Change>
    ensures { result.items ≡ walked.found.items }
{
    let Loader { found, .. } = walked;
    found
}

/// Reads a file of a folder, unless it has more bytes than are left.
pub(crate) fn read_file<H: Host>(
    alloc: Global,
    host: &mut H,
    folder: &HostText,
    name: &HostText,
    left: u64,
    buf: &mut [u8],
) -> Result<Bytes, LoadFault>
    requires room { 0 < length buf.old }
    requires file { IfSome (H.view host.old).told (λ tree.
        is_file_at tree (path_below folder.now name.now) ≡ true) }
    ensures answer { IfSome (H.view host.old).told (λ tree.
        ReadsFile left name.now (bytes_at tree (path_below folder.now name.now)) result) }
    ensures short { IfOk result (λ bytes. length bytes ≤ left) }
    ensures fault { result ≡ Err ReadFault
        → FaultIn folder.now (H.view host.old) (H.view host.new) }
    ensures same { ReadsOnly (H.view host.old) (H.view host.new) }
    ensures fit { AsksAt (path_below folder.now name.now) (H.view host.old) (H.view host.new) }
{
    let path = path_below(alloc, folder, name)?;
    let limit = left.min(MAX_FILE_BYTES as u64);
    let bytes = read_whole(alloc, host, &path, limit, buf)?;
    if bytes.len() as u64 > limit {
        return Err(LoadFault::Refused(FolderCause::TooLarge(below_folder(alloc, name)?)));
    }
    Ok(Bytes::from_vec(bytes).share(alloc)?)
}

/// The host path of an entry of a folder.
pub(crate) fn path_below(
    alloc: Global,
    folder: &HostText,
    name: &HostText,
) -> Result<HostText, AllocError>
    ensures { IfOk result (λ path. path ≡ path_below folder.now name.now) }
{
    let folder = folder.as_str();
    let name = name.as_str();
    let room = folder.len().saturating_add(name.len()).saturating_add(1);
    let mut path = String::with_capacity(alloc, room)?;
    path.push_str(folder)?;
    path.push_str("/")?;
    path.push_str(name)?;
    Ok(HostText::from_string(path))
}

/// The path of an entry below its folder, as refusals name it.
pub(crate) fn below_folder(alloc: Global, name: &HostText) -> Result<HostText, AllocError>
    ensures { IfOk result (λ path. path ≡ place_below name.now) }
{
    let mut path = String::from_str(alloc, "/")?;
    path.push_str(name.as_str())?;
    Ok(HostText::from_string(path))
}
