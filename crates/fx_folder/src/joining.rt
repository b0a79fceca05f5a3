//! The table of a folder, and what was found with its lines.
ghost use Rattle.std.specs.Prelude.{◌≡◌, ◌<◌, length, true, Ok, Err, IfOk, IfErr, IfSome};
ghost use Rattle.std.specs.FinMap.{get};
ghost use Rattle.fx_outside.specs.Host.{ReadsOnly, AsksAt, AsksIn, FaultIn};
ghost use Rattle.fx_outside.specs.Path.{parts};
ghost use Rattle.fx_outside.specs.Tree.{is_folder_at, is_file_at, bytes_at};
ghost use Rattle.fx_table.specs.declared.fault.LoadFault.TheVariants.{ReadFault};
ghost use Rattle.fx_folder.specs.Grown.{AreFoundChanges};
ghost use Rattle.fx_table.specs.Places.{table_name};
ghost use Rattle.fx_table.specs.Lines.{standing_by, LinesCause};
ghost use Rattle.fx_folder.specs.Reads.{path_below};
ghost use Rattle.fx_table.specs.Shaped.{AreShaped};
ghost use Rattle.fx_folder.specs.Tables.{table_text_or_cause, AnswersText, AnswersFound, HasTable, IsJoined, room_behind, items_in};
ghost use Rattle.fx_folder.specs.Walks.{AnswersWalk};

use crate::limits::{MAX_NODES, MAX_TABLE};
use crate::loading::TABLE;
use crate::pieces::read_whole;
use crate::saving::table_below;
use crate::walking::Loader;
use fx_base::NoMemory;
use fx_outside::{Host, HostKind, HostText, Listing};
use fx_store::{Change, Changes};
use fx_table::{FolderCause, LoadFault, Room, merged, read_lines, table_place};
use std::alloc::Global;

/// The kind of a folder's table, if it has one.
pub(crate) fn table_kind(alloc: Global, names: &Listing) -> Result<Option<HostKind>, NoMemory>
    ensures { IfOk result (λ kind. kind ≡ get names.now table_name) }
{
    let name = HostText::from_string(String::from_str(alloc, TABLE)?);
    match names.get(&name) {
        Some(kind) => Ok(Some(*kind)),
        None => Ok(None),
    }
}

/// What was walked of a folder, with the links and flags of its table, which is of this kind.
pub(crate) fn with_table<H: Host>(
    host: &mut H,
    folder: &HostText,
    kind: HostKind,
    walked: Loader,
    buf: &mut [u8],
) -> Result<Vec<Change>, LoadFault>
    requires room { 0 < length buf.old }
    requires folder { IfSome (H.view host.old).told (λ tree. is_folder_at tree folder.now ≡ true) }
    requires table { IfSome (H.view host.old).told (λ tree. HasTable tree (parts folder.now) kind) }
    requires walked { IfSome (H.view host.old).told (λ tree.
        AnswersWalk tree (parts folder.now) (Ok walked)) }
    requires found { AreFoundChanges walked.found.items }
    ensures shaped { IfOk result (λ all. AreShaped all.items) }
    ensures answer { IfSome (H.view host.old).told (λ tree.
        AnswersFound tree (parts folder.now) (items_in result)) }
    ensures fault { result ≡ Err ReadFault
        → FaultIn folder.now (H.view host.old) (H.view host.new) }
    ensures same { ReadsOnly (H.view host.old) (H.view host.new) }
    ensures fit { AsksIn folder.now (H.view host.old) (H.view host.new) }
{
    let text = read_text(walked.alloc, host, folder, kind, buf)?;
    joined(walked, &text)
}

/// What was walked, with the links and flags of a table's text.
fn joined(walked: Loader, text: &[u8]) -> Result<Vec<Change>, LoadFault>
    requires { AreFoundChanges walked.found.items }
    ensures shaped { IfOk result (λ all. AreShaped all.items) }
    ensures joined { IfOk result
        (λ all. IsJoined walked.found.items walked.left text.now all.items) }
    ensures cause { IfErr result (LinesCause (standing_by walked.found.items)
        (room_behind walked.found.items walked.left) text.now) }
{
    let Loader { alloc, found, left } = walked;
    let room = Room {
        links: MAX_NODES.saturating_sub(found.len() as u64),
        bytes: left,
    };
    let found = Changes::from_vec(found);
    let lines = read_lines(alloc, text, &found, room)?;
    Ok(merged(alloc, found.into_vec(), lines)?)
}

/// The text of a folder's table, which is of this kind.
fn read_text<H: Host>(
    alloc: Global,
    host: &mut H,
    folder: &HostText,
    kind: HostKind,
    buf: &mut [u8],
) -> Result<Vec<u8>, LoadFault>
    requires room { 0 < length buf.old }
    requires folder { IfSome (H.view host.old).told (λ tree. is_folder_at tree folder.now ≡ true) }
    requires table { IfSome (H.view host.old).told (λ tree. HasTable tree (parts folder.now) kind) }
    ensures answer { IfSome (H.view host.old).told (λ tree.
        AnswersText (table_text_or_cause kind (bytes_at tree (path_below folder.now table_name)))
        (items_in result)) }
    ensures fault { result ≡ Err ReadFault
        → FaultIn folder.now (H.view host.old) (H.view host.new) }
    ensures same { ReadsOnly (H.view host.old) (H.view host.new) }
    ensures fit { AsksIn folder.now (H.view host.old) (H.view host.new) }
{
    match kind {
        HostKind::File => read_table_file(alloc, host, folder, buf),
        HostKind::Folder => Err(LoadFault::Refused(FolderCause::Strange(table_place(alloc)?))),
        HostKind::Other => Err(LoadFault::Refused(FolderCause::Strange(table_place(alloc)?))),
    }
}

fn read_table_file<H: Host>(
    alloc: Global,
    host: &mut H,
    folder: &HostText,
    buf: &mut [u8],
) -> Result<Vec<u8>, LoadFault>
    requires room { 0 < length buf.old }
    requires file { IfSome (H.view host.old).told (λ tree.
        is_file_at tree (path_below folder.now table_name) ≡ true) }
    ensures answer { IfSome (H.view host.old).told (λ tree. AnswersText
        (table_text_or_cause HostKind.File (bytes_at tree (path_below folder.now table_name)))
        (items_in result)) }
    ensures fault { result ≡ Err ReadFault
        → FaultIn folder.now (H.view host.old) (H.view host.new) }
    ensures same { ReadsOnly (H.view host.old) (H.view host.new) }
    ensures fit { AsksAt (path_below folder.now table_name) (H.view host.old) (H.view host.new) }
{
    let path = table_below(alloc, folder)?;
    let text = read_whole(alloc, host, &path, MAX_TABLE, buf)?;
    if text.len() as u64 > MAX_TABLE {
        return Err(LoadFault::Refused(FolderCause::TooLarge(table_place(alloc)?)));
    }
    Ok(text)
}
