//! Filestores as folders.
ghost use Rattle.std.specs.Prelude.{◌≡◌, ◌≤◌, ◌++◌, ◌∷◌, [], true, Some, Ok, Err, IfOk, IfErr, OnOk, OnErr, IfSome};
ghost use Rattle.std.specs.FinMap.{get, entries};
ghost use Rattle.fx_store.specs.Whole.{IsWhole};
ghost use Rattle.fx_outside.specs.Path.{parts};
ghost use Rattle.fx_outside.specs.Host.{WritesAt, WritesIn, FaultAt, FaultIn};
ghost use Rattle.fx_outside.specs.declared.kind.HostFault.TheVariants.{Failed};
ghost use Rattle.fx_outside.specs.Tree.{is_free_at, file, folder};
ghost use Rattle.fx_folder.specs.declared.fault.SaveFault.TheVariants.{WriteFault, NotEmpty};
ghost use Rattle.fx_table.specs.Places.{place_of, table_name, StandsIn};
ghost use Rattle.fx_table.specs.Entered.{levels_of};
ghost use Rattle.fx_table.specs.Remaining.{AreLevels, IsLeftBelow, left_of};
ghost use Rattle.fx_table.specs.Table.{table_text, lines_of};
ghost use Rattle.fx_folder.specs.Reads.{path_below};
ghost use Rattle.fx_folder.specs.Places.{host_entry};
ghost use Rattle.fx_folder.specs.Folder.{IsReady, IfTold, Saves, SavesPart, SaveCause};
ghost use Rattle.fx_folder.specs.Written.{with_folder, MadePart, IsOpen, with_entry, WrotePart, HasEntries, WroteFront, file_unless_empty, PutsAt, PutsIn};

use crate::SaveFault;
use crate::readying::Out;
use fx_base::NoMemory;
use fx_outside::{Host, HostFault, HostText};
use fx_store::{Filestore, LongText, Node};
use fx_table::{Descent, Entry, TableText};
use std::alloc::Global;

/// Writes a filestore as a folder: the folder itself, unless an empty one is there, then directories and files in the order
/// of paths, and last the table, if there is a link or an executable file. A refusal may leave a part of it, in which the file last begun
/// may hold a prefix of its bytes.
pub fn save<H: Host>(
    alloc: Global,
    host: &mut H,
    folder: &HostText,
    there: Out,
    store: &Filestore,
) -> Result<(), SaveFault>
    requires ready { IfSome (H.view host.old).told (λ tree. IsReady tree folder.now there) }
    ensures saved { OnOk result
        (Saves folder.now store.now.nodes (H.view host.old) (H.view host.new)) }
    ensures part { OnErr result
        (SavesPart folder.now store.now.nodes (H.view host.old) (H.view host.new)) }
    ensures fault { IfErr result (SaveCause folder.now there (H.view host.old) (H.view host.new)) }
    ensures later { (H.view host.old).faults ≤ (H.view host.new).faults }
    ensures fit { WritesIn folder.now (H.view host.old) (H.view host.new) }
{
    let descent = Descent::new(alloc, store)?;
    make_folder(alloc, host, folder, there)?;
    let table = write_entries(alloc, host, folder, store, descent)?;
    add_table(alloc, host, folder, &table)?;
    Ok(())
}

/// Makes the folder, unless it is there: the first step of what makes one.
pub fn make_folder<H: Host>(
    alloc: Global,
    host: &mut H,
    folder: &HostText,
    there: Out,
) -> Result<(), SaveFault>
    requires ready { IfSome (H.view host.old).told (λ tree. IsReady tree folder.now there) }
    ensures made { OnOk result (IfTold (H.view host.old).told (H.view host.new).told
        (λ tree tree'. tree' ≡ with_folder tree (parts folder.now) there)) }
    ensures partly { OnErr result (IfTold (H.view host.old).told (H.view host.new).told
        (λ tree tree'. MadePart tree tree' (parts folder.now) there)) }
    ensures fault { IfErr result (SaveCause folder.now there (H.view host.old) (H.view host.new)) }
    ensures later { (H.view host.old).faults ≤ (H.view host.new).faults }
    ensures fit { WritesAt folder.now (H.view host.old) (H.view host.new) }
{
    match there {
        Out::Empty => Ok(()),
        Out::Absent => Ok(host.make_dir(alloc, folder)?),
    }
}

/// Writes the directories and files of a filestore into an empty folder, in the order of their paths, by a walk that stands
/// at its begin, and gives the text of its table.
fn write_entries<H: Host>(
    alloc: Global,
    host: &mut H,
    folder: &HostText,
    store: &Filestore,
    mut descent: Descent,
) -> Result<LongText, HostFault>
    requires open { IfSome (H.view host.old).told (λ tree. IsOpen tree folder.now) }
    requires whole { IsWhole (get store.now.nodes) }
    requires levels { AreLevels store.now.nodes (levels_of descent) }
    requires left { IsLeftBelow store.now.nodes (left_of store.now.nodes (levels_of descent)) }
    ensures text { IfOk result (λ text. text ≡ table_text (lines_of store.now.nodes)) }
    ensures written { OnOk result (IfTold (H.view host.old).told (H.view host.new).told
        (λ tree tree'. HasEntries tree tree' (parts folder.now) (entries store.now.nodes))) }
    ensures partly { OnErr result (IfTold (H.view host.old).told (H.view host.new).told
        (λ tree tree'. WroteFront tree tree' (parts folder.now) store.now.nodes)) }
    ensures fault { result ≡ Err Failed
        → FaultIn folder.now (H.view host.old) (H.view host.new) }
    ensures later { (H.view host.old).faults ≤ (H.view host.new).faults }
    ensures fit { WritesIn folder.now (H.view host.old) (H.view host.new) }
{
    let mut table = TableText::new(alloc);
    'writing: while let Some(entry) = descent.next(alloc, store)? {
        write_entry(alloc, host, folder, &entry)?;
        table.add(&entry)?;
    }
    Ok(table.into_text(alloc)?)
}

/// Writes what stands at a path of a filestore, unless that is a link.
fn write_entry<H: Host>(
    alloc: Global,
    host: &mut H,
    folder: &HostText,
    entry: &Entry<'_>,
) -> Result<(), HostFault>
    requires parent { StandsIn entry.now.parent entry.now.path }
    requires free { IfSome (H.view host.old).told (λ tree.
        is_free_at tree (folder.now ++ place_of entry.now.path) ≡ true) }
    ensures { PutsIn folder.now entry.now.path (host_entry (Some entry.now.node.now))
        (H.view host.old) (H.view host.new) result }
{
    let place = entry.parent.place_below(alloc, folder, &entry.path)?;
    write_node(alloc, host, &place, entry.node)
}

/// Writes a directory or a file where nothing stands, and nothing for a link.
fn write_node<H: Host>(
    alloc: Global,
    host: &mut H,
    place: &HostText,
    node: &Node,
) -> Result<(), HostFault>
    requires { IfSome (H.view host.old).told (λ tree. is_free_at tree place.now ≡ true) }
    ensures { PutsAt place.now (host_entry (Some node.now)) (H.view host.old) (H.view host.new)
        result }
{
    match node {
        Node::Dir(_) => write_folder(alloc, host, place),
        Node::File { bytes, .. } => put_file(alloc, host, place, bytes.as_slice()),
        Node::Link(_) => Ok(()),
    }
}

/// Makes a folder where nothing stands.
fn write_folder<H: Host>(alloc: Global, host: &mut H, place: &HostText) -> Result<(), HostFault>
    requires { IfSome (H.view host.old).told (λ tree. is_free_at tree place.now ≡ true) }
    ensures { PutsAt place.now (Some folder) (H.view host.old) (H.view host.new) result }
{
    host.make_dir(alloc, place)
}

/// Puts a file where nothing stands.
fn put_file<H: Host>(
    alloc: Global,
    host: &mut H,
    place: &HostText,
    bytes: &[u8],
) -> Result<(), HostFault>
    requires { IfSome (H.view host.old).told (λ tree. is_free_at tree place.now ≡ true) }
    ensures { PutsAt place.now (Some (file bytes.now)) (H.view host.old) (H.view host.new) result }
{
    host.write_new(alloc, place, bytes)
}

/// Writes a file where nothing stands.
pub fn write_file<H: Host>(
    alloc: Global,
    host: &mut H,
    place: &HostText,
    bytes: &[u8],
) -> Result<(), SaveFault>
    requires { IfSome (H.view host.old).told (λ tree. is_free_at tree place.now ≡ true) }
    ensures written { OnOk result (IfTold (H.view host.old).told (H.view host.new).told
        (λ tree tree'. tree' ≡ with_entry tree (parts place.now) (Some (file bytes.now)))) }
    ensures partly { OnErr result (IfTold (H.view host.old).told (H.view host.new).told
        (λ tree tree'. WrotePart tree tree' (parts place.now) (Some (file bytes.now)))) }
    ensures fault { result ≡ Err WriteFault
        → FaultAt place.now (H.view host.old) (H.view host.new) }
    ensures free { result ≡ Err NotEmpty → ⊥ }
    ensures later { (H.view host.old).faults ≤ (H.view host.new).faults }
    ensures fit { WritesAt place.now (H.view host.old) (H.view host.new) }
{
    match host.write_new(alloc, place, bytes) {
        Ok(()) => Ok(()),
        Err(HostFault::Failed) => Err(SaveFault::WriteFault),
        Err(HostFault::NoMemory) => Err(SaveFault::NoMemory),
    }
}

/// Writes the table, whose text this is, if it has any.
fn add_table<H: Host>(
    alloc: Global,
    host: &mut H,
    folder: &HostText,
    text: &LongText,
) -> Result<(), HostFault>
    requires { IfSome (H.view host.old).told (λ tree.
        is_free_at tree (path_below folder.now table_name) ≡ true) }
    ensures { PutsIn folder.now (table_name ∷ []) (file_unless_empty text.now)
        (H.view host.old) (H.view host.new) result }
{
    if text.len() == 0 {
        return Ok(());
    }
    let place = table_below(alloc, folder)?;
    put_file(alloc, host, &place, text.as_slice())
}

/// The host path of the table of a folder.
pub(crate) fn table_below(alloc: Global, folder: &HostText) -> Result<HostText, NoMemory>
    ensures { IfOk result (λ place. place ≡ path_below folder.now table_name) }
{
    let mut text = String::from_str(alloc, folder.as_str())?;
    text.push_str("/.forest-links")?;
    Ok(HostText::from_string(text))
}
