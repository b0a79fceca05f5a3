//! The walk through a folder: its entries in order of path, each folder's before its next sibling.
ghost use Rattle.std.specs.Prelude.{◌≡◌, ◌<◌, ◌≤◌, ◌+◌, ◌++◌, ◌∷◌, [], length, true, Ok, Err, IfOk, IfErr, OnOk, IfSome};
ghost use Rattle.std.specs.FinMap.{entries};
ghost use Rattle.fx_outside.specs.Path.{parts};
ghost use Rattle.fx_outside.specs.Tree.{Lists, is_folder_at, is_file_at, bytes_at};
ghost use Rattle.fx_outside.specs.Host.{ReadsOnly, AsksAt, AsksIn, FaultIn};
ghost use Rattle.fx_store.specs.Names.{IsPath};
ghost use Rattle.fx_table.specs.declared.fault.LoadFault.TheVariants.{ReadFault};
ghost use Rattle.fx_table.specs.Places.{place_of};
ghost use Rattle.fx_folder.specs.Deep.{in_table};
ghost use Rattle.fx_folder.specs.Grown.{IsFoundNode, AreFoundChanges, IsWalking, FindsItem};
ghost use Rattle.fx_folder.specs.Walks.{item_path, items_of, held_of, AnswersEntry, IsThere, IsEntered, AnswersWalk, WalkCause, IsNoRefusal, AddsItems, PassesPath, AnswersFile, size_of};
ghost use Rattle.fx_folder.specs.Reads.{path_below};

use crate::limits::{MAX_BYTES, MAX_NODES};
use crate::loading::{TABLE, below_folder, path_below, read_file};
use fx_base::NoMemory;
use fx_outside::{Host, HostKind, HostText, Listing};
use fx_store::limits::MAX_FILE_BYTES;
use fx_store::{Change, Name, Names, Node, Path, PathFault};
use fx_table::{FolderCause, LoadFault, Parent};
use std::alloc::Global;

/// An entry that is still to be walked: its folder, its name and its kind.
#[derive(Debug, Drop)]
pub struct Item {
    pub parent: Parent,
    pub name: HostText,
    pub kind: HostKind,
}

/// Loads a folder: everything that was found so far, in order of path, files and directories that list no names yet. So many
/// bytes may still be loaded.
#[derive(Debug, Drop)]
pub struct Loader {
    pub alloc: Global,
    pub found: Vec<Change>,
    pub left: u64,
}

/// Walks a folder that has this listing.
pub(crate) fn walk<H: Host>(
    alloc: Global,
    host: &mut H,
    folder: &HostText,
    names: &Listing,
    buf: &mut [u8],
) -> Result<Loader, LoadFault>
    requires room { 0 < length buf.old }
    requires told { IfSome (H.view host.old).told (λ tree.
        (is_folder_at tree folder.now ≡ true) × Lists tree (parts folder.now) names.now) }
    ensures answer { IfSome (H.view host.old).told
        (λ tree. AnswersWalk tree (parts folder.now) result) }
    ensures found { IfOk result (λ walked. AreFoundChanges walked.found.items) }
    ensures fault { result ≡ Err ReadFault
        → FaultIn folder.now (H.view host.old) (H.view host.new) }
    ensures same { ReadsOnly (H.view host.old) (H.view host.new) }
    ensures fit { AsksIn folder.now (H.view host.old) (H.view host.new) }
{
    let top = Parent::root(alloc)?;
    let mut todo = Vec::new(alloc);
    add_items(alloc, &top, names, &mut todo)?;
    let mut found = Vec::new(alloc);
    let path = Path::root(alloc);
    let node = Some(Node::Dir(Names::new(alloc)));
    found.push(Change { path, node })?;
    let mut loader = Loader {
        alloc,
        found,
        left: MAX_BYTES,
    };
    loader.walk_items(host, folder, &mut todo, buf)?;
    Ok(loader)
}

impl Loader {
    /// Walks what is left.
    fn walk_items<H: Host>(
        &mut self,
        host: &mut H,
        folder: &HostText,
        todo: &mut Vec<Item>,
        buf: &mut [u8],
    ) -> Result<(), LoadFault>
        requires room { 0 < length buf.old }
        requires folder { IfSome (H.view host.old).told (λ tree.
            is_folder_at tree folder.now ≡ true) }
        requires walking { IsWalking (H.view host.old).told (parts folder.now)
            self.old.found.items self.old.left todo.old.items }
        ensures walking { OnOk result (IsWalking (H.view host.old).told (parts folder.now)
            self.new.found.items self.new.left []) }
        ensures cause { IfErr result (λ fault. IfSome (H.view host.old).told (λ tree.
            WalkCause tree (parts folder.now) fault)) }
        ensures fault { result ≡ Err ReadFault
            → FaultIn folder.now (H.view host.old) (H.view host.new) }
        ensures same { ReadsOnly (H.view host.old) (H.view host.new) }
        ensures fit { AsksIn folder.now (H.view host.old) (H.view host.new) }
    {
        'walking: while let Some(item) = todo.pop() {
            self.walk_item(host, folder, &item, todo, buf)?;
        }
        Ok(())
    }

    /// Walks one item.
    fn walk_item<H: Host>(
        &mut self,
        host: &mut H,
        folder: &HostText,
        item: &Item,
        todo: &mut Vec<Item>,
        buf: &mut [u8],
    ) -> Result<(), LoadFault>
        requires room { 0 < length buf.old }
        requires folder { IfSome (H.view host.old).told (λ tree.
            is_folder_at tree folder.now ≡ true) }
        requires walking { IsWalking (H.view host.old).told (parts folder.now)
            self.old.found.items self.old.left (todo.old.items ++ item.now ∷ []) }
        ensures walking { OnOk result (IsWalking (H.view host.old).told (parts folder.now)
            self.new.found.items self.new.left todo.new.items) }
        ensures cause { IfErr result (λ fault. IfSome (H.view host.old).told (λ tree.
            WalkCause tree (parts folder.now) fault)) }
        ensures count { OnOk result
            (length self.new.found.items ≡ length self.old.found.items + 1) }
        ensures few { OnOk result (length self.old.found.items < MAX_NODES) }
        ensures fault { result ≡ Err ReadFault
            → FaultIn folder.now (H.view host.old) (H.view host.new) }
        ensures same { ReadsOnly (H.view host.old) (H.view host.new) }
        ensures fit { AsksIn folder.now (H.view host.old) (H.view host.new) }
    {
        let change = self.enter(host, folder, item, todo, buf)?;
        self.left -= size_of(&change);
        self.found.push(change)?;
        Ok(())
    }

    /// What an item is loaded as. The entries of a folder become items.
    fn enter<H: Host>(
        &self,
        host: &mut H,
        folder: &HostText,
        item: &Item,
        todo: &mut Vec<Item>,
        buf: &mut [u8],
    ) -> Result<Change, LoadFault>
        requires room { 0 < length buf.old }
        requires there { IfSome (H.view host.old).told (λ tree.
            (is_folder_at tree folder.now ≡ true) × IsThere tree (parts folder.now) item.now) }
        ensures answer { IfSome (H.view host.old).told (λ tree.
            AnswersEntry (length self.now.found.items) self.now.left
            (held_of tree (parts folder.now) item.now) result) }
        ensures entered { OnOk result (IfSome (H.view host.old).told (λ tree.
            IsEntered tree (parts folder.now) (item_path item.now)
            todo.old.items todo.new.items)) }
        ensures found { IfOk result (FindsItem item.now todo.old.items todo.new.items) }
        ensures size { IfOk result (λ change. size_of change ≤ self.now.left) }
        ensures few { OnOk result (length self.now.found.items < MAX_NODES) }
        ensures fault { result ≡ Err ReadFault
            → FaultIn folder.now (H.view host.old) (H.view host.new) }
        ensures same { ReadsOnly (H.view host.old) (H.view host.new) }
        ensures fit { AsksIn folder.now (H.view host.old) (H.view host.new) }
    {
        let text = item.parent.text_of(self.alloc, &item.name)?;
        let path = self.entry_path(item, &text)?;
        match item.kind {
            HostKind::File => self.enter_file(host, folder, &text, path, buf),
            HostKind::Folder => enter_folder(self.alloc, host, folder, &text, path, todo),
            HostKind::Other => Err(LoadFault::Refused(FolderCause::Strange(below_folder(
                self.alloc, &text,
            )?))),
        }
    }

    /// The path of an item, unless it is refused.
    fn entry_path(&self, item: &Item, text: &HostText) -> Result<Path, LoadFault>
        requires text { 47 ∷ text.now ≡ place_of (item_path item.now) }
        ensures path { PassesPath (length self.now.found.items) (item_path item.now) result }
        ensures names { IfOk result IsPath }
        ensures few { OnOk result (length self.now.found.items < MAX_NODES) }
    {
        let name = match Name::read(self.alloc, item.name.as_str().as_bytes()) {
            Ok(name) => name,
            Err(PathFault::NoMemory) => return Err(LoadFault::NoMemory),
            Err(PathFault::BadName) => {
                return Err(LoadFault::Refused(FolderCause::BadName(below_folder(
                    self.alloc, text,
                )?)));
            }
            Err(PathFault::TooDeep) => unreachable!(),
        };
        let nodes = self.found.len() as u64;
        if nodes >= MAX_NODES {
            return Err(LoadFault::Refused(FolderCause::TooLarge(below_folder(self.alloc, text)?)));
        }
        match item.parent.path().join(self.alloc, &name) {
            Ok(path) => {
                prove!(path.len() <= 64);
                Ok(path)
            }
            Err(PathFault::NoMemory) => Err(LoadFault::NoMemory),
            Err(PathFault::TooDeep) => Err(LoadFault::Refused(FolderCause::TooLarge(below_folder(
                self.alloc, text,
            )?))),
            Err(PathFault::BadName) => unreachable!(),
        }
    }

    /// The file at a text below the folder.
    fn enter_file<H: Host>(
        &self,
        host: &mut H,
        folder: &HostText,
        text: &HostText,
        path: Path,
        buf: &mut [u8],
    ) -> Result<Change, LoadFault>
        requires room { 0 < length buf.old }
        requires text { 47 ∷ text.now ≡ place_of path }
        requires file { IfSome (H.view host.old).told
            (λ tree. is_file_at tree (path_below folder.now text.now) ≡ true) }
        ensures answer { IfSome (H.view host.old).told (λ tree. AnswersFile self.now.left path
            (bytes_at tree (path_below folder.now text.now)) result) }
        ensures found { IfOk result (λ change. (change.path ≡ path) × IsFoundNode change.node) }
        ensures size { IfOk result (λ change. size_of change ≤ self.now.left) }
        ensures fault { result ≡ Err ReadFault
            → FaultIn folder.now (H.view host.old) (H.view host.new) }
        ensures same { ReadsOnly (H.view host.old) (H.view host.new) }
        ensures fit { AsksAt (path_below folder.now text.now) (H.view host.old) (H.view host.new) }
    {
        let bytes = read_file(self.alloc, host, folder, text, self.left, buf)?;
        prove!(bytes.as_slice().len() <= MAX_FILE_BYTES);
        Ok(Change {
            path,
            node: Some(Node::File { bytes, exec: false }),
        })
    }
}

/// The folder at a text below the folder, whose entries become items.
fn enter_folder<H: Host>(
    alloc: Global,
    host: &mut H,
    folder: &HostText,
    text: &HostText,
    path: Path,
    todo: &mut Vec<Item>,
) -> Result<Change, LoadFault>
    requires text { 47 ∷ text.now ≡ place_of path }
    requires folder { IfSome (H.view host.old).told (λ tree.
        is_folder_at tree (path_below folder.now text.now) ≡ true) }
    ensures change { IfOk result
        (λ change. change ≡ record { path = path; node = Some (Node.Dir []) }) }
    ensures todo { OnOk result
        (AddsItems (H.view host.old).told (path_below folder.now text.now) path
        todo.old.items todo.new.items) }
    ensures cause { IfErr result IsNoRefusal }
    ensures fault { result ≡ Err ReadFault
        → FaultIn folder.now (H.view host.old) (H.view host.new) }
    ensures same { ReadsOnly (H.view host.old) (H.view host.new) }
    ensures fit { AsksAt (path_below folder.now text.now) (H.view host.old) (H.view host.new) }
{
    let place = path_below(alloc, folder, text)?;
    let names = host.list(alloc, &place)?;
    let parent = Parent::new(alloc, &path, text)?;
    add_items(alloc, &parent, &names, todo)?;
    Ok(Change {
        path,
        node: Some(Node::Dir(Names::new(alloc))),
    })
}

/// The entries of a folder become items, all but the table, with the first name at the end.
fn add_items(
    alloc: Global,
    parent: &Parent,
    names: &Listing,
    todo: &mut Vec<Item>,
) -> Result<(), NoMemory>
    ensures { OnOk result
        (todo.new.items ≡ todo.old.items ++ items_of parent.now (entries names.now)) }
{
    for i in (0..names.len()).rev() {
        let Some((name, kind)) = names.at(i) else {
            unreachable!()
        };
        if !is_table(parent, name) {
            todo.push(new_item(alloc, parent, name, *kind)?)?;
        }
    }
    Ok(())
}

/// Whether an entry is the table of the folder.
fn is_table(parent: &Parent, name: &HostText) -> bool
    ensures { result ≡ in_table (parent.now ++ name.now ∷ []) }
{
    if parent.path().len() > 0 {
        return false;
    }
    name.as_str() == TABLE
}

fn new_item(
    alloc: Global,
    parent: &Parent,
    name: &HostText,
    kind: HostKind,
) -> Result<Item, NoMemory>
    ensures { IfOk result (λ i. i ≡ record { parent = parent.now; name = name.now; kind = kind }) }
{
    Ok(Item {
        parent: parent.copy()?,
        name: name.copy(alloc)?,
        kind,
    })
}

/// How many bytes a change puts into a file.
fn size_of(change: &Change) -> u64
    ensures { result ≡ size_of change.now }
{
    match &change.node {
        Some(Node::File { bytes, .. }) => bytes.len(),
        Some(Node::Dir(_)) => 0,
        Some(Node::Link(_)) => 0,
        None => 0,
    }
}
