//! The filestore.
ghost use Rattle.std.specs.Prelude.{◌≡◌, ◌<◌, ◌≤◌, ◌+◌, ◌*◌, ◌++◌, ◌∷◌, [], false, Some, Ok, map, replicate, length, codes, IfOk, OnOk};
ghost use Rattle.std.specs.List.{flat_map, range_with_len};
ghost use Rattle.fx_store.specs.Names.{IsName};
ghost use Rattle.fx_store.specs.Faults.{read_link};
ghost use Rattle.fx_store.specs.declared.limits.TheConstants.{MAX_FILE_BYTES, MAX_PATH_NAMES};
ghost use Rattle.fx_gen.specs.Draws.{draw, draws_after};
ghost use Rattle.fx_store.specs.declared.node.Node.TheVariants as Node;
ghost use Rattle.fx_gen.specs.Notes.{Placed, project, note_name, projects, note_names, part_names, linked, note, config, made, placed_note, placed_parts, note_changes_to, changes_to, project_changes, nodes};

use crate::draws::Draws;
use crate::lines::two_digits;
use fx_base::{NoMemory, add_bytes};
use fx_store::{Bytes, Change, Changes, Filestore, LinkText, Name, Names, Node, Path, PathFault};
use std::alloc::Global;

/// How many projects there are.
pub const PROJECTS: u32 = 16;

const NOTES: u32 = 8;

/// The name of a project.
fn project(number: u32) -> [u8; 3]
    requires { number < PROJECTS }
    ensures { result ≡ project number }
{
    let [tens, units] = two_digits(number);
    [b'p', tens, units]
}

/// The name of a note of a project.
fn note_name(number: u32) -> [u8; 2]
    requires { number < NOTES }
    ensures { result ≡ note_name number }
{
    [b'n', b'0' + number as u8]
}

/// The name that the bytes are.
fn name(alloc: Global, bytes: &[u8]) -> Result<Name, NoMemory>
    requires { IsName bytes.now }
    ensures { IfOk result (λ n. n ≡ bytes.now) }
{
    match Name::read(alloc, bytes) {
        Ok(name) => Ok(name),
        Err(PathFault::NoMemory) => Err(NoMemory),
        Err(PathFault::BadName | PathFault::TooDeep) => unreachable!(),
    }
}

/// The path of an entry of a directory.
fn below(alloc: Global, dir: &Path, entry: &[u8]) -> Result<Path, NoMemory>
    requires name { IsName entry.now }
    requires room { length dir.now < MAX_PATH_NAMES }
    ensures { IfOk result (λ path. path ≡ dir.now ++ entry.now ∷ []) }
{
    dir.child(alloc, &name(alloc, entry)?)
}

/// The path of an entry of a project's directory.
pub fn project_entry(alloc: Global, number: u32, entry: &[u8]) -> Result<Path, NoMemory>
    requires number { number < PROJECTS }
    requires entry { IsName entry.now }
    ensures { IfOk result (λ path. path ≡ project number ∷ entry.now ∷ []) }
{
    let dir = below(alloc, &Path::root(alloc), &project(number))?;
    below(alloc, &dir, entry)
}

/// Adds what stands at a path.
fn add(changes: &mut Vec<Change>, path: Path, node: Node) -> Result<(), NoMemory>
    ensures { OnOk result (changes.new.items ≡ changes.old.items ++ made (path, node) ∷ []) }
{
    changes.push(Change {
        path,
        node: Some(node),
    })?;
    Ok(())
}

/// Adds a file of a directory.
fn add_file(
    alloc: Global,
    changes: &mut Vec<Change>,
    dir: &Path,
    entry: &[u8],
    bytes: Vec<u8>,
) -> Result<(), NoMemory>
    requires name { IsName entry.now }
    requires room { length dir.now < MAX_PATH_NAMES }
    requires short { length bytes.items ≤ MAX_FILE_BYTES }
    ensures { OnOk result
        (changes.new.items ≡ changes.old.items
        ++ made (dir.now ++ entry.now ∷ [], Node.File bytes.items false) ∷ []) }
{
    let path = below(alloc, dir, entry)?;
    add(
        changes,
        path,
        Node::File {
            bytes: Bytes::from_vec(bytes),
            exec: false,
        },
    )
}

/// Adds a name at the end of a list.
fn add_name(alloc: Global, names: &mut Vec<Name>, bytes: &[u8]) -> Result<(), NoMemory>
    requires { IsName bytes.now }
    ensures { OnOk result (names.new.items ≡ names.old.items ++ bytes.now ∷ []) }
{
    names.push(name(alloc, bytes)?)?;
    Ok(())
}

/// The names of what a project has.
fn parts(alloc: Global) -> Result<Names, NoMemory>
    ensures { IfOk result (λ names. names ≡ part_names) }
{
    let mut names = Vec::new(alloc);
    add_name(alloc, &mut names, b"count")?;
    add_name(alloc, &mut names, b"log")?;
    add_name(alloc, &mut names, b"notes")?;
    Names::from_vec(alloc, names)
}

/// The names of a project's notes.
fn note_names(alloc: Global) -> Result<Names, NoMemory>
    ensures { IfOk result (λ names. names ≡ note_names) }
{
    let mut names = Vec::new(alloc);
    for note in 0..NOTES {
        add_name(alloc, &mut names, &note_name(note))?;
    }
    Names::from_vec(alloc, names)
}

/// The names in the root.
fn top_names(alloc: Global) -> Result<Names, NoMemory>
    ensures { IfOk result (λ names. names ≡ codes "config" ∷ codes "current" ∷ projects) }
{
    let mut names = Vec::new(alloc);
    add_name(alloc, &mut names, b"config")?;
    add_name(alloc, &mut names, b"current")?;
    for number in 0..PROJECTS {
        add_name(alloc, &mut names, &project(number))?;
    }
    Names::from_vec(alloc, names)
}

/// The names of the projects, each on a line.
fn config(alloc: Global) -> Result<Vec<u8>, NoMemory>
    ensures { IfOk result (λ bytes. bytes.items ≡ config) }
{
    let mut bytes = Vec::new(alloc);
    for number in 0..PROJECTS {
        add_bytes(&mut bytes, &project(number))?;
        add_bytes(&mut bytes, b"\n")?;
    }
    Ok(bytes)
}

/// The text of a note: its letter, as often as its length says.
fn note_text(alloc: Global, draws: &mut Draws) -> Result<Vec<u8>, NoMemory>
    requires { draws.old.made < 1000 }
    ensures text { IfOk result (λ bytes. bytes.items ≡ replicate
        (1 + draw draws.old.number draws.old.made 64)
        (97 + draw draws.old.number (draws.old.made + 1) 26)) }
    ensures short { IfOk result (λ bytes. length bytes.items ≤ 64) }
    ensures made { draws.new ≡ draws_after 2 draws.old }
{
    let length = 1 + draws.draw(64);
    let letter = b'a' + draws.draw(26) as u8;
    Ok(vec![in alloc; letter; length as usize]?)
}

/// Adds a note of a project.
#[tactic(auto, unfolding(crate::specs::Notes::note))]
fn add_note(
    alloc: Global,
    changes: &mut Vec<Change>,
    draws: &mut Draws,
    dir: &Path,
    number: u32,
    note: u32,
) -> Result<(), NoMemory>
    requires dir { dir.now ≡ project number ∷ codes "notes" ∷ [] }
    requires number { number < PROJECTS }
    requires note { note < NOTES }
    requires made { draws.old.made ≡ 1 + 2 * (NOTES * number + note) }
    ensures added { OnOk result
        (changes.new.items
        ≡ changes.old.items ++ made (placed_note draws.old.number number note) ∷ []) }
    ensures made { draws.new ≡ draws_after 2 draws.old }
{
    let text = note_text(alloc, draws)?;
    add_file(alloc, changes, dir, &note_name(note), text)
}

/// Adds the notes of a project and their directory.
fn add_notes(
    alloc: Global,
    changes: &mut Vec<Change>,
    draws: &mut Draws,
    dir: &Path,
    number: u32,
) -> Result<(), NoMemory>
    requires dir { dir.now ≡ project number ∷ codes "notes" ∷ [] }
    requires number { number < PROJECTS }
    requires made { draws.old.made ≡ 1 + 2 * (NOTES * number) }
    ensures added { OnOk result
        (changes.new.items
        ≡ changes.old.items ++ made (dir.now, Node.Dir note_names)
        ∷ note_changes_to draws.old.number number NOTES) }
    ensures made { OnOk result (draws.new ≡ draws_after 16 draws.old) }
{
    add(changes, dir.copy(alloc)?, Node::Dir(note_names(alloc)?))?;
    for note in 0..NOTES {
        add_note(alloc, changes, draws, dir, number, note)?;
    }
    Ok(())
}

/// Adds the directory of a project with its count and its empty log.
fn add_parts(alloc: Global, changes: &mut Vec<Change>, dir: &Path) -> Result<(), NoMemory>
    requires { length dir.now < MAX_PATH_NAMES }
    ensures { OnOk result
        (changes.new.items ≡ changes.old.items ++ map made (placed_parts dir.now)) }
{
    add(changes, dir.copy(alloc)?, Node::Dir(parts(alloc)?))?;
    add_file(alloc, changes, dir, b"count", Vec::from_slice(alloc, b"0")?)?;
    let log = below(alloc, dir, b"log")?;
    add(changes, log, Node::Dir(Names::new(alloc)))
}

/// Adds a project.
fn add_project(
    alloc: Global,
    changes: &mut Vec<Change>,
    draws: &mut Draws,
    number: u32,
) -> Result<(), NoMemory>
    requires number { number < PROJECTS }
    requires made { draws.old.made ≡ 1 + 2 * (NOTES * number) }
    ensures added { OnOk result
        (changes.new.items ≡ changes.old.items ++ project_changes draws.old.number number) }
    ensures made { OnOk result (draws.new ≡ draws_after 16 draws.old) }
{
    let dir = below(alloc, &Path::root(alloc), &project(number))?;
    add_parts(alloc, changes, &dir)?;
    let notes = below(alloc, &dir, b"notes")?;
    add_notes(alloc, changes, draws, &notes, number)
}

/// The link text that the bytes are.
fn link_text(alloc: Global, bytes: &[u8]) -> Result<LinkText, NoMemory>
    requires { read_link bytes.now ≡ Ok bytes.now }
    ensures { IfOk result (λ text. text ≡ bytes.now) }
{
    match LinkText::read(alloc, bytes) {
        Ok(text) => Ok(text),
        Err(PathFault::NoMemory) => Err(NoMemory),
        Err(PathFault::BadName | PathFault::TooDeep) => unreachable!(),
    }
}

/// The link to the project that the first draw gives.
#[tactic(auto, unfolding(crate::specs::Notes::linked))]
fn link(alloc: Global, draws: &mut Draws) -> Result<LinkText, NoMemory>
    requires { draws.old.made ≡ 0 }
    ensures link { IfOk result (λ text. text ≡ linked draws.old.number) }
    ensures made { draws.new ≡ draws_after 1 draws.old }
{
    let target = draws.draw(PROJECTS);
    link_text(alloc, &project(target))
}

/// Adds what stands in the root.
fn add_top(alloc: Global, changes: &mut Vec<Change>, draws: &mut Draws) -> Result<(), NoMemory>
    requires { draws.old.made ≡ 0 }
    ensures added { OnOk result
        (changes.new.items ≡ changes.old.items ++ changes_to draws.old.number 0) }
    ensures made { draws.new ≡ draws_after 1 draws.old }
{
    let target = link(alloc, draws)?;
    let root = Path::root(alloc);
    let current = below(alloc, &root, b"current")?;
    add(changes, Path::root(alloc), Node::Dir(top_names(alloc)?))?;
    add_file(alloc, changes, &root, b"config", config(alloc)?)?;
    add(changes, current, Node::Link(target))
}

/// The changes that make the filestore.
fn changes(alloc: Global, draws: &mut Draws) -> Result<Changes, NoMemory>
    requires { draws.old.made ≡ 0 }
    ensures changes { IfOk result (λ changes. changes ≡ changes_to draws.old.number PROJECTS) }
    ensures made { OnOk result (draws.new ≡ draws_after 257 draws.old) }
{
    let mut changes = Vec::new(alloc);
    add_top(alloc, &mut changes, draws)?;
    for number in 0..PROJECTS {
        add_project(alloc, &mut changes, draws, number)?;
    }
    Ok(Changes::from_vec(changes))
}

/// The filestore, which the first draws make.
pub(crate) fn store(alloc: Global, draws: &mut Draws) -> Result<Filestore, NoMemory>
    requires { draws.old.made ≡ 0 }
    ensures nodes { IfOk result (λ store. store.nodes ≡ nodes draws.old.number) }
    ensures made { OnOk result (draws.new ≡ draws_after 257 draws.old) }
{
    let changes = changes(alloc, draws)?;
    let mut store = Filestore::new(alloc)?;
    store.reserve(alloc, &changes)?;
    store.apply(changes);
    Ok(store)
}
