//! What is known inside an attempt.
ghost use Rattle.fx_view.specs.Own.{AreRead};

use fx_base::NoMemory;
use fx_store::{Bytes, Changes, LinkText, Names, Node, Path};
use fx_view::{Known, Overlay, Reader, Reads, look};
use std::alloc::Global;
use std::fmt::Write;

#[derive(Clone, Copy)]
enum Kind {
    Nothing,
    /// An empty directory.
    Dir,
    /// A file of one byte.
    File(u8),
    Link(&'static [u8]),
}

/// A path, and what stands there.
type Line = (&'static [u8], Kind);

const READ: &[Line] = &[
    (b"/d", Kind::Dir),
    (b"/f", Kind::File(b'f')),
    (b"/l", Kind::Link(b"gone")),
    (b"/gone", Kind::Nothing),
];

/// Of these a link and a file are not as they were read.
const PUT: &[Line] = &[
    (b"/l", Kind::Link(b"d")),
    (b"/gone", Kind::Nothing),
    (b"/d", Kind::Dir),
    (b"/f", Kind::File(b'g')),
];

fn path_of(alloc: Global, text: &[u8]) -> Result<Path, NoMemory> {
    match Path::read(alloc, text) {
        Ok(path) => Ok(path),
        Err(_) => Err(NoMemory),
    }
}

fn link(alloc: Global, text: &[u8]) -> Result<Node, NoMemory> {
    match LinkText::read(alloc, text) {
        Ok(text) => Ok(Node::Link(text)),
        Err(_) => Err(NoMemory),
    }
}

fn file(alloc: Global, byte: u8) -> Result<Node, NoMemory> {
    let bytes = Bytes::from_vec(Vec::from_slice(alloc, &[byte])?);
    Ok(Node::File { bytes, exec: false })
}

fn node_of(alloc: Global, kind: Kind) -> Result<Option<Node>, NoMemory> {
    match kind {
        Kind::Nothing => Ok(None),
        Kind::Dir => Ok(Some(Node::Dir(Names::new(alloc)))),
        Kind::File(byte) => Ok(Some(file(alloc, byte)?)),
        Kind::Link(text) => Ok(Some(link(alloc, text)?)),
    }
}

/// Adds a path, unless it is there.
fn note(alloc: Global, reads: &mut Reads, line: &Line) -> Result<(), NoMemory> {
    let path = path_of(alloc, line.0)?;
    if reads.get(&path).is_some() {
        return Ok(());
    }
    let node = node_of(alloc, line.1)?;
    reads.add(alloc, path, node, 7)
}

fn some_reads(alloc: Global) -> Result<Reads, NoMemory> {
    let mut reads = Reads::new(alloc);
    for line in READ {
        note(alloc, &mut reads, line)?;
    }
    Ok(reads)
}

/// Puts an own change at a path that was read.
fn set(alloc: Global, own: &mut Overlay, reads: &Reads, line: &Line) -> Result<(), NoMemory>
    requires { AreRead own.old reads.now }
    ensures { AreRead own.new reads.now }
{
    let path = path_of(alloc, line.0)?;
    let Some(_) = reads.get(&path) else {
        return Ok(());
    };
    let node = node_of(alloc, line.1)?;
    own.put(alloc, path, node)?;
    Ok(())
}

fn net(alloc: Global, reads: &Reads) -> Result<Changes, NoMemory> {
    let mut own = Overlay::new(alloc);
    for line in PUT {
        set(alloc, &mut own, reads, line)?;
    }
    own.changes(alloc, reads)
}

fn is_the_file(path: &Path) -> bool {
    match path.name(0) {
        Some(name) => path.len() == 1 && name.as_slice() == b"f".as_slice(),
        None => false,
    }
}

/// How many changes there are, and whether the first one is at the file.
fn counted(changes: &Changes) -> (u64, bool) {
    match changes.at(0) {
        Some(change) => (changes.len(), is_the_file(&change.path)),
        None => (0, false),
    }
}

fn net_told(alloc: Global) -> Result<(u64, bool), NoMemory> {
    let reads = some_reads(alloc)?;
    Ok(counted(&net(alloc, &reads)?))
}

fn is_seen(alloc: Global, reader: &mut Known, own: &Overlay, path: &Path) -> bool {
    match look(alloc, reader, own, path) {
        Ok(node) => node.is_some(),
        Err(_) => false,
    }
}

/// Whether a path has been read, and whether a node is seen there.
fn standing(
    alloc: Global,
    reader: &mut Known,
    own: &Overlay,
    text: &[u8],
) -> Result<(bool, bool), NoMemory> {
    let path = path_of(alloc, text)?;
    let is_read = reader.read(alloc, &path).is_ok();
    Ok((is_read, is_seen(alloc, reader, own, &path)))
}

/// A path, whether it has been read, and whether a node is seen there.
const KNOWN: &[(&[u8], (bool, bool))] = &[
    (b"/gone", (true, false)),
    (b"/other", (false, false)),
    (b"/d", (true, true)),
];

fn is_known(alloc: Global, reader: &mut Known) -> Result<bool, NoMemory> {
    let own = Overlay::new(alloc);
    for (path, want) in KNOWN {
        if standing(alloc, reader, &own, path)? != *want {
            return Ok(false);
        }
    }
    Ok(true)
}

/// How many paths have been read, and how many where these were taken.
fn counts(alloc: Global, reader: &mut Known) -> (u64, u64) {
    let reads = reader.take_reads(alloc);
    (reads.len(), reader.take_reads(alloc).len())
}

/// Whether it is known what was read, and then the counts.
fn known_told(alloc: Global) -> Result<(bool, (u64, u64)), NoMemory> {
    let mut reader = Known::new(some_reads(alloc)?);
    let known = is_known(alloc, &mut reader)?;
    Ok((known, counts(alloc, &mut reader)))
}

/// Tells which own changes differ from what was read, and what is known in an attempt.
pub fn tell_known(alloc: Global, out: &mut String) -> Result<(), NoMemory> {
    writeln!(out, "> net {:?}", net_told(alloc)?)?;
    writeln!(out, "> known {:?}", known_told(alloc)?)?;
    Ok(())
}
