//! A file that is read on where its last read ended.
ghost use Rattle.std.specs.Prelude.{◌≡◌, ◌≤◌, IfOk, IfSome, Some, length};
ghost use Rattle.fx_disk.specs.Held.{left_in, Gives, IsTakenWhole};

use crate::ahead::{Ahead, Held};
use fx_outside::HostText;
use std::alloc::Global;
use std::fs;
use std::io::{self, Cursor, ErrorKind, Read, Seek, SeekFrom};
use std::rt::Files;

/// Where a file's bytes come from.
#[derive(Drop)]
enum Source<F: Drop> {
    Open(F),
    Held(Cursor<Vec<u8>>),
}

/// Of a held file all that is left of it is known.
impl<F: Read + Drop> Read for Source<F> {
    ghost use Rattle.fx_disk.specs.Held.{left_in};

    ghost remaining = { left_in F.remaining };

    fn read(&mut self, buf: &mut [u8]) -> io::Result<usize> {
        match self {
            Source::Open(file) => file.read(buf),
            Source::Held(bytes) => bytes.read(buf),
        }
    }
}

/// A file, and the place at which its next read goes on. It is sought only where it is opened at another place than its
/// front, so that a pipe can be read.
#[derive(Drop)]
pub struct Reading<F: Drop> {
    path: HostText,
    source: Source<F>,
    next: u64,
}

/// Opens a file at a place.
fn open<R: Files>(
    rt: &R,
    alloc: Global,
    path: &HostText,
    from: u64,
) -> io::Result<Reading<R::File>> {
    let path = String::from_str(alloc, path.as_str())?;
    let mut file = fs::open(rt, path.as_str())?;
    if from > 0 {
        file.seek(SeekFrom::Start(from))?;
    }
    Ok(Reading {
        path: HostText::from_string(path),
        source: Source::Open(file),
        next: from,
    })
}

/// One read, tried again where a signal interrupts it.
fn read_some<F: Read>(file: &mut F, buf: &mut [u8]) -> io::Result<usize>
    ensures bound { IfOk result (λ count. count ≤ length buf.new) }
    ensures bytes { IfOk result (λ count. Gives (F.remaining file.old) (F.remaining file.new) count buf.new) }
{
    for _ in 0..u64::MAX {
        match file.read(buf) {
            Ok(count) => return Ok(count),
            Err(error) => {
                if error.kind() != ErrorKind::Interrupted {
                    return Err(error);
                }
            }
        }
    }
    Err(io::Error::from(ErrorKind::Interrupted))
}

impl<F: Read + Drop> Reading<F> {
    /// Whether its next read is one of this file at this place.
    fn goes_on(&self, path: &HostText, from: u64) -> bool {
        self.next == from && self.path == *path
    }

    fn read(&mut self, buf: &mut [u8]) -> io::Result<usize>
        ensures bound { IfOk result (λ count. count ≤ length buf.new) }
        ensures bytes { IfOk result (λ count. Gives (left_in F.remaining self.old.source)
            (left_in F.remaining self.new.source) count buf.new) }
    {
        let count = read_some(&mut self.source, buf)?;
        self.next = self.next.saturating_add(count as u64);
        Ok(count)
    }
}

/// A file that was read ahead, from its front on.
fn held<F: Read + Drop>(held: Held) -> Reading<F>
    ensures path { result.path ≡ held.path }
    ensures bytes { left_in F.remaining result.source ≡ Some held.bytes.items }
{
    let Held { path, bytes } = held;
    Reading {
        path,
        source: Source::Held(Cursor::new(bytes)),
        next: 0,
    }
}

/// The file at a place, if it was read ahead: all its bytes are left.
fn begun<F: Read + Drop>(ahead: &mut Ahead, path: &HostText, from: u64) -> Option<Reading<F>>
    ensures front { IfSome result (λ _. from ≡ 0) }
    ensures path { IfSome result (λ reading. reading.path ≡ path.now) }
    ensures bytes { IfSome result (λ reading. IsTakenWhole path.now ahead.old.files.items
        ahead.new.files.items (left_in F.remaining reading.source)) }
{
    if from > 0 {
        return None;
    }
    Some(held(ahead.take(path)?))
}

/// The file, read on, or as it was read ahead, or opened.
fn reading_at<R: Files>(
    rt: &R,
    alloc: Global,
    ahead: &mut Ahead,
    last: Option<Reading<R::File>>,
    path: &HostText,
    from: u64,
) -> io::Result<Reading<R::File>> {
    match last {
        Some(reading) if reading.goes_on(path, from) => return Ok(reading),
        _ => {}
    }
    match begun(ahead, path, from) {
        Some(reading) => Ok(reading),
        None => open(rt, alloc, path, from),
    }
}

/// Reads bytes of a file from a place on. The file stays open until its end, an error, or a read of something else.
pub fn read_on<R: Files>(
    rt: &R,
    alloc: Global,
    ahead: &mut Ahead,
    last: &mut Option<Reading<R::File>>,
    path: &HostText,
    from: u64,
    buf: &mut [u8],
) -> io::Result<usize>
    ensures { IfOk result (λ count. count ≤ length buf.new) }
{
    let mut reading = reading_at(rt, alloc, ahead, last.take(), path, from)?;
    let count = reading.read(buf)?;
    if count > 0 {
        *last = Some(reading);
    }
    Ok(count)
}
