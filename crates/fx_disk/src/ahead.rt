//! Small files, read before they are asked for.
ghost use Rattle.std.specs.Prelude.{◌≡◌, ◌<◌, ◌++◌, ◌∷◌, [], IfSome, OnSome, IfOk, OnOk, option_to_list, reverse, vec_len};
ghost use Rattle.fx_disk.specs.Held.{IsTaken};

use fx_outside::HostText;
use std::alloc::{AllocError, Global};
use std::fs;
use std::io::{self, Read};
use std::rt::Files;

/// A file of more bytes is read when it is asked for.
const MOST_BYTES: u32 = 65_536;

/// About so many bytes of memory are taken by all files that were read ahead.
const ROOM: usize = 33_554_432;

/// What a file takes besides its path and its bytes.
const OVERHEAD: usize = 128;

/// A file's path, and all its bytes.
#[derive(Drop)]
pub struct Held {
    pub path: HostText,
    pub bytes: Vec<u8>,
}

impl Held {
    /// About how many bytes of memory it takes.
    pub fn size(&self) -> usize {
        let path = self.path.as_str().len();
        self.bytes
            .len()
            .saturating_add(path)
            .saturating_add(OVERHEAD)
    }
}

/// All that is left of a file, unless it is more than `most` bytes.
fn read_small<F: Read + Drop>(alloc: Global, file: F, most: u32) -> io::Result<Option<Vec<u8>>>
    ensures { IfOk result (λ found. IfSome found
        (λ bytes. IfSome (F.remaining file) (λ left. bytes.items ≡ left))) }
{
    let mut bytes = Vec::with_capacity(alloc, most as usize + 1)?;
    file.take(most as u64 + 1).read_to_end(&mut bytes)?;
    if bytes.len() > most as usize {
        return Ok(None);
    }
    Ok(Some(bytes))
}

/// The bytes of a file that has so many, unless it has more by now.
fn bytes_of<R: Files>(
    rt: &R,
    alloc: Global,
    path: &HostText,
    len: u32,
) -> io::Result<Option<Vec<u8>>> {
    read_small(alloc, fs::open(rt, path.as_str())?, len)
}

/// A file of so many bytes, if it is small and can be read.
pub fn read_ahead<R: Files>(rt: &R, alloc: Global, path: HostText, len: u64) -> Option<Held>
    ensures { IfSome result (λ held. held.path ≡ path) }
{
    let len = u32::try_from(len).ok()?;
    if len > MOST_BYTES {
        return None;
    }
    match bytes_of(rt, alloc, &path, len) {
        Ok(Some(bytes)) => Some(Held { path, bytes }),
        _ => None,
    }
}

/// Files that were read before they are asked for. The one that a walk comes to next is the last.
#[derive(Drop)]
pub struct Ahead {
    files: Vec<Held>,
    size: usize,
}

impl Ahead {
    /// No files.
    pub fn new(alloc: Global) -> Ahead {
        Ahead {
            files: Vec::new(alloc),
            size: 0,
        }
    }

    /// How many more bytes of memory may be taken.
    pub fn room(&self) -> usize {
        ROOM.saturating_sub(self.size)
    }

    /// Gives all files up.
    pub fn clear(&mut self) {
        self.files.clear();
        self.size = 0;
    }

    /// Adds a file that is the next.
    fn add(&mut self, held: Held) -> Result<(), AllocError>
        ensures { OnOk result (self.new.files.items ≡ self.old.files.items ++ held ∷ []) }
    {
        self.size = self.size.saturating_add(held.size());
        self.files.push(held)?;
        Ok(())
    }

    /// Adds files, of which the first is the next.
    pub fn add_all(&mut self, mut files: Vec<Held>) -> Result<(), AllocError>
        ensures { OnOk result (self.new.files.items ≡ self.old.files.items ++ reverse files.items) }
    {
        while let Some(held) = files.pop() {
            self.add(held)?;
        }
        Ok(())
    }

    /// The next file.
    fn pop(&mut self) -> Option<Held>
        ensures rest { self.old.files.items ≡ self.new.files.items ++ option_to_list result }
        ensures fewer { OnSome result (vec_len self.new.files < vec_len self.old.files) }
    {
        let held = self.files.pop()?;
        self.size = self.size.saturating_sub(held.size());
        Some(held)
    }

    /// The file at this path, if it was read. Those before it in order of path are given up.
    pub fn take(&mut self, path: &HostText) -> Option<Held>
        ensures { IfSome result (IsTaken path.now self.old.files.items self.new.files.items) }
    {
        while let Some(held) = self.pop() {
            if held.path.as_str() == path.as_str() {
                return Some(held);
            }
            if held.path.as_str() > path.as_str() {
                let _ = self.add(held);
                return None;
            }
        }
        None
    }
}
