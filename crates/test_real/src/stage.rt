//! What a case runs the program on: the machine's files, words of its own, and a file each for what is printed and for
//! what is said on standard error.

use std::alloc::{Allocator, Global};
use std::env::FillError;
use std::fmt::Display;
use std::fs::{File, Metadata, OpenOptions};
use std::io::{self, ErrorKind, Write};
use std::rt::{Env, Files};
use std::sync::Wait;
use std::thread::Threads;

/// Where the output of a run stands.
pub const PRINTED: &str = "printed";

/// Where the lines on standard error of a run stand.
pub const SAID: &str = "said";

/// The runtime of a run. It prints no more than `room` bytes, and its threads are those of `threads`.
#[derive(Clone, Copy)]
pub struct Stage<'a, T> {
    pub rt: &'a HostRuntime,
    pub threads: &'a T,
    /// The words, with a space between each two.
    pub words: &'a str,
    pub room: u64,
}

/// The word at a place of the command line, the program's name being 0; none in an empty line.
fn word_at(words: &str, i: usize) -> Option<&str> {
    if i == 0 {
        return Some("txforest");
    }
    if words.is_empty() {
        return None;
    }
    words.split(' ').nth(i - 1)
}

/// The file at a path, to be written at its end.
fn appended(rt: &HostRuntime, path: &str) -> io::Result<File> {
    OpenOptions::new().create(true).append(true).open(rt, path)
}

impl<T: Threads> Threads for Stage<'_, T> {}

impl<T: Wait> Wait for Stage<'_, T> {}

impl<T> Alloc for Stage<'_, T> {
    type A = Global;

    fn alloc(&self) -> Global {
        self.rt.alloc()
    }
}

impl<T> Env for Stage<'_, T> {
    fn arg(&self, i: usize, buf: &mut [u8]) -> Result<usize, FillError> {
        let Some(word) = word_at(self.words, i) else {
            return Err(FillError::NotPresent);
        };
        let bytes = word.as_bytes();
        if bytes.len() > buf.len() {
            return Err(FillError::TooLong);
        }
        buf[..bytes.len()].copy_from_slice(bytes);
        Ok(bytes.len())
    }

    fn var(&self, _name: &str, _buf: &mut [u8]) -> Result<usize, FillError> {
        Err(FillError::NotPresent)
    }

    fn var_at(&self, _i: usize, _buf: &mut [u8]) -> Result<usize, FillError> {
        Err(FillError::NotPresent)
    }
}

impl<T> Print for Stage<'_, T> {
    fn print<D: Display + Drop>(&self, _value: D) -> io::Result<()> {
        Err(io::Error::from(ErrorKind::Unsupported))
    }

    fn println<D: Display + Drop>(&self, _value: D) -> io::Result<()> {
        Err(io::Error::from(ErrorKind::Unsupported))
    }

    fn write_all(&self, _bytes: &[u8]) -> io::Result<()> {
        Err(io::Error::from(ErrorKind::Unsupported))
    }

    fn write_some(&self, bytes: &[u8]) -> io::Result<usize> {
        let mut file = appended(self.rt, PRINTED)?;
        let left = self.room.saturating_sub(file.metadata()?.len());
        if left == 0 {
            return Err(io::Error::from(ErrorKind::StorageFull));
        }
        let count = bytes.len().min(left as usize);
        file.write(&bytes[..count])
    }
}

impl<T> Eprint for Stage<'_, T> {
    fn eprint<D: Display + Drop>(&self, value: D) -> io::Result<()> {
        appended(self.rt, SAID)?.write_fmt(value)
    }

    fn eprintln<D: Display + Drop>(&self, value: D) -> io::Result<()> {
        appended(self.rt, SAID)?.writeln(value)
    }
}

impl<T> Files for Stage<'_, T> {
    type File = <HostRuntime as Files>::File;

    type Dir = <HostRuntime as Files>::Dir;

    fn open_file(&self, how: &OpenOptions, path: &str) -> io::Result<Self::File> {
        self.rt.open_file(how, path)
    }

    fn open_dir(&self, path: &str) -> io::Result<Self::Dir> {
        self.rt.open_dir(path)
    }

    fn metadata(&self, path: &str) -> io::Result<Metadata> {
        self.rt.metadata(path)
    }

    fn symlink_metadata(&self, path: &str) -> io::Result<Metadata> {
        self.rt.symlink_metadata(path)
    }

    fn copy(&self, from: &str, to: &str) -> io::Result<u64> {
        self.rt.copy(from, to)
    }

    fn rename(&self, from: &str, to: &str) -> io::Result<()> {
        self.rt.rename(from, to)
    }

    fn remove_file(&self, path: &str) -> io::Result<()> {
        self.rt.remove_file(path)
    }

    fn create_dir(&self, path: &str) -> io::Result<()> {
        self.rt.create_dir(path)
    }

    fn remove_dir(&self, path: &str) -> io::Result<()> {
        self.rt.remove_dir(path)
    }

    fn remove_dir_all<B: Allocator>(&self, alloc: B, path: &str) -> io::Result<()> {
        self.rt.remove_dir_all(alloc, path)
    }
}
