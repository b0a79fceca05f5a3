//! Files that are slow, and folders that tell strange names.

use fx_disk::Disk;
use fx_outside::{Host, HostText};
use std::alloc::{Allocator, Global};
use std::fs::{self, File, Metadata, OpenFile, OpenOptions};
use std::io::{self, Cursor, ErrorKind, Read, Seek, SeekFrom, Write};
use std::rt::Files;
use std::thread::Threads;

fn host_text(alloc: Global, text: &str) -> io::Result<HostText> {
    Ok(HostText::from_string(String::from_str(alloc, text)?))
}

/// A file of the machine that is interrupted at every second call and can't be sought.
#[derive(Drop)]
struct Slow {
    file: File,
    is_ready: bool,
}

impl Slow {
    fn interrupted(&mut self) -> io::Result<()> {
        self.is_ready = !self.is_ready;
        if self.is_ready {
            Err(io::Error::from(ErrorKind::Interrupted))
        } else {
            Ok(())
        }
    }
}

impl Read for Slow {
    fn read(&mut self, buf: &mut [u8]) -> io::Result<usize> {
        self.interrupted()?;
        self.file.read(buf)
    }
}

impl Write for Slow {
    fn write(&mut self, buf: &[u8]) -> io::Result<usize> {
        self.interrupted()?;
        self.file.write(buf)
    }

    fn flush(&mut self) -> io::Result<()> {
        Ok(())
    }
}

impl Seek for Slow {
    fn seek(&mut self, _to: SeekFrom) -> io::Result<u64> {
        Err(io::Error::from(ErrorKind::NotSeekable))
    }
}

impl OpenFile for Slow {
    fn metadata(&self) -> io::Result<Metadata> {
        self.file.metadata()
    }

    fn set_len(&self, size: u64) -> io::Result<()> {
        self.file.set_len(size)
    }

    fn sync_all(&self) -> io::Result<()> {
        self.file.sync_all()
    }

    fn sync_data(&self) -> io::Result<()> {
        self.file.sync_data()
    }
}

/// The machine's files, slow, where each folder tells these names, with a 0 behind each.
#[derive(Clone, Drop)]
struct Strange {
    rt: HostRuntime,
    names: [u8; 4],
}

impl Alloc for Strange {
    type A = Global;

    fn alloc(&self) -> Global {
        self.rt.alloc()
    }
}

impl Files for Strange {
    type File = Slow;

    type Dir = Cursor<[u8; 4]>;

    fn open_file(&self, how: &OpenOptions, path: &str) -> io::Result<Slow> {
        let file = self.rt.open_file(how, path)?;
        Ok(Slow {
            file,
            is_ready: false,
        })
    }

    fn open_dir(&self, _path: &str) -> io::Result<Cursor<[u8; 4]>> {
        Ok(Cursor::new(self.names))
    }

    fn metadata(&self, path: &str) -> io::Result<Metadata> {
        self.rt.metadata(path)
    }

    fn symlink_metadata(&self, path: &str) -> io::Result<Metadata> {
        self.rt.symlink_metadata(path)
    }

    fn copy(&self, from: &str, to: &str) -> io::Result<u64> {
        self.rt.copy(from, to)
    }

    fn rename(&self, from: &str, to: &str) -> io::Result<()> {
        self.rt.rename(from, to)
    }

    fn remove_file(&self, path: &str) -> io::Result<()> {
        self.rt.remove_file(path)
    }

    fn create_dir(&self, path: &str) -> io::Result<()> {
        self.rt.create_dir(path)
    }

    fn remove_dir(&self, path: &str) -> io::Result<()> {
        self.rt.remove_dir(path)
    }

    fn remove_dir_all<B: Allocator>(&self, alloc: B, path: &str) -> io::Result<()> {
        self.rt.remove_dir_all(alloc, path)
    }
}

/// The host of these files, where each folder tells these names.
fn host_of<'a, T: Threads>(
    rt: &HostRuntime,
    threads: &'a T,
    names: [u8; 4],
) -> io::Result<Disk<Strange, &'a T>> {
    let files = Strange {
        rt: rt.clone()?,
        names,
    };
    Ok(Disk::new(files, rt.clone()?, threads))
}

/// Tells what a new file of these bytes gives at a path.
fn tell_new<H: Host>(
    alloc: Global,
    disk: &mut H,
    path: &str,
    bytes: &[u8],
    out: &mut String,
) -> io::Result<()> {
    let path = host_text(alloc, path)?;
    let done = disk.write_new(alloc, &path, bytes);
    writeln!(out, "write-new {}: {done:?}", path.as_str())?;
    Ok(())
}

/// Makes the folder `g` of two files.
fn tell_making<H: Host>(
    alloc: Global,
    disk: &mut H,
    folder: &HostText,
    out: &mut String,
) -> io::Result<()> {
    let done = disk.make_dir(alloc, folder);
    writeln!(out, "make-dir {}: {done:?}", folder.as_str())?;
    tell_new(alloc, disk, "g/a", b"", out)?;
    tell_new(alloc, disk, "g/b", b"hello", out)
}

/// Tells how a folder is not listed where it tells these names.
fn tell_list<T: Threads>(
    rt: &HostRuntime,
    threads: &T,
    folder: &HostText,
    names: [u8; 4],
    out: &mut String,
) -> io::Result<()> {
    let mut disk = host_of(rt, threads, names)?;
    let fault = disk.list(rt.alloc(), folder).err();
    let faults = disk.faults();
    writeln!(out, "list {names:?}: fault {fault:?}, faults {faults}")?;
    Ok(())
}

/// Tells the listings of a folder where each name stands once, where one is not UTF-8, and where one stands twice.
pub fn tell_lists<T: Threads>(rt: &HostRuntime, threads: &T, out: &mut String) -> io::Result<()> {
    let folder = host_text(rt.alloc(), "g")?;
    tell_making(
        rt.alloc(),
        &mut host_of(rt, threads, *b"a\0b\0")?,
        &folder,
        out,
    )?;
    tell_list(rt, threads, &folder, *b"a\0b\0", out)?;
    tell_list(rt, threads, &folder, *b"a\0\xff\0", out)?;
    tell_list(rt, threads, &folder, *b"a\0a\0", out)
}

/// Tells how many bytes are read from a place on, and the first of them.
fn tell_read<T: Threads>(
    rt: &HostRuntime,
    disk: &mut Disk<Strange, &T>,
    path: &str,
    from: u64,
    out: &mut String,
) -> io::Result<()> {
    let mut buf = [0u8; 4];
    let count = disk.read(rt.alloc(), &host_text(rt.alloc(), path)?, from, &mut buf);
    let first = buf[0];
    let faults = disk.faults();
    writeln!(
        out,
        "read from {from}: {count:?}, first {first}, faults {faults}"
    )?;
    Ok(())
}

/// Reads on, at the end, and from the front again. A read from elsewhere needs a seek.
fn tell_reads<T: Threads>(
    rt: &HostRuntime,
    disk: &mut Disk<Strange, &T>,
    path: &str,
    out: &mut String,
) -> io::Result<()> {
    for from in [0, 4, 5, 0, 1] {
        tell_read(rt, disk, path, from, out)?;
    }
    Ok(())
}

/// Tells what a write and reads give where each is interrupted, and nothing can be sought.
pub fn tell_slow<T: Threads>(rt: &HostRuntime, threads: &T, out: &mut String) -> io::Result<()> {
    let mut disk = host_of(rt, threads, *b"a\0b\0")?;
    tell_new(rt.alloc(), &mut disk, "slow", b"hello", out)?;
    tell_reads(rt, &mut disk, "slow", out)
}

/// Lists the folder `g`, and removes its file `b`.
fn tell_gone<T: Threads>(
    rt: &HostRuntime,
    disk: &mut Disk<Strange, &T>,
    out: &mut String,
) -> io::Result<()> {
    let fault = disk.list(rt.alloc(), &host_text(rt.alloc(), "g")?).err();
    fs::remove_file(rt, "g/b")?;
    writeln!(out, "list g: fault {fault:?}; g/b is removed")?;
    Ok(())
}

/// Tells what is read of a removed file of these bytes, after a listing, and after a write behind a second listing.
fn tell_removed<T: Threads>(
    rt: &HostRuntime,
    disk: &mut Disk<Strange, &T>,
    bytes: &[u8],
    out: &mut String,
) -> io::Result<()> {
    tell_gone(rt, disk, out)?;
    tell_reads(rt, disk, "g/b", out)?;
    tell_new(rt.alloc(), disk, "g/b", bytes, out)?;
    tell_gone(rt, disk, out)?;
    tell_new(rt.alloc(), disk, "g/b", bytes, out)?;
    fs::remove_file(rt, "g/b")?;
    tell_read(rt, disk, "g/b", 0, out)
}

/// Tells that a small file of a listed folder is read with the listing, is given once, and is forgotten at a write. A file
/// of more bytes is read when it is asked for.
pub fn tell_held<T: Threads>(rt: &HostRuntime, threads: &T, out: &mut String) -> io::Result<()> {
    let mut disk = host_of(rt, threads, *b"a\0b\0")?;
    tell_removed(rt, &mut disk, b"hello", out)?;
    let bytes = vec![in rt.alloc(); 104; 65_537]?;
    tell_new(rt.alloc(), &mut disk, "g/b", bytes.as_slice(), out)?;
    tell_gone(rt, &mut disk, out)?;
    tell_read(rt, &mut disk, "g/b", 0, out)
}
