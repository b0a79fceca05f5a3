//! The file of the machine.
ghost use Rattle.std.specs.Prelude.{◌≡◌, ◌≤◌, false, IfOk, is_some, length};
ghost use Rattle.fx_base.specs.Causes.{Rose};

use fx_durable::{Disk, DiskFailed, early_after};
use fx_outside::HostText;
use std::fs::{File, OpenFile};
use std::io::{self, ErrorKind, Read, Seek, SeekFrom, Write};
use std::rt::Files;

/// The machine's file, once one is chosen. It tells nothing of what it holds, and counts each error of the system. A call
/// before a file is chosen is an error, and is counted as early besides.
#[derive(Drop)]
pub struct RealDisk<R: Files + Drop> {
    rt: R,
    faults: u64,
    early: u64,
    file: Option<R::File>,
}

/// The folder in which a path's file stands.
fn folder_of(path: &str) -> &str {
    match path.rfind('/') {
        None => ".",
        Some(0) => "/",
        Some(end) => &path[..end],
    }
}

/// Whether it says that a file may not be written.
fn forbids_writing(error: &io::Error) -> bool {
    matches!(
        error.kind(),
        ErrorKind::PermissionDenied | ErrorKind::ReadOnlyFilesystem
    )
}

/// Opens a file to read and write, made empty where none stands; or to read alone, where it may not be written: then a
/// later write fails.
fn open<R: Files>(rt: &R, path: &str) -> io::Result<R::File> {
    let mut options = File::options();
    options.read(true).write(true).create(true);
    match options.open(rt, path) {
        Err(error) if forbids_writing(&error) => File::open(rt, path),
        opened => opened,
    }
}

/// Has the system keep an empty file and its name in the folder. A file that holds something was kept before that was
/// written.
fn keep<R: Files>(rt: &R, path: &str, file: &R::File) -> io::Result<()> {
    file.sync_all()?;
    File::open(rt, folder_of(path))?.sync_all()
}

/// Opens a file that stays there from then on, and tells its length. Of a device the system tells no length, so that what
/// it holds would be taken for nothing: it is refused, as all else that is no file.
fn chosen<R: Files>(rt: &R, path: &str) -> io::Result<(R::File, u64)> {
    let file = open(rt, path)?;
    let found = file.metadata()?;
    if !found.is_file() {
        return Err(io::Error::from(ErrorKind::InvalidInput));
    }
    let size = found.len();
    if size == 0 {
        keep(rt, path, &file)?;
    }
    Ok((file, size))
}

fn read<F: Read + Seek>(file: &mut F, from: u64, buf: &mut [u8]) -> io::Result<usize>
    ensures { IfOk result (λ n. n ≤ length buf.new) }
{
    file.seek(SeekFrom::Start(from))?;
    file.read(buf)
}

fn write<F: Write + Seek>(file: &mut F, from: u64, bytes: &[u8]) -> io::Result<()> {
    file.seek(SeekFrom::Start(from))?;
    file.write_all(bytes)
}

/// The error of a call before a file is chosen.
fn unchosen() -> io::Error {
    io::Error::from(ErrorKind::NotFound)
}

fn read_chosen<F: Read + Seek>(file: &mut Option<F>, from: u64, buf: &mut [u8]) -> io::Result<usize>
    ensures bound { IfOk result (λ n. n ≤ length buf.new) }
    ensures chosen { is_some file.new ≡ is_some file.old }
{
    match file {
        Some(file) => read(file, from, buf),
        None => Err(unchosen()),
    }
}

fn write_chosen<F: Write + Seek>(file: &mut Option<F>, from: u64, bytes: &[u8]) -> io::Result<()>
    ensures { is_some file.new ≡ is_some file.old }
{
    match file {
        Some(file) => write(file, from, bytes),
        None => Err(unchosen()),
    }
}

fn sync_chosen<F: OpenFile>(file: &Option<F>) -> io::Result<()> {
    match file {
        Some(file) => file.sync_data(),
        None => Err(unchosen()),
    }
}

/// Counts an error of the system.
fn fault(faults: &mut u64, error: io::Error) -> DiskFailed
    ensures later { faults.old ≤ faults.new }
    ensures rose { Rose faults.old faults.new }
{
    drop(error);
    *faults = faults.saturating_add(1);
    DiskFailed
}

impl<R: Files + Drop> RealDisk<R> {
    /// A disk of which no file is chosen yet.
    pub fn new(rt: R) -> RealDisk<R>
        ensures faults { result.faults ≡ 0 }
        ensures early { result.early ≡ 0 }
        ensures chosen { is_some result.file ≡ false }
    {
        RealDisk {
            rt,
            faults: 0,
            early: 0,
            file: None,
        }
    }
}

impl<R: Files + Drop> Disk for RealDisk<R> {
    ghost use Rattle.std.specs.Prelude.{None, is_some};

    ghost view = { λ d. record {
      told = None;
      faults = d.faults;
      others = 0;
      choice = record { chosen = is_some d.file; early = d.early };
    } };

    ghost image = { λ _. tt };

    fn choose(&mut self, path: &HostText) -> Result<u64, DiskFailed> {
        match chosen(&self.rt, path.as_str()) {
            Ok((file, size)) => {
                self.file = Some(file);
                Ok(size)
            }
            Err(error) => Err(fault(&mut self.faults, error)),
        }
    }

    fn read(&mut self, from: u64, buf: &mut [u8]) -> Result<usize, DiskFailed> {
        self.early = early_after(self.file.is_some(), self.early);
        match read_chosen(&mut self.file, from, buf) {
            Ok(count) => Ok(count),
            Err(error) => Err(fault(&mut self.faults, error)),
        }
    }

    fn write(&mut self, from: u64, bytes: &[u8]) -> Result<(), DiskFailed> {
        self.early = early_after(self.file.is_some(), self.early);
        match write_chosen(&mut self.file, from, bytes) {
            Ok(()) => Ok(()),
            Err(error) => Err(fault(&mut self.faults, error)),
        }
    }

    fn sync(&mut self) -> Result<(), DiskFailed> {
        self.early = early_after(self.file.is_some(), self.early);
        match sync_chosen(&self.file) {
            Ok(()) => Ok(()),
            Err(error) => Err(fault(&mut self.faults, error)),
        }
    }
}
