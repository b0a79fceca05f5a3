//! The folders and files of the machine, as a host.
ghost use Rattle.std.specs.Prelude.{◌≡◌, ◌≤◌, ◌+◌, None, true, false, IfOk, IfSome, vec_len};
ghost use Rattle.std.specs.FinMap.{len};
ghost use Rattle.fx_base.specs.Causes.{Rose};
ghost use Rattle.fx_outside.specs.Path.{is_fit};
ghost use Rattle.std.specs.List.{All};
ghost use Rattle.fx_disk.specs.Silent.{silent, Counts};
ghost use Rattle.fx_disk.specs.Held.{IsHeldIn};

use crate::ahead::{Ahead, Held};
use crate::entries::{Entry, MOST_ENTRIES, entries_of, kind_of, names_in};
use crate::reading::{Reading, read_on};
use fx_base::NoMemory;
use fx_outside::{Host, HostFault, HostText, Listing, Standing};
use std::alloc::Global;
use std::fs::{self, File};
use std::io::{self, ErrorKind, Write};
use std::rt::Files;
use std::thread::Threads;

/// The machine's files. It tells nothing of what it holds, and counts each error of the system: a name that is not UTF-8
/// and a folder of more than [`MOST_ENTRIES`] entries too. It keeps the path of the last one. Its fences let fit paths
/// through, and it counts the calls at others. A file that is read on stays open, so that a pipe is read too.
///
/// The entries of a listed folder are looked at by several threads, which read small files too. What a file held then is
/// what is read of it. One that could not be read is read again, and counts then. A call that writes forgets them all.
#[derive(Drop)]
pub struct Disk<R: Files, T> {
    rt: R,
    machine: HostRuntime,
    threads: T,
    faults: u64,
    last_fault: Option<HostText>,
    strays: u64,
    ahead: Ahead,
    reading: Option<Reading<R::File>>,
}

fn add_held(files: &mut Vec<Held>, held: Option<Held>) -> Result<(), NoMemory> {
    if let Some(held) = held {
        files.push(held)?;
    }
    Ok(())
}

/// The names and kinds of entries that stand in order of name; none where a name stands twice. What was read of them is
/// held.
fn listed(
    alloc: Global,
    ahead: &mut Ahead,
    entries: Vec<Entry>,
) -> Result<Option<Listing>, NoMemory>
    ensures { IfOk result (λ listing. IfSome listing (λ names. len names ≤ vec_len entries)) }
{
    let mut listing = Listing::new(alloc);
    let mut files = Vec::new(alloc);
    for entry in entries {
        let Entry { name, kind, held } = entry;
        if !listing.can_add(&name) {
            return Ok(None);
        }
        listing.add(alloc, name, kind)?;
        add_held(&mut files, held)?;
    }
    ahead.add_all(files)?;
    Ok(Some(listing))
}

fn write_file<R: Files>(rt: &R, path: &str, bytes: &[u8]) -> io::Result<()> {
    let mut file = File::create_new(rt, path)?;
    file.write_all(bytes)
}

impl<R: Files + AllocGlobal, T> Disk<R, T> {
    /// The files that `rt` reaches, with no error and no stray call counted yet. What stands in a listed folder is looked
    /// at through `machine`, by `threads`.
    pub fn new(rt: R, machine: HostRuntime, threads: T) -> Disk<R, T>
        ensures faults { result.faults ≡ 0 }
        ensures last { result.last_fault ≡ None }
        ensures strays { result.strays ≡ 0 }
    {
        let ahead = Ahead::new(rt.alloc());
        Disk {
            rt,
            machine,
            threads,
            faults: 0,
            last_fault: None,
            strays: 0,
            ahead,
            reading: None,
        }
    }

    /// How often it has failed.
    pub fn faults(&self) -> u64
        ensures { result ≡ self.now.faults }
    {
        self.faults
    }

    /// Counts a call at an unfit path.
    fn count_stray(&mut self, path: &HostText)
        ensures inside { is_fit path.now ≡ true → self.new.strays ≡ self.old.strays }
        ensures outside { is_fit path.now ≡ false → Rose self.old.strays self.new.strays }
        ensures faults { self.new.faults ≡ self.old.faults }
        ensures last { self.new.last_fault ≡ self.old.last_fault }
    {
        if !path.is_fit() {
            self.strays = self.strays.saturating_add(1);
        }
    }

    /// A fault at this path, counted unless memory runs out.
    fn failed(&mut self, alloc: Global, path: &HostText) -> HostFault
        ensures counts { Counts path.now (silent self.old.faults self.old.last_fault self.old.strays)
            (silent self.new.faults self.new.last_fault self.new.strays) result }
        ensures strays { self.new.strays ≡ self.old.strays }
    {
        let place = match path.copy(alloc) {
            Ok(place) => place,
            Err(NoMemory) => return HostFault::NoMemory,
        };
        self.faults = self.faults.saturating_add(1);
        self.last_fault = Some(place);
        HostFault::Failed
    }

    /// An error of the system at this path, counted unless it is want of memory.
    fn fault(&mut self, alloc: Global, path: &HostText, error: io::Error) -> HostFault
        ensures counts { Counts path.now (silent self.old.faults self.old.last_fault self.old.strays)
            (silent self.new.faults self.new.last_fault self.new.strays) result }
        ensures strays { self.new.strays ≡ self.old.strays }
    {
        if error.kind() == ErrorKind::OutOfMemory {
            HostFault::NoMemory
        } else {
            self.failed(alloc, path)
        }
    }
}

impl<R: Files + AllocGlobal + Clone + Drop, T: Threads> Disk<R, T> {
    /// The entries of a folder, in order of name.
    fn entries_in(&self, alloc: Global, folder: &str) -> io::Result<Vec<Entry>>
        ensures few { IfOk result (λ entries. vec_len entries ≤ MOST_ENTRIES) }
        ensures held { IfOk result (λ entries. All (IsHeldIn folder.now) entries.items) }
    {
        let names = names_in(&self.rt, alloc, folder)?;
        let room = self.ahead.room();
        entries_of(&self.machine, &self.threads, alloc, folder, room, names)
    }
}

impl<R: Files + AllocGlobal + Clone + Drop, T: Threads> Host for Disk<R, T> {
    ghost use Rattle.std.specs.Prelude.{◌≤◌, IfOk};
    ghost use Rattle.std.specs.FinMap.{len};
    ghost use Rattle.fx_outside.specs.Tree.{is_folder_at};
    ghost use Rattle.fx_outside.specs.Host.{ReadsOnly, HasCause, CountsStray};
    ghost use Rattle.fx_disk.specs.Silent.{silent};

    ghost view = { λ disk. silent disk.faults disk.last_fault disk.strays };

    fn standing(&mut self, alloc: Global, path: &HostText) -> Result<Standing, HostFault> {
        self.count_stray(path);
        match fs::symlink_metadata(&self.rt, path.as_str()) {
            Ok(metadata) => Ok(Standing::Is(kind_of(metadata.file_type()))),
            Err(error) => match error.kind() {
                ErrorKind::NotFound | ErrorKind::NotADirectory => Ok(Standing::Absent),
                _ => Err(self.fault(alloc, path, error)),
            },
        }
    }

    fn list(&mut self, alloc: Global, path: &HostText) -> Result<Listing, HostFault>
        ensures few { IfOk result (λ names. len names ≤ MOST_ENTRIES) }
        ensures same { ReadsOnly (silent self.old.faults self.old.last_fault self.old.strays)
            (silent self.new.faults self.new.last_fault self.new.strays) }
        ensures cause { HasCause path.now (λ t. is_folder_at t path.now)
            (silent self.old.faults self.old.last_fault self.old.strays)
            (silent self.new.faults self.new.last_fault self.new.strays) result }
        ensures strays { CountsStray is_fit path.now
            (silent self.old.faults self.old.last_fault self.old.strays)
            (silent self.new.faults self.new.last_fault self.new.strays) }
    {
        self.count_stray(path);
        let entries = match self.entries_in(alloc, path.as_str()) {
            Ok(entries) => entries,
            Err(error) => return Err(self.fault(alloc, path, error)),
        };
        match listed(alloc, &mut self.ahead, entries) {
            Ok(Some(listing)) => Ok(listing),
            Ok(None) => Err(self.failed(alloc, path)),
            Err(NoMemory) => Err(HostFault::NoMemory),
        }
    }

    fn read(
        &mut self,
        alloc: Global,
        path: &HostText,
        from: u64,
        buf: &mut [u8],
    ) -> Result<usize, HostFault> {
        self.count_stray(path);
        match read_on(
            &self.rt,
            alloc,
            &mut self.ahead,
            &mut self.reading,
            path,
            from,
            buf,
        ) {
            Ok(count) => Ok(count),
            Err(error) => Err(self.fault(alloc, path, error)),
        }
    }

    fn make_dir(&mut self, alloc: Global, path: &HostText) -> Result<(), HostFault> {
        self.count_stray(path);
        self.ahead.clear();
        match fs::create_dir(&self.rt, path.as_str()) {
            Ok(()) => Ok(()),
            Err(error) => Err(self.fault(alloc, path, error)),
        }
    }

    fn write_new(&mut self, alloc: Global, path: &HostText, bytes: &[u8]) -> Result<(), HostFault> {
        self.count_stray(path);
        self.ahead.clear();
        match write_file(&self.rt, path.as_str(), bytes) {
            Ok(()) => Ok(()),
            Err(error) => Err(self.fault(alloc, path, error)),
        }
    }

    ghost whole = { λ _. tt };
}
