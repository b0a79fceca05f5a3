//! A disk in memory.
ghost use Rattle.std.specs.Prelude.{◌≡◌, ◌⊎◌, ◌≤◌, ◌<◌, ◌+◌, ◌++◌, ◌∷◌, [], true, length, vec_capacity, vec_len, IfOk, OnOk, OnErr};
ghost use Rattle.fx_outside.specs.Calls.{no_calls, with_failing, with_call, with_fault};
ghost use Rattle.fx_durable.specs.Disk.{unchosen, with_bytes, written, synced};
ghost use Rattle.fx_durable.specs.Replay.{no_file, replay, spent, IsIdle};
ghost use Rattle.fx_durable.specs.Placed.{are_writes_placed};

use crate::{Disk, DiskCall, DiskFailed, early_after};
use fx_base::{NoMemory, add_within_capacity};
use fx_outside::{Calls, HostText};
use std::alloc::Global;

/// A disk that tells its file. It fails at the calls that it is told to fail, and past a number of calls and a number of
/// written bytes, for which it takes the memory when it is made. A choice of another path than its own is no call of these,
/// and is counted apart. A call before the file is chosen is done, and is counted as early besides.
#[derive(Debug, Drop)]
pub struct MemoryDisk {
    path: HostText,
    bytes: Vec<u8>,
    taken: Vec<u8>,
    made: Vec<DiskCall>,
    room: u64,
    limit: u64,
    calls: Calls,
    others: u64,
    chosen: bool,
    early: u64,
    ghost spent: { spent made.items ≡ length taken.items },
    ghost seen: { (replay (no_file path) made.items taken.items).seen ≡ bytes.items },
    ghost placed: { are_writes_placed (no_file path) made.items taken.items ≡ true },
    ghost long: { length bytes.items ≤ length taken.items },
    ghost within: { length taken.items ≤ room },
    ghost recorded: { length made.items ≤ limit },
    ghost bytes_reserved: { room ≤ vec_capacity bytes },
    ghost taken_reserved: { room ≤ vec_capacity taken },
    ghost record_reserved: { limit ≤ vec_capacity made },
}

impl MemoryDisk {
    ghost use Rattle.fx_durable.specs.declared.disk_call.DiskCall.TheVariants.{Wrote, Synced};
    ghost use Rattle.fx_durable.specs.MemoryDisk.{disk_record, disk_taken, disk_room, disk_limit, disk_plan, disk_others, disk_choice, disk_file, disk_view, fails_next, IsSameDisk, IsSameRoom, HasPlace, Records};

    /// A disk for a file at a path, where none stands yet, with room for so many written bytes and so many calls.
    pub fn new(
        alloc: Global,
        path: &HostText,
        room: u64,
        calls: u64,
    ) -> Result<MemoryDisk, NoMemory>
        ensures file { IfOk result (λ disk. disk_file disk ≡ no_file path.now) }
        ensures record { IfOk result (λ disk. disk_record disk ≡ []) }
        ensures room { IfOk result (λ disk. disk_room disk ≡ room) }
        ensures limit { IfOk result (λ disk. disk_limit disk ≡ calls) }
        ensures plan { IfOk result (λ disk. disk_plan disk ≡ no_calls) }
        ensures others { IfOk result (λ disk. disk_others disk ≡ 0) }
        ensures choice { IfOk result (λ disk. disk_choice disk ≡ unchosen) }
    {
        let path = path.copy(alloc)?;
        let bytes = Vec::with_capacity(alloc, room as usize)?;
        let taken = Vec::with_capacity(alloc, room as usize)?;
        let made = Vec::with_capacity(alloc, calls as usize)?;
        Ok(MemoryDisk {
            path,
            bytes,
            taken,
            made,
            room,
            limit: calls,
            calls: Calls::new(alloc),
            others: 0,
            chosen: false,
            early: 0,
        })
    }

    /// What a read gives.
    pub fn bytes(&self) -> &[u8]
        ensures { result.now ≡ (disk_file self.now).seen }
    {
        &self.bytes
    }

    /// The calls so far, of which a crash may have torn the writes since the last sync.
    pub fn record(&self) -> &[DiskCall]
        ensures { result.now ≡ disk_record self.now }
    {
        &self.made
    }

    /// The bytes of all writes that were done, one after the other.
    pub fn taken(&self) -> &[u8]
        ensures { result.now ≡ disk_taken self.now }
    {
        &self.taken
    }

    /// How often it has failed.
    pub fn faults(&self) -> u64
        ensures { result ≡ (disk_view self.now).faults }
    {
        self.calls.faults()
    }

    /// Has the call of a number, counted from 0 over all calls of `Disk`, fail.
    pub fn fail(&mut self, call: u64) -> Result<(), NoMemory>
        ensures added { OnOk result
            (disk_plan self.new ≡ with_failing (disk_plan self.old) call) }
        ensures same { OnErr result (disk_plan self.new ≡ disk_plan self.old) }
        ensures file { disk_file self.new ≡ disk_file self.old }
        ensures record { disk_record self.new ≡ disk_record self.old }
        ensures taken { disk_taken self.new ≡ disk_taken self.old }
        ensures room { IsSameRoom self.old self.new }
        ensures choice { disk_choice self.new ≡ disk_choice self.old }
    {
        self.calls.fail(call)
    }

    // Counts a call, and says whether it fails: it is listed, or no more can be recorded.
    fn begin(&mut self) -> bool
        ensures fails { result ≡ fails_next self.old }
        ensures plan { disk_plan self.new ≡ with_call (disk_plan self.old) }
        ensures same { IsSameDisk self.old self.new }
        ensures others { disk_others self.new ≡ disk_others self.old }
        ensures choice { disk_choice self.new ≡ disk_choice self.old }
    {
        let listed = self.calls.begin();
        listed || self.made.len() as u64 >= self.limit
    }

    // Counts a fault.
    fn failed(&mut self) -> DiskFailed
        ensures plan { disk_plan self.new ≡ with_fault (disk_plan self.old) }
        ensures later { (disk_plan self.old).faults ≤ (disk_plan self.new).faults }
        ensures same { IsSameDisk self.old self.new }
        ensures others { disk_others self.new ≡ disk_others self.old }
        ensures choice { disk_choice self.new ≡ disk_choice self.old }
    {
        self.calls.fault();
        DiskFailed
    }

    // Records a call that does nothing to the file, or a write that failed, where one more can be recorded.
    fn log(&mut self, call: DiskCall)
        requires { IsIdle call }
        ensures file { (disk_file self.new ≡ disk_file self.old)
            ⊎ (disk_file self.new ≡ replay (disk_file self.old) (call ∷ []) []) }
        ensures record { Records call self.old self.new }
        ensures logged { HasPlace self.old
            → disk_file self.new ≡ replay (disk_file self.old) (call ∷ []) [] }
        ensures plan { disk_plan self.new ≡ disk_plan self.old }
        ensures taken { disk_taken self.new ≡ disk_taken self.old }
        ensures room { IsSameRoom self.old self.new }
        ensures choice { disk_choice self.new ≡ disk_choice self.old }
    {
        if (self.made.len() as u64) < self.limit {
            note(&mut self.made, call);
        }
    }

    // Does a write for which there is room.
    fn do_write(&mut self, from: u64, bytes: &[u8])
        requires place { from ≤ length (disk_file self.old).seen }
        requires place_in_record { HasPlace self.old }
        requires room { length (disk_taken self.old) + length bytes.now ≤ disk_room self.old }
        ensures file { disk_file self.new ≡ written from bytes.now (disk_file self.old) }
        ensures record { disk_record self.new
            ≡ disk_record self.old ++ Wrote from (length bytes.now) ∷ [] }
        ensures plan { disk_plan self.new ≡ disk_plan self.old }
        ensures taken { disk_taken self.new ≡ disk_taken self.old ++ bytes.now }
        ensures room { IsSameRoom self.old self.new }
        ensures choice { disk_choice self.new ≡ disk_choice self.old }
    {
        put(&mut self.bytes, from as usize, bytes);
        add_within_capacity(&mut self.taken, bytes);
        note(&mut self.made, DiskCall::Wrote(from, bytes.len() as u64));
    }

    // Does a sync.
    fn do_sync(&mut self)
        requires { HasPlace self.old }
        ensures file { disk_file self.new ≡ synced (disk_file self.old) }
        ensures record { disk_record self.new ≡ disk_record self.old ++ Synced ∷ [] }
        ensures plan { disk_plan self.new ≡ disk_plan self.old }
        ensures taken { disk_taken self.new ≡ disk_taken self.old }
        ensures room { IsSameRoom self.old self.new }
        ensures choice { disk_choice self.new ≡ disk_choice self.old }
    {
        note(&mut self.made, DiskCall::Synced);
    }
}

// Adds a call for which the memory is there.
fn note(made: &mut Vec<DiskCall>, call: DiskCall)
    requires { vec_len made.old < vec_capacity made.old }
    ensures added { made.new.items ≡ made.old.items ++ call ∷ [] }
    ensures reserved { vec_capacity made.old ≤ vec_capacity made.new }
{
    if made.push(call).is_err() {
        unreachable!();
    }
}

// Puts bytes in the place of those from a place on, and past the end.
fn put(bytes: &mut Vec<u8>, from: usize, piece: &[u8])
    requires place { from ≤ vec_len bytes.old }
    requires room { from + length piece.now ≤ vec_capacity bytes.old }
    ensures put { bytes.new.items ≡ with_bytes from piece.now bytes.old.items }
    ensures reserved { vec_capacity bytes.old ≤ vec_capacity bytes.new }
{
    if piece.len() < bytes.len() - from {
        bytes[from..from + piece.len()].copy_from_slice(piece);
    } else {
        bytes.truncate(from);
        add_within_capacity(bytes, piece);
    }
}

impl Disk for MemoryDisk {
    ghost use Rattle.std.specs.Prelude.{◌≡◌, ◌<◌, ◌≤◌, length, IfOk, OnOk, OnErr, IfSome, Some};
    ghost use Rattle.fx_durable.specs.Disk.{IsAsTold, WritesBytes, MayTear, Syncs, TellsLength, TellsFileBytes, CountsDiskFaults, HasOpenFault, Chooses, CountsEarly};
    ghost use Rattle.fx_durable.specs.MemoryDisk.{disk_path, disk_taken, disk_view, fails_next, fails_write, taken_after, FailsWhere, IsCountedCall, IsUntouched, Records, CountsAsWritten, file_image};
    ghost use Rattle.fx_durable.specs.declared.disk_call.DiskCall.TheVariants.{Choose, Read, Wrote, Tore, Synced, Unsynced};

    ghost view = { disk_view };

    ghost image = { file_image };

    fn choose(&mut self, path: &HostText) -> Result<u64, DiskFailed>
        ensures answer { IfOk result (TellsLength (disk_view self.old) path.now) }
        ensures same { IsAsTold (disk_view self.old) (disk_view self.new) }
        ensures cause { HasOpenFault path.now (disk_view self.old) (disk_view self.new) result }
        ensures early { Chooses (disk_view self.old) (disk_view self.new) result }
        ensures fails { path.now ≡ disk_path self.old → FailsWhere (fails_next self.old) result }
        ensures record { path.now ≡ disk_path self.old → Records Choose self.old self.new }
        ensures call { path.now ≡ disk_path self.old → IsCountedCall self.old self.new result }
        ensures no_call { (path.now ≡ disk_path self.old → ⊥) → IsUntouched self.old self.new }
        ensures taken { disk_taken self.new ≡ disk_taken self.old }
    {
        if *path != self.path {
            self.others = self.others.saturating_add(1);
            return Err(DiskFailed);
        }
        let fails = self.begin();
        self.log(DiskCall::Choose);
        if fails {
            return Err(self.failed());
        }
        self.chosen = true;
        Ok(self.bytes.len() as u64)
    }

    fn read(&mut self, from: u64, buf: &mut [u8]) -> Result<usize, DiskFailed>
        requires { 0 < length buf.old }
        ensures bound { IfOk result (λ n. n ≤ length buf.new) }
        ensures answer { IfOk result (TellsFileBytes (disk_view self.old) from buf.new) }
        ensures same { IsAsTold (disk_view self.old) (disk_view self.new) }
        ensures cause { CountsDiskFaults (disk_view self.old) (disk_view self.new) result }
        ensures early { CountsEarly (disk_view self.old) (disk_view self.new) }
        ensures fails { FailsWhere (fails_next self.old) result }
        ensures record { Records Read self.old self.new }
        ensures call { IsCountedCall self.old self.new result }
        ensures taken { disk_taken self.new ≡ disk_taken self.old }
    {
        self.early = early_after(self.chosen, self.early);
        let fails = self.begin();
        self.log(DiskCall::Read);
        if fails {
            return Err(self.failed());
        }
        let start = (from as usize).min(self.bytes.len());
        let rest = &self.bytes[start..];
        let count = rest.len().min(buf.len());
        buf[..count].copy_from_slice(&rest[..count]);
        Ok(count)
    }

    fn write(&mut self, from: u64, bytes: &[u8]) -> Result<(), DiskFailed>
        requires { IfSome (disk_view self.old).told (λ file. from ≤ length file.seen) }
        ensures written { OnOk result
            (WritesBytes from bytes.now (disk_view self.old) (disk_view self.new)) }
        ensures failed { OnErr result
            (MayTear from (length bytes.now) (disk_view self.old) (disk_view self.new)) }
        ensures cause { CountsDiskFaults (disk_view self.old) (disk_view self.new) result }
        ensures early { CountsEarly (disk_view self.old) (disk_view self.new) }
        ensures fails { FailsWhere (fails_write self.old (length bytes.now)) result }
        ensures record { OnOk result (Records (Wrote from (length bytes.now)) self.old self.new) }
        ensures tore { OnErr result (Records (Tore from (length bytes.now)) self.old self.new) }
        ensures counts { OnErr result
            (CountsAsWritten from (length bytes.now) self.old self.new) }
        ensures call { IsCountedCall self.old self.new result }
        ensures taken { disk_taken self.new ≡ taken_after (disk_taken self.old) bytes.now result }
    {
        self.early = early_after(self.chosen, self.early);
        let fails = self.begin();
        let left = self.room as usize - self.taken.len();
        if fails || left < bytes.len() {
            self.log(DiskCall::Tore(from, bytes.len() as u64));
            return Err(self.failed());
        }
        self.do_write(from, bytes);
        Ok(())
    }

    fn sync(&mut self) -> Result<(), DiskFailed>
        ensures kept { OnOk result (Syncs (disk_view self.old) (disk_view self.new)) }
        ensures same { OnErr result (IsAsTold (disk_view self.old) (disk_view self.new)) }
        ensures cause { CountsDiskFaults (disk_view self.old) (disk_view self.new) result }
        ensures early { CountsEarly (disk_view self.old) (disk_view self.new) }
        ensures fails { FailsWhere (fails_next self.old) result }
        ensures record { OnOk result (Records Synced self.old self.new) }
        ensures unsynced { OnErr result (Records Unsynced self.old self.new) }
        ensures call { IsCountedCall self.old self.new result }
        ensures taken { disk_taken self.new ≡ disk_taken self.old }
    {
        self.early = early_after(self.chosen, self.early);
        if self.begin() {
            self.log(DiskCall::Unsynced);
            return Err(self.failed());
        }
        self.do_sync();
        Ok(())
    }
}
