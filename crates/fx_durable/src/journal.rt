//! A journal: a record of nine bytes for each commit, a gate and the numbers of a shell and of a transaction. A gate stands
//! closed on the disk before anything is written behind it, and is opened by a write of its own.
ghost use Rattle.std.specs.Prelude.{◌≡◌, ◌≤◌, ◌<◌, ◌+◌, ◌∷◌, ◌++◌, [], length, is_ok, true, IfOk, OnOk, OnErr, IfSome, Err};
ghost use Rattle.fx_base.specs.Limits.{txn_limit};
ghost use Rattle.fx_durable.specs.Disk.{Continues, StaysUnstarted, IsAsTold, FailsAt, TellsAt, TellsLength, CountsDiskFaults, ChoosesTold, AsksChosen};
ghost use Rattle.fx_durable.specs.Journal.{payload, RestsAt, Rests, LeavesOrder, AddsTurn};
ghost use Rattle.fx_durable.specs.declared.journal.StartFault.TheVariants.{NotEmpty, Failed};

use crate::{Disk, DiskFailed};
use fx_outside::HostText;
use std::marker::Model;

/// How many bytes a record has.
pub(crate) const RECORD: u64 = 9;

/// Why a journal was not started.
#[derive(Clone, Copy, Debug, PartialEq, Eq)]
pub enum StartFault {
    /// The file already holds something.
    NotEmpty,
    /// The disk failed, or tells a file at another path.
    Failed,
}

impl From<DiskFailed> for StartFault {
    ghost from_gives = { λ _ fault. fault ≡ Failed };

    fn from(_: DiskFailed) -> StartFault {
        StartFault::Failed
    }
}

/// A journal that was started, by the number of its records. The disk stays the caller's, who writes to it by this alone.
#[derive(Debug, Drop)]
pub struct Journal {
    count: u64,
    good: bool,
}

impl Model for Journal {
    ghost use Rattle.fx_durable.specs.Journal.{JournalView};

    ghost Value = { JournalView };

    ghost view = { λ j. record { count = j.count; good = j.good } };
}

/// The eight bytes of a record behind its gate, and the next gate, closed.
fn record_behind(shell: u32, txn: u32) -> [u8; 9]
    ensures { result ≡ payload (shell, txn) ++ 0 ∷ [] }
{
    let [a, b, c, d] = shell.to_be_bytes();
    let [e, f, g, h] = txn.to_be_bytes();
    [a, b, c, d, e, f, g, h, 0]
}

impl Journal {
    /// Begins a journal in an empty file, made where none stands: one closed gate, which from then on each crash leaves.
    pub fn start<D: Disk>(disk: &mut D, path: &HostText) -> Result<Journal, StartFault>
        ensures journal { IfOk result (λ journal. (journal.count ≡ 0) × (journal.good ≡ true)) }
        ensures empty { OnOk result (TellsLength (D.view disk.old) path.now 0) }
        ensures rests { OnOk result (IfSome (D.view disk.new).told (RestsAt 0 [])) }
        ensures goes_on { Continues (D.view disk.old) (D.view disk.new) }
        ensures unstarted { OnErr result
            (StaysUnstarted path.now (D.view disk.old).told (D.view disk.new).told) }
        ensures not_empty { result ≡ Err NotEmpty → IsAsTold (D.view disk.old) (D.view disk.new)
            × IfSome (D.view disk.old).told (λ file. 0 < length file.seen) }
        ensures at_path { result ≡ Err NotEmpty → TellsAt (D.view disk.old) path.now }
        ensures later { (D.view disk.old).faults ≤ (D.view disk.new).faults }
        ensures calm { OnOk result ((D.view disk.new).faults ≡ (D.view disk.old).faults) }
        ensures calm_not_empty { result ≡ Err NotEmpty
            → (D.view disk.new).faults ≡ (D.view disk.old).faults }
        ensures others { ChoosesTold path.now (D.view disk.old) (D.view disk.new) }
        ensures early { (D.view disk.new).choice.early ≡ (D.view disk.old).choice.early }
        ensures chosen { OnOk result ((D.view disk.new).choice.chosen ≡ true) }
        ensures failed { result ≡ Err Failed
            → FailsAt path.now (D.view disk.old) (D.view disk.new) }
    {
        if disk.choose(path)? > 0 {
            return Err(StartFault::NotEmpty);
        }
        disk.write(0, &[0])?;
        disk.sync()?;
        Ok(Journal {
            count: 0,
            good: true,
        })
    }

    /// How many records it has.
    pub fn len(&self) -> u64
        ensures { result ≡ self.now.count }
    {
        self.count
    }

    /// Whether no append failed.
    pub fn good(&self) -> bool
        ensures { result ≡ self.now.good }
    {
        self.good
    }

    /// Adds a transaction. At `Ok` it is acknowledged: from then on each crash leaves a file that has it. A crash before
    /// leaves a file that has it or does not. Nothing is to be appended after a fault, nor to a journal of 100,000 records.
    pub fn append<D: Disk>(&mut self, disk: &mut D, shell: u32, txn: u32) -> Result<(), DiskFailed>
        requires room { self.old.count < txn_limit }
        requires good { self.old.good ≡ true }
        requires rests { Rests self.old.count (D.view disk.old) }
        ensures any_moment { LeavesOrder self.old.count (shell, txn) (D.view disk.old) (D.view disk.new) }
        ensures added { OnOk result
            (AddsTurn self.old.count (shell, txn) (D.view disk.old) (D.view disk.new)) }
        ensures goes_on { Continues (D.view disk.old) (D.view disk.new) }
        ensures count { OnOk result (self.new.count ≡ self.old.count + 1) }
        ensures same { OnErr result (self.new.count ≡ self.old.count) }
        ensures good { self.new.good ≡ is_ok result }
        ensures cause { CountsDiskFaults (D.view disk.old) (D.view disk.new) result }
        ensures early { AsksChosen (D.view disk.old) (D.view disk.new) }
    {
        self.good = false;
        let gate = RECORD * self.count;
        disk.write(gate + 1, &record_behind(shell, txn))?;
        disk.sync()?;
        disk.write(gate, &[1])?;
        disk.sync()?;
        self.count += 1;
        self.good = true;
        Ok(())
    }
}
