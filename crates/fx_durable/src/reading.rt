//! Reading a journal.
ghost use Rattle.std.specs.Prelude.{◌≡◌, ◌<◌, ◌≤◌, length, drop, true, None, IfOk, OnOk, IfErr, IfSome};
ghost use Rattle.fx_base.specs.Causes.{Rose};
ghost use Rattle.fx_outside.specs.Host.{ReadsAt};
ghost use Rattle.fx_durable.specs.Disk.{IsAsTold, ChoosesTold, AsksChosen};
ghost use Rattle.fx_durable.specs.Journal.{is_open, turn_of, turn_in, IsReadImage, IsUnread, ReadsOrder, HasJournalFault, IsCalm};
ghost use Rattle.fx_durable.specs.declared.journal_fault.JournalFault.TheVariants.{Failed};

use crate::journal::RECORD;
use crate::{Disk, JournalFault};
use fx_base::{Listed, NoMemory, TXN_LIMIT};
use fx_machine::Pair;
use fx_outside::HostText;
use std::alloc::Global;

/// Transactions, in the order in which they were committed.
pub type Pairs = Listed<Pair>;

/// How many bytes are asked for at a time.
const PIECE: usize = 8_192;

/// How many bytes of a journal count: its records and one more gate.
const IMAGE_LIMIT: usize = 900_001;

/// A buffer for one read.
fn buffer(alloc: Global) -> Result<Vec<u8>, NoMemory>
    ensures { IfOk result (λ buffer. 0 < length buffer.items) }
{
    let buffer = vec![in alloc; 0u8; PIECE]?;
    Ok(buffer)
}

/// The next bytes of the file from a place on; none only at its end.
fn read_piece<D: Disk>(alloc: Global, disk: &mut D, from: u64) -> Result<Vec<u8>, JournalFault>
    ensures piece { IfOk result (λ piece. IfSome (D.view disk.old).told
        (λ file. ReadsAt file.seen from (length piece.items) piece.items)) }
    ensures same { IsAsTold (D.view disk.old) (D.view disk.new) }
    ensures later { (D.view disk.old).faults ≤ (D.view disk.new).faults }
    ensures calm { OnOk result ((D.view disk.new).faults ≡ (D.view disk.old).faults) }
    ensures others { (D.view disk.new).others ≡ (D.view disk.old).others }
    ensures early { AsksChosen (D.view disk.old) (D.view disk.new) }
    ensures unread { IfErr result IsUnread }
    ensures failed { IfErr result (λ fault. fault ≡ Failed
        → Rose (D.view disk.old).faults (D.view disk.new).faults) }
{
    let mut piece = buffer(alloc)?;
    let count = disk.read(from, &mut piece)?;
    piece.truncate(count);
    Ok(piece)
}

/// The bytes of the file, or as many from its front as count.
fn read_bytes<D: Disk>(alloc: Global, disk: &mut D) -> Result<Vec<u8>, JournalFault>
    ensures read { IfOk result (λ bytes. IfSome (D.view disk.old).told
        (λ file. IsReadImage file.seen bytes.items)) }
    ensures same { IsAsTold (D.view disk.old) (D.view disk.new) }
    ensures later { (D.view disk.old).faults ≤ (D.view disk.new).faults }
    ensures calm { OnOk result ((D.view disk.new).faults ≡ (D.view disk.old).faults) }
    ensures others { (D.view disk.new).others ≡ (D.view disk.old).others }
    ensures early { AsksChosen (D.view disk.old) (D.view disk.new) }
    ensures unread { IfErr result IsUnread }
    ensures failed { IfErr result (λ fault. fault ≡ Failed
        → Rose (D.view disk.old).faults (D.view disk.new).faults) }
{
    let mut bytes = Vec::new(alloc);
    'reading: while bytes.len() < IMAGE_LIMIT {
        let piece = read_piece(alloc, disk, bytes.len() as u64)?;
        if piece.is_empty() {
            return Ok(bytes);
        }
        bytes.extend_from_slice(&piece)?;
    }
    Ok(bytes)
}

/// Whether an open gate stands at a place.
fn is_open(bytes: &[u8], place: usize) -> bool
    ensures open { result ≡ is_open (drop place bytes.now) }
    ensures inside { result ≡ true → place < length bytes.now }
{
    if place < bytes.len() {
        bytes[place] == 1
    } else {
        false
    }
}

/// The pair of the first eight bytes, if there are so many.
fn first_pair(bytes: &[u8]) -> Option<Pair>
    ensures some { IfSome result (λ pair. (8 ≤ length bytes.now) × (turn_of pair ≡ turn_in bytes.now)) }
    ensures none { result ≡ None → length bytes.now < 8 }
{
    if bytes.len() < 8 {
        return None;
    }
    let shell = u32::from_be_bytes([bytes[0], bytes[1], bytes[2], bytes[3]]);
    let txn = u32::from_be_bytes([bytes[4], bytes[5], bytes[6], bytes[7]]);
    Some(Pair { shell, txn })
}

/// The order that bytes spell.
fn read_pairs(alloc: Global, bytes: &[u8]) -> Result<Pairs, JournalFault>
    ensures reads { ReadsOrder bytes.now result }
    ensures failed { IfErr result (λ fault. fault ≡ Failed → ⊥) }
{
    let mut pairs = Listed::new(alloc);
    let mut place = 0;
    'records: while is_open(bytes, place) {
        let number = pairs.len() as u64;
        if number >= TXN_LIMIT {
            return Err(JournalFault::Broken(number));
        }
        let Some(pair) = first_pair(&bytes[place + 1..]) else {
            return Err(JournalFault::Broken(number));
        };
        pairs.push(pair)?;
        place += RECORD as usize;
    }
    Ok(pairs)
}

/// The order that the journal at a path spells. A missing file is made, and is empty; nothing is written.
pub fn read_journal<D: Disk>(
    alloc: Global,
    disk: &mut D,
    path: &HostText,
) -> Result<Pairs, JournalFault>
    ensures reads { IfSome (D.view disk.old).told (λ file. ReadsOrder file.seen result) }
    ensures same { IsAsTold (D.view disk.old) (D.view disk.new) }
    ensures later { (D.view disk.old).faults ≤ (D.view disk.new).faults }
    ensures calm { IsCalm (D.view disk.old) (D.view disk.new) result }
    ensures others { ChoosesTold path.now (D.view disk.old) (D.view disk.new) }
    ensures early { (D.view disk.new).choice.early ≡ (D.view disk.old).choice.early }
    ensures cause { HasJournalFault path.now (D.view disk.old) (D.view disk.new) result }
{
    disk.choose(path)?;
    let bytes = read_bytes(alloc, disk)?;
    read_pairs(alloc, &bytes)
}
