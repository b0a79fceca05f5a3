//! Runs that keep a journal on a disk that stops, at each of its calls in turn, and what can be recovered from each file that
//! such a stop may leave.

use crate::disks::{JOURNAL, disk_of, empty_disk};
use crate::program::{OUT, Program};
use crate::stage::Stage;
use fx_base::NoMemory;
use fx_durable::{DiskCall, MemoryDisk};
use fx_outside::Words;
use std::alloc::Global;
use std::collections::BTreeSet;
use std::fmt::Write;
use test_lines::words_of;

/// The last of the calls of a disk at which a stop is tried.
const LAST_CALL: u64 = 199;

/// What stands where a write was cut short: zeros, ones, and other bytes.
const FILLS: [u8; 3] = [0, 1, 0xff];

/// The words of a run that keeps its journal, of what is a schedule and scripts.
fn journal_words(alloc: Global, rest: &str) -> Result<Words, NoMemory> {
    let line = format!(in alloc; "journal spec in {OUT} {JOURNAL} {rest}")?;
    words_of(alloc, line.as_str())
}

/// The words of a recovery, by the same scripts.
fn recover_words(alloc: Global, rest: &str) -> Result<Words, NoMemory> {
    let scripts = match rest.split_once(' ') {
        Some((_, scripts)) => scripts,
        None => "",
    };
    let line = format!(in alloc; "recover spec in {JOURNAL} {OUT} {scripts}")?;
    words_of(alloc, line.as_str())
}

/// The place and the length of the last write, where no sync was done behind it.
fn unsynced(record: &[DiskCall]) -> Option<(u64, u64)> {
    let mut last = None;
    for call in record {
        match call {
            DiskCall::Wrote(from, count) => last = Some((*from, *count)),
            DiskCall::Tore(from, count) => last = Some((*from, *count)),
            DiskCall::Synced => last = None,
            DiskCall::Choose => (),
            DiskCall::Read => (),
            DiskCall::Unsynced => (),
        }
    }
    last
}

/// A file whose bytes from a place on, so many, are all of one kind.
fn filled(alloc: Global, bytes: &[u8], place: (u64, u64), fill: u8) -> Result<Vec<u8>, NoMemory> {
    let (from, count) = place;
    let mut image = Vec::new(alloc);
    for (i, byte) in bytes.iter().enumerate() {
        let at = i as u64;
        let torn = at >= from && at - from < count;
        image.push(if torn { fill } else { *byte })?;
    }
    for _ in bytes.len() as u64..from.saturating_add(count).min(4_096) {
        image.push(fill)?;
    }
    Ok(image)
}

/// The numbers of settled lines among those that are printed.
fn settled(printed: &[u8]) -> usize {
    let Ok(text) = std::str::from_utf8(printed) else {
        return 0;
    };
    let mut count = 0usize;
    for line in text.lines() {
        if line.starts_with("settled ") {
            count = count.saturating_add(1);
        }
    }
    count
}

/// Adds what is recovered from a file: the status where that is not 0, and what is printed.
fn add_recovered<P: Program>(
    program: &P,
    alloc: Global,
    stage: &Stage,
    words: &Words,
    image: &[u8],
    ends: &mut BTreeSet<String>,
) -> Result<(), NoMemory> {
    let mut host = stage.fresh_host(alloc)?;
    let mut sink = stage.fresh_sink(alloc)?;
    let mut disk = disk_of(alloc, image)?;
    let status = program.run(alloc, words, &mut host, &mut sink, &mut disk);
    let mut end = String::new(alloc);
    add_end(&mut end, status.code(), sink.written())?;
    ends.insert(end)?;
    Ok(())
}

fn add_end(end: &mut String, code: u8, printed: &[u8]) -> Result<(), NoMemory> {
    if code != 0 {
        write!(end, "status {code}")?;
        return Ok(());
    }
    if let Ok(text) = std::str::from_utf8(printed) {
        end.push_str(text.trim_end())?;
    }
    Ok(())
}

/// Adds what is recovered from each file that a crash may leave.
fn add_images<P: Program>(
    program: &P,
    alloc: Global,
    stage: &Stage,
    words: &Words,
    disk: &MemoryDisk,
    ends: &mut BTreeSet<String>,
) -> Result<(), NoMemory> {
    add_recovered(program, alloc, stage, words, disk.bytes(), ends)?;
    if let Some(place) = unsynced(disk.record()) {
        for fill in FILLS {
            let image = filled(alloc, disk.bytes(), place, fill)?;
            add_recovered(program, alloc, stage, words, &image, ends)?;
        }
    }
    Ok(())
}

/// A disk at which this call fails.
fn stopping_disk(alloc: Global, call: u64) -> Result<MemoryDisk, NoMemory> {
    let mut disk = empty_disk(alloc)?;
    disk.fail(call)?;
    Ok(disk)
}

/// Runs over a disk, and answers the status and how many settled lines were printed.
fn run_over<P: Program>(
    program: &P,
    alloc: Global,
    stage: &Stage,
    words: &Words,
    disk: &mut MemoryDisk,
) -> Result<(u8, usize), NoMemory> {
    let mut host = stage.fresh_host(alloc)?;
    let mut sink = stage.fresh_sink(alloc)?;
    let status = program.run(alloc, words, &mut host, &mut sink, disk);
    Ok((status.code(), settled(sink.written())))
}

fn tell_ends(out: &mut String, ends: &BTreeSet<String>) -> Result<(), NoMemory> {
    for end in ends {
        write!(out, ", {end}")?;
    }
    out.push_str("\n")?;
    Ok(())
}

/// Tells what a stop at a call leaves, and whether the run came to its end before the call.
fn tell_stop<P: Program>(
    program: &P,
    alloc: Global,
    stage: &Stage,
    rest: &str,
    call: u64,
    out: &mut String,
) -> Result<bool, NoMemory> {
    let words = journal_words(alloc, rest)?;
    let mut disk = stopping_disk(alloc, call)?;
    let (code, count) = run_over(program, alloc, stage, &words, &mut disk)?;
    let again = recover_words(alloc, rest)?;
    let mut ends = BTreeSet::new(alloc);
    add_images(program, alloc, stage, &again, &disk, &mut ends)?;
    write!(out, "> stop {call}: status {code}, {count} settled")?;
    tell_ends(out, &ends)?;
    Ok(code == 0)
}

/// Tells what a run by a schedule leaves whose journal's disk fails at a call, for each call in turn: the status, how many
/// settled lines were printed, and what is recovered from the files that a crash may then leave. A line is the schedule and
/// the scripts; the description is at `spec`, the folder at `in`.
pub fn tell_stops<P: Program>(
    program: &P,
    alloc: Global,
    stage: &Stage,
    line: &str,
    out: &mut String,
) -> Result<(), NoMemory> {
    for call in 0..=LAST_CALL {
        if tell_stop(program, alloc, stage, line, call, out)? {
            break;
        }
    }
    Ok(())
}
