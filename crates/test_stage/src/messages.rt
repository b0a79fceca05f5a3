//! The lines on standard error of statuses that are made of parts, in place of a run's.

use crate::statuses::tell_status;
use fx_base::NoMemory;
use fx_command::{Status, TextFault};
use fx_expr::{Shape, Word};
use fx_folder::FolderCause;
use fx_outside::{HostText, Words};
use std::alloc::Global;
use test_lines::{host_text, number, split_word, unescaped};

/// The words of the command line: one with a letter that is not ASCII and a line feed, and one with a backslash.
const WORDS: [&str; 3] = ["run", "spec \u{e9}\n", "a\\n"];

fn words(alloc: Global) -> Result<Words, NoMemory> {
    let mut words = Words::new(alloc);
    for word in WORDS {
        words.add(alloc, host_text(alloc, word)?)?;
    }
    Ok(words)
}

/// The word of faults that have one.
fn word(alloc: Global) -> Result<Word, NoMemory> {
    Word::from_vec(Vec::from_slice(alloc, b"x1")?)
}

/// `table(bool)`
fn table_of_truths(alloc: Global) -> Result<Shape, NoMemory> {
    Ok(Shape::Table(Box::new(alloc, Shape::Bool)?))
}

/// `pair(names, opt(int))`
fn pair_of_names_and_options(alloc: Global) -> Result<Shape, NoMemory> {
    let first = Box::new(alloc, Shape::Names)?;
    let option = Box::new(alloc, Shape::Int)?;
    let second = Box::new(alloc, Shape::Opt(option))?;
    Ok(Shape::Pair(first, second))
}

fn two_shapes(alloc: Global) -> Result<TextFault, NoMemory> {
    let expected = table_of_truths(alloc)?;
    let found = pair_of_names_and_options(alloc)?;
    Ok(TextFault::TypeDiffers { expected, found })
}

/// The fault of this name, of those that hold no more than a place.
fn placed_fault(name: &str, place: u32) -> TextFault {
    match name {
        "TooLarge" => TextFault::TooLarge,
        "BadToken" => TextFault::BadToken(place),
        "Unexpected" => TextFault::Unexpected(place),
        "TooNested" => TextFault::TooNested(place),
        _ => TextFault::TooMany,
    }
}

fn text_fault(alloc: Global, name: &str, place: u32) -> Result<TextFault, NoMemory> {
    match name {
        "Unknown" => Ok(TextFault::Unknown(word(alloc)?)),
        "Repeated" => Ok(TextFault::Repeated(word(alloc)?)),
        "TypeDiffers" => two_shapes(alloc),
        _ => Ok(placed_fault(name, place)),
    }
}

/// The status of a text's fault: a line is a word's number, the fault's name and a place.
fn text_status(alloc: Global, line: &str) -> Result<Status, NoMemory> {
    let (word, fault) = split_word(line);
    let (name, place) = split_word(fault);
    let cause = text_fault(alloc, name, number(place))?;
    Ok(Status::TextRefused {
        word: number(word),
        cause,
    })
}

fn host_path(alloc: Global, text: &str) -> Result<HostText, NoMemory> {
    let bytes = unescaped(alloc, text)?;
    match std::str::from_utf8(&bytes) {
        Ok(path) => host_text(alloc, path),
        Err(_) => host_text(alloc, ""),
    }
}

/// The cause of this name, of those that hold a path.
fn path_cause(name: &str, path: HostText) -> FolderCause {
    match name {
        "BadName" => FolderCause::BadName(path),
        "Strange" => FolderCause::Strange(path),
        _ => FolderCause::TooLarge(path),
    }
}

/// The status of a folder's refusal: a line is the cause's name and what it holds.
fn folder_status(alloc: Global, line: &str) -> Result<Status, NoMemory> {
    let (name, text) = split_word(line);
    if name == "BadTable" {
        let number = u64::from(number(text));
        return Ok(Status::FolderRefused(FolderCause::BadTable(number)));
    }
    let path = host_path(alloc, text)?;
    Ok(Status::FolderRefused(path_cause(name, path)))
}

/// The status of this name, of those that hold nothing.
fn plain_status(name: &str) -> Status {
    match name {
        "usage" => Status::Usage,
        "read" => Status::ReadFault,
        "not-empty" => Status::NotEmpty,
        "write" => Status::WriteFault,
        "memory" => Status::NoMemory,
        "journal" => Status::BadJournal { place: 0 },
        _ => Status::Done,
    }
}

fn status_of(alloc: Global, line: &str) -> Result<Status, NoMemory> {
    let (kind, rest) = split_word(line);
    match kind {
        "text" => text_status(alloc, rest),
        "folder" => folder_status(alloc, rest),
        _ => Ok(plain_status(kind)),
    }
}

/// Tells a status and its line.
pub fn tell_message(alloc: Global, line: &str, out: &mut String) -> Result<(), NoMemory> {
    let words = words(alloc)?;
    let status = status_of(alloc, line)?;
    tell_status(out, &words, &status)
}
