//! Words and listings, where memory is ample.

use fx_base::NoMemory;
use fx_outside::{HostKind, HostText, Listing, Words};
use std::alloc::Global;
use std::fmt::Write;

fn text(alloc: Global, bytes: &str) -> Result<HostText, NoMemory> {
    Ok(HostText::from_string(String::from_str(alloc, bytes)?))
}

fn one_word(alloc: Global) -> Result<Words, NoMemory> {
    let mut words = Words::new(alloc);
    let word = text(alloc, "run")?;
    words.add(alloc, word.copy(alloc)?)?;
    Ok(words)
}

/// How many words there are, and whether the first is the one added.
fn words_told(alloc: Global) -> Result<(u64, bool), NoMemory> {
    let words = one_word(alloc)?;
    Ok((words.len(), words.at(0).map(|w| w.as_str()) == Some("run")))
}

fn add_file(alloc: Global, names: &mut Listing, name: &str) -> Result<(), NoMemory> {
    let name = text(alloc, name)?;
    if names.can_add(&name) {
        names.add(alloc, name, HostKind::File)?;
    }
    Ok(())
}

fn two_files(alloc: Global) -> Result<Listing, NoMemory> {
    let mut names = Listing::new(alloc);
    for name in ["a", "b", "a"] {
        add_file(alloc, &mut names, name)?;
    }
    Ok(names)
}

/// How many names there are, and whether one that was not added is there.
fn names_told(alloc: Global) -> Result<(u64, bool), NoMemory> {
    let names = two_files(alloc)?;
    let other = text(alloc, "c")?;
    Ok((names.len(), names.get(&other).is_some()))
}

/// Tells what is listed of words, and of names that are added once.
pub fn tell_words(alloc: Global, out: &mut String) -> Result<(), NoMemory> {
    writeln!(out, "> words {:?}", words_told(alloc)?)?;
    writeln!(out, "> names {:?}", names_told(alloc)?)?;
    Ok(())
}
