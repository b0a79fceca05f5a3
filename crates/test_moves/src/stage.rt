//! What a case begins with: the description and the folder that its first lines say.

use fx_base::NoMemory;
use fx_check::check;
use fx_folder::load;
use fx_outside::{HostKind, MemoryHost};
use fx_source_parse::spec::parse;
use fx_spec::{Base, Checked, Defs, Description, Plan, Spec};
use fx_store::Filestore;
use std::alloc::Global;
use test_lines::{host_text, put, split_word, unescaped};

/// The folder on the host.
const FOLDER: &str = "in";

/// Whether the line is what another one gives.
pub fn is_answer(line: &str) -> bool {
    line.starts_with('>')
}

/// Puts the file that a line says, where it says one.
fn set_up(alloc: Global, host: &mut MemoryHost, line: &str) -> Result<(), NoMemory> {
    let (word, rest) = split_word(line);
    if word != "file" {
        return Ok(());
    }
    let (path, text) = split_word(rest);
    let path = format!(in alloc; "{FOLDER}{path}")?;
    let bytes = unescaped(alloc, text)?;
    put(alloc, host, path.as_str(), HostKind::File, &bytes)?;
    Ok(())
}

/// Puts the folder of a case.
fn put_all(alloc: Global, host: &mut MemoryHost, case: &str) -> Result<(), NoMemory> {
    put(alloc, host, FOLDER, HostKind::Folder, b"")?;
    for line in case.lines() {
        set_up(alloc, host, line)?;
    }
    Ok(())
}

/// The folder of a host; an empty one where it can't be loaded.
fn loaded(alloc: Global, host: &mut MemoryHost) -> Result<Filestore, NoMemory> {
    let folder = host_text(alloc, FOLDER)?;
    match load(alloc, host, &folder) {
        Ok(store) => Ok(store),
        Err(_) => Filestore::new(alloc),
    }
}

/// The folder of a case.
fn store_of(alloc: Global, case: &str) -> Result<Filestore, NoMemory> {
    let mut host = MemoryHost::new(alloc);
    put_all(alloc, &mut host, case)?;
    loaded(alloc, &mut host)
}

/// The text of the description of a case; that of a file where it says none.
fn description_text(case: &str) -> &str {
    for line in case.lines() {
        let (word, rest) = split_word(line);
        if word == "description" {
            return rest;
        }
    }
    "file"
}

/// The description of a file where one stands.
fn file_alone(alloc: Global) -> Result<Checked, NoMemory> {
    Checked::of(
        alloc,
        Description {
            defs: Defs::new(alloc),
            root: Spec::File,
        },
    )
}

/// The description of a text; that of a file where it is refused.
fn described(alloc: Global, text: &[u8]) -> Result<Checked, NoMemory> {
    match parse(alloc, text) {
        Ok(description) => match check(alloc, description) {
            Ok(checked) => Ok(checked),
            Err(_) => file_alone(alloc),
        },
        Err(_) => file_alone(alloc),
    }
}

/// What a case begins with.
pub fn base_of(alloc: Global, case: &str) -> Result<Base, NoMemory> {
    let text = unescaped(alloc, description_text(case))?;
    let loaded = store_of(alloc, case)?;
    Ok(Base {
        description: described(alloc, &text)?,
        plan: Plan::new(alloc),
        loaded,
    })
}
