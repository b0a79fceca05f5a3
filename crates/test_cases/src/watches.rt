//! A watch that is told one folder after another.
ghost use Rattle.std.specs.Prelude.{◌≡◌, ◌<◌, IfOk};
ghost use Rattle.std.specs.FinMap.{get};
ghost use Rattle.fx_watch.specs.WatchView.{AnswersFor};

use crate::steps::tell_refused;
use fx_base::{NoMemory, Steps};
use fx_folder::load;
use fx_outside::MemoryHost;
use fx_spec::Base;
use fx_store::{Filestore, Path, Paths};
use fx_watch::Watch;
use std::alloc::Global;
use std::marker::Brand;
use std::sync::Arc;
use std::sync::ledger::{Blank, Ledger};
use test_lines::{host_text, split_word, tell, unescaped};
use test_stage::{Program, Stage};

fn tell_valid(out: &mut String, valid: bool) -> Result<(), NoMemory> {
    tell(out, if valid { "valid" } else { "not valid" })
}

/// The paths between commas, those left out that are not greater than the ones before them.
fn paths_of(alloc: Global, text: &str) -> Result<Paths, NoMemory> {
    let mut paths = Paths::new(alloc);
    for spelled in text.split(',') {
        let bytes = unescaped(alloc, spelled)?;
        match Path::read(alloc, &bytes) {
            Ok(path) => add_next(alloc, &mut paths, path)?,
            Err(_) => {}
        }
    }
    Ok(paths)
}

fn add_next(alloc: Global, paths: &mut Paths, path: Path) -> Result<(), NoMemory> {
    if paths.is_next(&path) {
        paths.add(alloc, path)?;
    }
    Ok(())
}

/// A watch that was told the loaded folder.
fn watch_by<L: Ledger>(alloc: Global, base: Arc<Base>, blank: Blank) -> Result<Watch, NoMemory>
    requires name { blank.name ≡ L.name }
    requires parts { blank.parts ≡ L.parts }
    requires some { 0 < L.parts }
    ensures { IfOk result (λ watch. AnswersFor watch (get base.value.loaded.nodes)) }
{
    Watch::new(alloc, base, Steps::<L>::open(blank)).1
}

/// Whether there is a value on a filestore that a watch is told.
fn valid_by<L: Ledger>(
    alloc: Global,
    watch: &mut Watch,
    paths: &Paths,
    store: &Filestore,
    blank: Blank,
) -> Result<bool, NoMemory>
    requires name { blank.name ≡ L.name }
    requires parts { blank.parts ≡ L.parts }
    requires some { 0 < L.parts }
{
    watch.after(alloc, paths, store, Steps::<L>::open(blank)).1
}

/// Tells whether there is a value on a folder, where these paths have changed.
fn tell_after(
    alloc: Global,
    watch: &mut Watch,
    host: &mut MemoryHost,
    paths: &Paths,
    folder: &str,
    out: &mut String,
) -> Result<(), NoMemory> {
    let folder = host_text(alloc, folder)?;
    match load(alloc, host, &folder) {
        Ok(store) => {
            let valid = valid_by::<Brand>(alloc, watch, paths, &store, Blank::new(1))?;
            tell_valid(out, valid)
        }
        Err(_) => tell(out, "not loaded"),
    }
}

/// Tells whether there is a value on each folder that the line names behind its paths.
fn tell_folders(
    alloc: Global,
    watch: &mut Watch,
    host: &mut MemoryHost,
    line: &String,
    out: &mut String,
) -> Result<(), NoMemory> {
    for told in line.as_str().split(' ') {
        if let Some((paths, folder)) = told.split_once('=') {
            let paths = paths_of(alloc, paths)?;
            tell_after(alloc, watch, host, &paths, folder, out)?;
        }
    }
    Ok(())
}

/// Tells the same of the loaded folder, and then of each that the line names behind its paths.
fn tell_told(
    alloc: Global,
    base: Arc<Base>,
    host: &mut MemoryHost,
    line: &String,
    out: &mut String,
) -> Result<(), NoMemory> {
    let mut watch = watch_by::<Brand>(alloc, base, Blank::new(1))?;
    let told = match tell_valid(out, watch.valid()) {
        Ok(()) => tell_folders(alloc, &mut watch, host, line, out),
        Err(fault) => Err(fault),
    };
    watch.let_go();
    told
}

/// Tells whether the folder has a value, and then whether each further one has that a watch is told: a line is a script, and
/// then for each folder the paths between commas that have changed, `=`, and the folder.
pub fn tell_watch<P: Program>(
    program: &P,
    alloc: Global,
    stage: &mut Stage,
    line: &str,
    out: &mut String,
) -> Result<(), NoMemory> {
    let (script, told) = split_word(line);
    let told = String::from_str(alloc, told)?;
    match program.base(alloc, stage, script) {
        Ok(base) => tell_told(alloc, base, &mut stage.host, &told, out),
        Err(status) => tell_refused(out, &status),
    }
}
