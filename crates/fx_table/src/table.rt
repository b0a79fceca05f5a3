//! The parts of a line of the table file.
ghost use Rattle.std.specs.Prelude.{◌≡◌, IfOk, IfSome, option_map};
ghost use Rattle.fx_table.specs.TableSpelling.{unspelled};
ghost use Rattle.fx_table.specs.Unspells.{GivesPath, GivesText, GivesLink, GivesFlag};

use crate::line::{Mark, TableLine};
use crate::spelling::unspelled;
use fx_base::NoMemory;
use fx_store::{LinkText, Path, PathFault};
use std::alloc::Global;

/// The link of a spelled path text and a spelled link text: `None` where they give none.
pub(crate) fn link_of(
    alloc: Global,
    path: &[u8],
    text: &[u8],
) -> Result<Option<TableLine>, NoMemory>
    ensures { IfOk result (GivesLink (unspelled path.now) (unspelled text.now)) }
{
    let Some(path) = path_of(alloc, path)? else {
        return Ok(None);
    };
    let Some(text) = text_of(alloc, text)? else {
        return Ok(None);
    };
    Ok(Some(TableLine {
        path,
        mark: Mark::Target(text),
    }))
}

/// The line that a spelled path text gives where the file there is executable: `None` where it gives none.
pub(crate) fn flag_of(alloc: Global, path: &[u8]) -> Result<Option<TableLine>, NoMemory>
    ensures { IfOk result (GivesFlag (unspelled path.now)) }
{
    let Some(path) = path_of(alloc, path)? else {
        return Ok(None);
    };
    Ok(Some(TableLine {
        path,
        mark: Mark::Executable,
    }))
}

/// The path of a spelled path text.
fn path_of(alloc: Global, spelled: &[u8]) -> Result<Option<Path>, NoMemory>
    ensures { IfOk result (GivesPath (unspelled spelled.now)) }
{
    let Some(bytes) = unspelled(alloc, spelled)? else {
        return Ok(None);
    };
    match Path::read(alloc, &bytes) {
        Ok(path) => Ok(Some(path)),
        Err(PathFault::NoMemory) => Err(NoMemory),
        Err(PathFault::BadName) => Ok(None),
        Err(PathFault::TooDeep) => Ok(None),
    }
}

/// The link text of a spelled link text.
fn text_of(alloc: Global, spelled: &[u8]) -> Result<Option<LinkText>, NoMemory>
    ensures { IfOk result (GivesText (unspelled spelled.now)) }
{
    let Some(bytes) = unspelled(alloc, spelled)? else {
        return Ok(None);
    };
    match LinkText::read(alloc, &bytes) {
        Ok(text) => Ok(Some(text)),
        Err(PathFault::NoMemory) => Err(NoMemory),
        Err(PathFault::BadName) => Ok(None),
        Err(PathFault::TooDeep) => Ok(None),
    }
}
