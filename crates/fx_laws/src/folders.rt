//! Laws of folders that are loaded and saved again. Each stands on a function that does nothing, so that it is proved with the
//! crate.

ghost use Rattle.fx_laws.specs.Stays.{LoadedFoldersStay, SavedFoldersAreSame, FoldersAreWhatTheyLoadAs, FoldersAreOfOne};

/// A folder of a whole tree that is loaded is the folder of the loaded filestore, but that an empty table may stand for none.
pub fn loaded_folders_stay()
    ensures { LoadedFoldersStay }
{}

/// A folder that is loaded and saved again is the same, but that an empty table is left out.
pub fn saved_folders_are_same()
    ensures { SavedFoldersAreSame }
{}

/// The folder at a path of a whole tree is loaded as a filestore exactly if it is the folder of that filestore, which is whole and
/// within the limits. An empty table may stand for none.
pub fn folders_are_what_they_load_as()
    ensures { FoldersAreWhatTheyLoadAs }
{}

/// The folder at a path is that of one filestore at most.
pub fn folders_are_of_one()
    ensures { FoldersAreOfOne }
{}
