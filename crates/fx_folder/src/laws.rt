//! Laws of the folder's definitions. Each stands on a function that does nothing, so that it is proved with the crate.
ghost use Rattle.fx_folder.specs.DeepExamples.{DeepExamples};
ghost use Rattle.fx_folder.specs.LoadLaws.{LoadsAreWhole, FoldersAreLoaded};
ghost use Rattle.fx_folder.specs.RefusalLaws.{EntriesAreListed, FirstCausesAreTold};

/// Small folders of some depth: what they are loaded as, with their links, and which refusal of others comes first.
pub fn deep_examples()
    ensures { DeepExamples }
{}

/// What a folder of a whole tree is loaded as is a whole filestore, where its files hold bytes.
pub fn loads_are_whole()
    ensures { LoadsAreWhole }
{}

/// The folder of a whole filestore within the limits is loaded as this filestore.
pub fn folders_are_loaded()
    ensures { FoldersAreLoaded }
{}

/// The entries that are walked are all that stand below a folder, but for its table, each once and in the order of their paths.
pub fn entries_are_listed()
    ensures { EntriesAreListed }
{}

/// A folder is refused for the cause of the first entry in the order of paths that has one, by what stands before it, and where
/// no entry has one, for that of its table.
pub fn first_causes_are_told()
    ensures { FirstCausesAreTold }
{}
