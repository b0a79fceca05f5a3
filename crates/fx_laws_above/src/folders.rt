//! The law of what stands above a folder that is saved.
ghost use Rattle.fx_laws_above.specs.Above.{SavedInFolders};

/// Where the folder of a filestore is saved in a whole tree, a folder has stood above it before. So an OUT at which nothing
/// stood was in a folder.
pub fn a_saved_folder_stood_in_one()
    ensures { SavedInFolders }
{}
