//! Laws of the texts of paths. Each stands on a function that does nothing, so that it is proved with the crate.
ghost use Rattle.fx_store.specs.Spelling.{PathTextsAreRead, PathsGoOnByNames};

/// A path text is read as the path that it spells, and no other text is read.
pub fn path_texts_are_read()
    ensures { PathTextsAreRead }
{}

/// A path is extended by the names that a text spells, with one `/` between each two, and by no other text.
pub fn paths_go_on_by_names()
    ensures { PathsGoOnByNames }
{}
