//! Laws of whole filestores.
ghost use Rattle.fx_laws.specs.Standing.{DirectoriesListAll, AllIsListed};

/// A directory lists exactly the names at which something stands in it; and all but the root stands in a directory, which
/// lists it.
pub fn directories_list_what_stands()
    ensures all { DirectoriesListAll }
    ensures listed { AllIsListed }
{}
