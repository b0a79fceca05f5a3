//! Worked transactions at the limits of resolution and of paths.
ghost use Rattle.fx_laws.specs.Limited.{StopsAfterForty, StopsAtLoop, MakesDeepFile, LeavesDeepFile, GoesNoDeeper};

/// Forty links are followed to a file, and nothing is fetched or stored past 41.
pub fn following_forty_links()
    ensures { StopsAfterForty }
{}

/// Nor past a link to itself.
pub fn following_no_link_to_itself()
    ensures { StopsAtLoop }
{}

/// An empty file at a path of 64 names is made, with all directories above it.
pub fn making_a_file_at_64_names()
    ensures does { MakesDeepFile }
    ensures leaves { LeavesDeepFile }
{}

/// No move goes down to a path of 65 names.
pub fn going_no_deeper_than_64_names()
    ensures { GoesNoDeeper }
{}
