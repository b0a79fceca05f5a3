//! Worked transactions of one shell.
ghost use Rattle.fx_laws.specs.Scripted.{LeavesNoPlace, DropsSubtree, JoinsChosenFiles, NumbersFault, RefusedAtRoot, TakesItsWayAway};

/// Moves from an address whose element the transaction has removed.
pub fn moving_on_from_a_removed_element()
    ensures { LeavesNoPlace }
{}

/// A directory's names are replaced by others.
pub fn storing_other_names()
    ensures { DropsSubtree }
{}

/// The texts of the chosen files of a directory are joined in a loop.
pub fn joining_the_chosen_files()
    ensures { JoinsChosenFiles }
{}

/// A number past 64 bits, and a text that is no number.
pub fn faulting_at_numbers()
    ensures { NumbersFault }
{}

/// What is refused at the root directory.
pub fn editing_the_root()
    ensures { RefusedAtRoot }
{}

/// A store that takes its own way away, at a directory and at a link: it is not refused, and what was stored is not fetched.
pub fn storing_what_takes_its_own_way_away()
    ensures { TakesItsWayAway }
{}
