//! Laws on generated texts. Each stands on a function that does nothing, so that it is proved with the crate.
ghost use Rattle.fx_gen.specs.Trees.{DescriptionStands, LinesStand, ScriptsStand};

/// The description's text stands for a well-shaped description.
pub fn description_stands()
    ensures { DescriptionStands }
{}

/// Each line of a script stands for a well-shaped transaction, whatever its project, its script and its place.
pub fn lines_stand()
    ensures { LinesStand }
{}

/// Each script's text stands for 200 well-shaped transactions, whatever the number.
pub fn scripts_stand()
    ensures { ScriptsStand }
{}
