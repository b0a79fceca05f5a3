//! A law of what a journal keeps. It stands on a function that does nothing, so that it is proved with the crate.
ghost use Rattle.fx_journaling.specs.Laws.{WrittenIsFront};

/// What is written when a run ends, wherever that is, is a front of the output of a whole run by the same schedule.
pub fn what_is_written_is_a_front_of_an_output()
    ensures { WrittenIsFront }
{}
