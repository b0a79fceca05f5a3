//! Diaries of shells: what each shell of a run does by the time of each entry of the order, as far as it knows; and that together
//! they are a run of the machine. Each law stands on a function that does nothing, so that it is proved with the crate.

ghost use Rattle.fx_diaries.specs.Laws.{DiariesGrow, DiariesMakeRuns, RunsHaveSchedules};

/// A shell's diary begins empty, and grows with each event, with each entry and with all that its pass sees.
pub fn diaries_grow()
    ensures { DiariesGrow }
{}

/// The diaries of all shells of a plan, over a complete order, are a run of the machine by some schedule.
pub fn diaries_make_runs()
    ensures { DiariesMakeRuns }
{}

/// Each run to a complete order follows the schedule of its events' shells.
pub fn runs_have_schedules()
    ensures { RunsHaveSchedules }
{}
