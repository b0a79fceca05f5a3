//! The law of what `large` prints.
ghost use Rattle.fx_laws_above.specs.Totals.{LargeTellsTheSame};

/// `large` prints the same five lines at every run of a number, in whatever order its shells look and settle. All 1600
/// transactions are done. The counts come to the number of those that count. Each of the others logs a name, which is one
/// node more than the first 195.
pub fn large_tells_the_same_at_every_run()
    ensures { LargeTellsTheSame }
{}
