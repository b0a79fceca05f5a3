//! Laws of what a run begins with, and of what its report tells.
ghost use Rattle.fx_laws_above.specs.Begun.{OneBase, ReportsTellTheState};

/// The texts and the folder of a host's tree stand for one base at most.
pub fn a_run_begins_in_one_way()
    ensures { OneBase }
{}

/// A report tells the last filestore. If two runs from the same texts and folder have the same report, then they have the
/// same order, the same retries and the same last filestore.
pub fn a_report_tells_the_last_state()
    ensures { ReportsTellTheState }
{}
