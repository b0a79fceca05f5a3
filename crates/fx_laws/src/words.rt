//! The law of the words.
ghost use Rattle.fx_laws.specs.Worded.{JobsTellTheirWords};

/// A job tells the words that ask for it. So no two lists of words ask for one job.
pub fn a_job_tells_its_words()
    ensures { JobsTellTheirWords }
{}
