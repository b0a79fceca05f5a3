//! Laws of what the zipper's clauses come to together. Each stands on a function that does nothing, so that it is proved with
//! the crate.
ghost use Rattle.fx_zip.specs.Worked.{CallsEvaluate, WalksInFive};

use fx_view::Reader;
use std::sync::ledger::Ledger;

/// Calls that are accepted, one after another from a settled zipper, evaluate at most as often as each by itself: nothing is
/// evaluated to find places again.
pub fn accepted_calls_evaluate_no_more<R: Reader, L: Ledger>()
    ensures { CallsEvaluate L R.meaning }
{}

/// A walk among the files of a directory: ten calls, all accepted, that may evaluate five times together.
pub fn a_worked_walk()
    ensures { WalksInFive }
{}
