//! Laws of progress: a transaction looks at paths alone, a run goes on from every state that it reaches, and it comes to its
//! end whatever turns are left. Each law stands on a function that does nothing, so that it is proved with the crate.

ghost use Rattle.fx_machine.specs.Asks.{LooksAtPaths};
ghost use Rattle.fx_machine.specs.Ends.{GoesOn, ComesToEnd};

/// A transaction looks at paths alone, on every filestore whose nodes are within their limits, whole or not.
pub fn a_transaction_looks_at_paths_alone()
    ensures { LooksAtPaths }
{}

/// In each state of a run from the start, a shell that has a transaction left has an event.
pub fn a_run_goes_on()
    ensures { GoesOn }
{}

/// Each run from the start by some turns of a schedule comes to its end by those that are left.
pub fn a_run_comes_to_its_end()
    ensures { ComesToEnd }
{}
