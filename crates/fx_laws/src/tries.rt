//! The law of `try`.
ghost use Rattle.fx_laws.specs.Tried.{RefusedTriesLeaveAll};

/// A `try` whose act is refused changes nothing but its own name, which is bound to the refusal's number.
pub fn a_refused_try_changes_nothing()
    ensures { RefusedTriesLeaveAll }
{}
