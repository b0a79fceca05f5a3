//! The limits and the places of words that definitions cite by the names of the code's constants, as numbers.
ghost use Rattle.fx_laws_above.specs.Limits.{LimitsAreThese};

/// The limits are these numbers, and so are the places of REPORT and VIEWS. A constant that is changed is refused here.
pub fn limits_are_these_numbers()
    ensures { LimitsAreThese }
{}
