//! Laws of definitions that are said in two places.
ghost use Rattle.fx_laws_above.specs.Twice.{SaidTwice, NumeralsAreLimits};

/// What two crates say, since neither stands on the other, is the same: the order of names and of paths, the path above, the
/// last name, the shape of a description's value, and a table that lacks its flags.
pub fn what_is_said_twice_is_the_same()
    ensures { SaidTwice }
{}

/// The numerals that definitions have in place of a limit are that limit.
pub fn numerals_are_the_limits()
    ensures { NumeralsAreLimits }
{}
