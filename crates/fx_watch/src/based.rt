use std::marker::Brand;

/// The base of a run, of which only clauses know: each run picks its own.
pub(crate) trait Based {
    ghost use Rattle.fx_spec.specs.Order.{BaseTree};

    ghost base: { BaseTree };
}

impl Based for Brand {
    ghost use Rattle.std.specs.Prelude.{[]};
    ghost use Rattle.std.specs.FinMap.{empty};
    ghost use Rattle.fx_spec.specs.SpecTree.{file};

    ghost base = { record { description = file; plan = []; loaded = empty } };
}
