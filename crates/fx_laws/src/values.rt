//! Laws of values: which descriptions have one, and which values a checked transaction meets.
ghost use Rattle.fx_laws.specs.Valid.{ValidIsValued};
ghost use Rattle.fx_laws.specs.Storable.{ValuesAreStorable};
ghost use Rattle.fx_laws.specs.Scoped.{CommandsKeepShapes, BlocksKeepShapes};

/// `validate` tells true exactly where `value` of the description's shape has an answer.
pub fn what_is_valid_has_a_value()
    ensures { ValidIsValued }
{}

/// At each of its commands, a checked transaction's variables have the shapes in which the command is well shaped. So its
/// expressions never meet a value of another shape.
pub fn a_checked_transaction_keeps_its_shapes()
    ensures command { CommandsKeepShapes }
    ensures block { BlocksKeepShapes }
{}

/// Over texts, integers and sets that can be stored, an expression gives such a value. So does a fetch from a whole filestore.
/// Each such value can be stored, if the form takes its shape.
pub fn what_is_evaluated_or_fetched_can_be_stored()
    ensures { ValuesAreStorable }
{}
