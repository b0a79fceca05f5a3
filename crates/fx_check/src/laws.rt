//! Laws of the checks. Each stands on a function that does nothing, so that it is proved with the crate.
ghost use Rattle.fx_check.specs.Laws.{ShapedHasShape, CheckedIsDescription, CheckedIsText, CheckedIsBlock, CheckedAreTransactions};

/// An expression is found to have a shape exactly where it has it.
pub fn a_shaped_expression_has_its_shape()
    ensures { ShapedHasShape }
{}

/// A description is found without a fault exactly where it is well shaped, with the shape of its value.
pub fn a_checked_description_is_well_shaped()
    ensures { CheckedIsDescription }
{}

/// So is a text: its definitions are well shaped, and its root is.
pub fn a_checked_text_is_well_shaped()
    ensures { CheckedIsText }
{}

/// Commands are found without a fault exactly where they are well shaped.
pub fn a_checked_block_is_well_shaped()
    ensures { CheckedIsBlock }
{}

/// So are transactions.
pub fn checked_transactions_are_well_shaped()
    ensures { CheckedAreTransactions }
{}
