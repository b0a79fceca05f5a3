//! The check of names and shapes: a tree that was read is well shaped, or has a first fault.
#![tactic(auto)]

mod expr;
mod fault;
mod laws;
mod scope;
mod script;
mod settling;
mod spec;
mod text;

pub use fault::CheckFault;
pub use laws::{
    a_checked_block_is_well_shaped, a_checked_description_is_well_shaped,
    a_checked_text_is_well_shaped, a_shaped_expression_has_its_shape,
    checked_transactions_are_well_shaped,
};
pub use script::check_script;
pub use text::check;
