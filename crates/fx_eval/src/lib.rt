//! The value of an expression: evaluation, its operators, globs, and expressions whose value is kept.
#![tactic(auto)]

mod evaluation;
mod formula;
mod glob;
mod lines;
mod number;
mod operators;
mod parts;

pub use evaluation::eval;
pub use formula::{an_expression_without_names_has_one_value, eval_formula, settled_formula};
pub use glob::matches;
