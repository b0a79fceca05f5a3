//! Values and expressions of the description and transaction language: texts, words, sets of texts, shapes, values,
//! expressions, and what they mean. Their evaluation stands in `fx_eval`.
#![tactic(auto)]

mod env;
mod expr;
mod fault;
mod formula;
mod keyed;
mod laws;
mod lists;
mod projections;
mod shape;
mod value;
mod word;

pub use env::Env;
pub use expr::{BinOp, Expr, UnOp};
pub use fault::{EvalFault, ExprFault};
pub use formula::Formula;
pub use keyed::Keyed;
pub use laws::a_value_has_its_expressions_shape;
pub use lists::Values;
pub use shape::Shape;
pub use value::{Rows, Value};
pub use word::{WORD_LIMIT, Word};

// Texts and sets of them, which callers take from here beside the values that hold them.
pub use fx_text::{TEXT_LIMIT, Text, TextSet, UNION_LIMIT};
