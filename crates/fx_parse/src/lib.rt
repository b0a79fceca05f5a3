//! Expressions and shapes, read from the tokens of a text.
#![tactic(auto)]

mod cursor;
mod expr;
mod fault;
mod head;
mod keyword;
mod laws;
mod parse;
mod shape;
mod shape_head;
mod sign;
mod stop;

pub use cursor::first_of;
pub use expr::expr_at;
pub use fault::ParseFault;
pub use keyword::{KEYWORDS, Keyword, keyword_of};
pub use laws::{one_place, one_reading};
pub use parse::{LEVEL_LIMIT, fault_at, parse_expr, parse_shape};
pub use shape::shape_at;
pub use sign::{Sign, behind, closed, name_at};
pub use stop::Stop;
