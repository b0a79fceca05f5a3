//! The tokens of a description or script text.
#![tactic(auto)]

mod byte;
mod keep;
mod lexer;
mod list;
mod mark;
mod number;
mod scan;
mod string;
mod token;

pub use lexer::{lex, one_reading};
pub use list::Tokens;
pub use token::{LexFault, Mark, Spanned, Token};
