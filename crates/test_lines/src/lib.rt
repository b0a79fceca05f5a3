//! What programs of cases share: the lines of cases and what stands in them; calls on a host and a sink in memory; and what is told
//! of bytes and of trees.
#![tactic(auto)]

mod bytes;
mod cases;
mod escapes;
mod hosts;
mod pieces;
mod places;
mod sums;
mod telling;
mod verbs;
mod words;

pub use bytes::{add_bytes, tell, tell_bytes};
pub use cases::{Case, add_answers};
pub use escapes::unescaped;
pub use hosts::{Call, tell_call, tell_on, tell_writes};
pub use pieces::{integer, number, split_word};
pub use places::{host_text, put};
pub use telling::{Detail, tell_left, tell_tree};
pub use verbs::verb_of;
pub use words::words_of;
