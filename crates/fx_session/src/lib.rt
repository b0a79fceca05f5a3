//! What a transaction reads through, and what calls say that may be refused or stopped: one error, and what is left of an
//! answer without it; values of expressions that nobody counts; the names in a call's body, and whether an entry exists.
#![tactic(auto)]

mod arguments;
mod binding;
mod entries;
mod evaluating;
mod halt;
mod session;

pub use arguments::inner_env;
pub use binding::bind_value;
pub use entries::exists;
pub use evaluating::evaluated;
pub use halt::Halt;
pub use session::Session;
