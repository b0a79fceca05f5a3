//! The engine: it runs a transaction over a reader, as an attempt. Its commands are obeyed one after another, each act and each
//! question at the place where the transaction walks.
#![tactic(auto)]

mod acting;
mod acts;
mod asking;
mod binding;
mod counting;
mod editing;
mod engine;
mod evaluating;
mod finishing;
mod leave;
mod obeying;
mod pursuing;
mod walk;
mod work;

pub use engine::run;
