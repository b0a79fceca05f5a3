//! Diaries of shells: what a shell's looks and settles, noted apart, say of the whole run; and laws on them.
#![tactic(auto)]

pub mod laws;
