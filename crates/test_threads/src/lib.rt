//! Tests of turns in threads, and of a gate that holds nobody. The library is empty.
#![tactic(auto)]

#[cfg(test)]
mod gates;
#[cfg(test)]
mod turns;
