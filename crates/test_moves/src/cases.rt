//! The cases of a text: each begins with its line `case`, then says its description and its folder, and then commands.

use crate::stage::{base_of, is_answer};
use crate::walk::add_walk;
use fx_base::NoMemory;
use std::alloc::Global;
use std::marker::Brand;
use std::sync::Arc;
use std::sync::ledger::Blank;

/// Adds a line to those of a case.
fn keep(case: &mut String, line: &str) -> Result<(), NoMemory> {
    if !is_answer(line) {
        case.push_str(line)?;
        case.push_str("\n")?;
    }
    Ok(())
}

/// Adds the lines of a case, each command with what it gives.
fn add_case(alloc: Global, case: &String, out: &mut String) -> Result<(), NoMemory> {
    let base = Arc::new(alloc, base_of(alloc, case.as_str())?)?;
    add_walk::<Brand>(alloc, &base, case, out, Blank::new(1))
}

/// Adds the lines of all cases but those that are answers, each command with what it gives.
pub fn add_cases(alloc: Global, text: &str, out: &mut String) -> Result<(), NoMemory> {
    let mut case = String::new(alloc);
    for line in text.lines() {
        if line.starts_with("case ") {
            add_case(alloc, &case, out)?;
            case = String::new(alloc);
        }
        keep(&mut case, line)?;
    }
    add_case(alloc, &case, out)
}
