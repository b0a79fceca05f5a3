//! The lines of cases, and what each gives.

use fx_base::NoMemory;
use std::alloc::Global;

/// What a case has set up so far.
pub trait Case {
    /// Adds what a line gives, in lines that begin with `>`.
    fn answer(&mut self, alloc: Global, line: &str, out: &mut String) -> Result<(), NoMemory>;
}

/// Adds a line and what it gives.
fn add_line<C: Case>(
    alloc: Global,
    case: &mut C,
    line: &str,
    out: &mut String,
) -> Result<(), NoMemory> {
    out.push_str(line)?;
    out.push_str("\n")?;
    case.answer(alloc, line, out)
}

/// Adds the lines that begin with no `>`, each with what it gives.
pub fn add_answers<C: Case>(
    alloc: Global,
    case: &mut C,
    cases: &str,
    out: &mut String,
) -> Result<(), NoMemory> {
    for line in cases.lines() {
        if !line.starts_with('>') {
            add_line(alloc, case, line, out)?;
        }
    }
    Ok(())
}
