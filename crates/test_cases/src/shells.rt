//! The shells of a report's entries.
use fx_base::NoMemory;
use std::alloc::Global;

/// The lines of a report before those of its retries.
pub fn entry_lines(report: &str) -> &str {
    match report.split_once("\nretries ") {
        Some((entries, _)) => entries,
        None => report,
    }
}

/// The shell of a line `entry I shell K ..`.
fn shell_of(line: &str) -> Option<u32> {
    let mut words = line.split(' ');
    if words.next()? != "entry" {
        return None;
    }
    words.nth(2)?.parse::<u32>().ok()
}

/// The shells of the entries of a report, in order.
pub fn shells_of(alloc: Global, report: &str) -> Result<Vec<u32>, NoMemory> {
    let mut shells = Vec::new(alloc);
    for line in report.lines() {
        if let Some(shell) = shell_of(line) {
            shells.push(shell)?;
        }
    }
    Ok(shells)
}
