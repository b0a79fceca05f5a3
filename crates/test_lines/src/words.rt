//! The words of a command line.

use crate::places::host_text;
use fx_base::NoMemory;
use fx_outside::Words;
use std::alloc::Global;

/// The words of a line between its spaces; none in an empty line.
pub fn words_of(alloc: Global, line: &str) -> Result<Words, NoMemory> {
    let mut words = Words::new(alloc);
    if line.is_empty() {
        return Ok(words);
    }
    for word in line.split(' ') {
        words.add(alloc, host_text(alloc, word)?)?;
    }
    Ok(words)
}
