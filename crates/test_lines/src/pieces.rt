//! The words of a line.

/// The first word of a line, and what stands behind the space behind it.
pub fn split_word(line: &str) -> (&str, &str) {
    match line.split_once(' ') {
        Some(parts) => parts,
        None => (line, ""),
    }
}

/// The number that a text spells, and 0 where it spells none.
pub fn number(text: &str) -> u32 {
    text.parse::<u32>().unwrap_or(0)
}

/// The integer that a text spells, and 0 where it spells none.
pub fn integer(text: &str) -> i64 {
    text.parse::<i64>().unwrap_or(0)
}
