//! The verbs of cases.

/// The verb of a word, if there is one.
pub fn verb_of<V: Copy>(verbs: &[(&str, V)], word: &str) -> Option<V> {
    for (name, verb) in verbs {
        if *name == word {
            return Some(*verb);
        }
    }
    None
}
