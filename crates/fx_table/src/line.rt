//! A line of the table file.
use fx_store::{LinkText, Path};

/// What a line says of its path.
#[derive(Debug, Drop)]
pub enum Mark {
    /// A link stands there, with this text.
    Target(LinkText),
    /// The file there is executable.
    Executable,
}

/// A line of the table: a path, and what is said of it.
#[derive(Debug, Drop)]
pub struct TableLine {
    pub path: Path,
    pub mark: Mark,
}
