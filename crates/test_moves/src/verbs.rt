//! The words of commands.

/// A move.
#[derive(Clone, Copy)]
pub enum Move {
    Into,
    To,
    Next,
    Prev,
    Out,
    Down,
    Up,
    Top,
}

/// What is asked at the place.
#[derive(Clone, Copy)]
pub enum Question {
    Fetch,
    Value,
    Validate,
}

#[derive(Clone, Copy)]
pub enum Edit {
    Store,
    Create,
    Remove,
}

/// What is put at a path as an own change.
#[derive(Clone, Copy)]
pub enum Put {
    File,
    /// A file that is executable.
    Exec,
    Dir,
    Link,
    Nothing,
}

#[derive(Clone, Copy)]
pub enum Verb {
    /// A line that is no command.
    Note,
    Move(Move),
    Question(Question),
    Edit(Edit),
    Put(Put),
    /// The place, with the names bound there.
    Place,
    /// The paths that were read.
    Reads,
    /// The own changes.
    Own,
}

const VERBS: &[(&str, Verb)] = &[
    ("into", Verb::Move(Move::Into)),
    ("to", Verb::Move(Move::To)),
    ("next", Verb::Move(Move::Next)),
    ("prev", Verb::Move(Move::Prev)),
    ("out", Verb::Move(Move::Out)),
    ("down", Verb::Move(Move::Down)),
    ("up", Verb::Move(Move::Up)),
    ("top", Verb::Move(Move::Top)),
    ("fetch", Verb::Question(Question::Fetch)),
    ("value", Verb::Question(Question::Value)),
    ("validate", Verb::Question(Question::Validate)),
    ("store", Verb::Edit(Edit::Store)),
    ("create", Verb::Edit(Edit::Create)),
    ("remove", Verb::Edit(Edit::Remove)),
    ("put-file", Verb::Put(Put::File)),
    ("put-exec", Verb::Put(Put::Exec)),
    ("put-dir", Verb::Put(Put::Dir)),
    ("put-link", Verb::Put(Put::Link)),
    ("put-none", Verb::Put(Put::Nothing)),
    ("place", Verb::Place),
    ("reads", Verb::Reads),
    ("own", Verb::Own),
];

/// What a line's first word asks for.
pub fn verb_of(word: &str) -> Verb {
    for (name, verb) in VERBS {
        if *name == word {
            return *verb;
        }
    }
    Verb::Note
}
