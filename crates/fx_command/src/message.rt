//! The line on standard error for a status other than 0. It takes no memory.
ghost use Rattle.std.specs.Prelude.{◌≡◌, ◌↔◌, None};

use crate::status::{Status, TextFault};
use fx_expr::{Shape, Word};
use fx_folder::FolderCause;
use fx_outside::{HostText, Words};
use std::fmt::{self, Display, Formatter};

const HEX: [char; 16] = [
    '0', '1', '2', '3', '4', '5', '6', '7', '8', '9', 'a', 'b', 'c', 'd', 'e', 'f',
];

/// The line of a run that is not done, without its line feed.
#[derive(Clone, Copy)]
pub struct Message<'a> {
    words: &'a Words,
    status: &'a Status,
}

impl<'a> Message<'a> {
    /// The line; none for a run that is done.
    pub fn of(words: &'a Words, status: &'a Status) -> Option<Message<'a>>
        ensures { (result ≡ None) ↔ (status.now ≡ Status.Done) }
    {
        match status {
            Status::Done => None,
            _ => Some(Message { words, status }),
        }
    }
}

impl Display for Message<'_> {
    fn fmt<W: fmt::Write>(&self, f: &mut Formatter<W>) -> fmt::Result {
        f.write_str("txforest: ")?;
        match self.status {
            Status::Done => Ok(()),
            Status::Usage => f.write_str("usage"),
            Status::TextRefused { word, cause } => text_refused(f, self.words, *word, cause),
            Status::FolderRefused(cause) => folder_refused(f, cause),
            Status::ReadFault => f.write_str("read fault"),
            Status::NotEmpty => f.write_str("output is not empty"),
            Status::WriteFault => f.write_str("write fault"),
            Status::NoMemory => f.write_str("out of memory"),
            Status::BadJournal { place: _ } => f.write_str("bad journal"),
        }
    }
}

fn text_refused<W: fmt::Write>(
    f: &mut Formatter<W>,
    words: &Words,
    word: u32,
    cause: &TextFault,
) -> fmt::Result {
    if let Some(file) = words.at(u64::from(word)) {
        put_file(f, file)?;
    }
    f.write_str(": ")?;
    put_text_fault(f, cause)
}

/// The file as its word names it. Control characters of ASCII and backslashes are spelled as the report spells them.
fn put_file<W: fmt::Write>(f: &mut Formatter<W>, file: &HostText) -> fmt::Result {
    for c in file.as_str().chars() {
        if c.is_ascii_control() || c == '\\' {
            put_byte(f, c as u8)?;
        } else {
            f.write_char(c)?;
        }
    }
    Ok(())
}

fn put_text_fault<W: fmt::Write>(f: &mut Formatter<W>, cause: &TextFault) -> fmt::Result {
    match cause {
        TextFault::TooLarge => f.write_str("TooLarge"),
        TextFault::BadToken(place) => put_place(f, "BadToken", *place),
        TextFault::Unexpected(place) => put_place(f, "Unexpected", *place),
        TextFault::TooNested(place) => put_place(f, "TooNested", *place),
        TextFault::Unknown(word) => put_word(f, "Unknown", word),
        TextFault::TypeDiffers { expected, found } => put_shapes(f, expected, found),
        TextFault::Repeated(word) => put_word(f, "Repeated", word),
        TextFault::TooMany => f.write_str("TooMany"),
    }
}

fn put_place<W: fmt::Write>(f: &mut Formatter<W>, name: &str, place: u32) -> fmt::Result {
    f.write_str(name)?;
    write!(f, " {place}")
}

fn put_word<W: fmt::Write>(f: &mut Formatter<W>, name: &str, word: &Word) -> fmt::Result {
    f.write_str(name)?;
    f.write_str(" ")?;
    for byte in word.as_slice() {
        f.write_char(char::from(*byte))?;
    }
    Ok(())
}

fn put_shapes<W: fmt::Write>(f: &mut Formatter<W>, expected: &Shape, found: &Shape) -> fmt::Result {
    f.write_str("TypeDiffers ")?;
    put_shape(f, expected)?;
    f.write_str(" ")?;
    put_shape(f, found)
}

/// A shape as scripts spell it.
fn put_shape<W: fmt::Write>(f: &mut Formatter<W>, shape: &Shape) -> fmt::Result {
    match shape {
        Shape::Str => f.write_str("str"),
        Shape::Int => f.write_str("int"),
        Shape::Bool => f.write_str("bool"),
        Shape::Names => f.write_str("names"),
        Shape::Pair(first, second) => {
            f.write_str("pair(")?;
            put_shape(f, first)?;
            f.write_str(", ")?;
            put_shape(f, second)?;
            f.write_str(")")
        }
        Shape::Opt(part) => {
            f.write_str("opt(")?;
            put_shape(f, part)?;
            f.write_str(")")
        }
        Shape::Table(part) => {
            f.write_str("table(")?;
            put_shape(f, part)?;
            f.write_str(")")
        }
    }
}

fn folder_refused<W: fmt::Write>(f: &mut Formatter<W>, cause: &FolderCause) -> fmt::Result {
    f.write_str("folder: ")?;
    match cause {
        FolderCause::BadName(path) => put_path(f, "BadName", path),
        FolderCause::Strange(path) => put_path(f, "Strange", path),
        FolderCause::TooLarge(path) => put_path(f, "TooLarge", path),
        FolderCause::BadTable(number) => write!(f, "BadTable {number}"),
    }
}

/// A path between quotation marks, as the report prints one.
fn put_path<W: fmt::Write>(f: &mut Formatter<W>, name: &str, path: &HostText) -> fmt::Result {
    f.write_str(name)?;
    f.write_str(" \"")?;
    for byte in path.as_str().as_bytes() {
        put_byte(f, *byte)?;
    }
    f.write_str("\"")
}

fn put_byte<W: fmt::Write>(f: &mut Formatter<W>, byte: u8) -> fmt::Result {
    match byte {
        b'"' => f.write_str("\\\""),
        b'\\' => f.write_str("\\\\"),
        b'\n' => f.write_str("\\n"),
        0x20..=0x7e => f.write_char(char::from(byte)),
        _ => {
            f.write_str("\\x")?;
            f.write_char(HEX[usize::from(byte / 16)])?;
            f.write_char(HEX[usize::from(byte % 16)])
        }
    }
}
