ghost use Rattle.std.specs.Prelude.{◌≡◌};
ghost use Rattle.fx_parse.specs.Beginnings.{beginning_with};
ghost use Rattle.fx_parse.specs.Keywords.{found_in, keyword_bytes, keyword_of};

/// A word that the language keeps for itself, so that it names nothing.
#[derive(Clone, Copy, Debug, PartialEq, Eq, Hash)]
pub enum Keyword {
    File,
    Dir,
    Link,
    Opt,
    Pred,
    In,
    Only,
    If,
    Else,
    And,
    Or,
    Not,
    Union,
    Minus,
    One,
    Lines,
    Size,
    Int,
    Text,
    First,
    Second,
    Keys,
    Present,
    True,
    False,
    Empty,
    Txn,
    Into,
    To,
    Next,
    Prev,
    Out,
    Down,
    Up,
    Top,
    Let,
    Set,
    Fetch,
    Value,
    Validate,
    Print,
    Store,
    Create,
    Remove,
    Try,
    Each,
    Abort,
    Str,
    Bool,
    Names,
    Pair,
    Table,
}

/// Every kept word.
pub const KEYWORDS: [Keyword; 52] = [
    Keyword::File,
    Keyword::Dir,
    Keyword::Link,
    Keyword::Opt,
    Keyword::Pred,
    Keyword::In,
    Keyword::Only,
    Keyword::If,
    Keyword::Else,
    Keyword::And,
    Keyword::Or,
    Keyword::Not,
    Keyword::Union,
    Keyword::Minus,
    Keyword::One,
    Keyword::Lines,
    Keyword::Size,
    Keyword::Int,
    Keyword::Text,
    Keyword::First,
    Keyword::Second,
    Keyword::Keys,
    Keyword::Present,
    Keyword::True,
    Keyword::False,
    Keyword::Empty,
    Keyword::Txn,
    Keyword::Into,
    Keyword::To,
    Keyword::Next,
    Keyword::Prev,
    Keyword::Out,
    Keyword::Down,
    Keyword::Up,
    Keyword::Top,
    Keyword::Let,
    Keyword::Set,
    Keyword::Fetch,
    Keyword::Value,
    Keyword::Validate,
    Keyword::Print,
    Keyword::Store,
    Keyword::Create,
    Keyword::Remove,
    Keyword::Try,
    Keyword::Each,
    Keyword::Abort,
    Keyword::Str,
    Keyword::Bool,
    Keyword::Names,
    Keyword::Pair,
    Keyword::Table,
];

impl Keyword {
    /// The word in bytes.
    pub fn bytes(self) -> &'static [u8]
        ensures { result.now ≡ keyword_bytes self }
    {
        match self {
            Keyword::File => b"file",
            Keyword::Dir => b"dir",
            Keyword::Link => b"link",
            Keyword::Opt => b"opt",
            Keyword::Pred => b"pred",
            Keyword::In => b"in",
            Keyword::Only => b"only",
            Keyword::If => b"if",
            Keyword::Else => b"else",
            Keyword::And => b"and",
            Keyword::Or => b"or",
            Keyword::Not => b"not",
            Keyword::Union => b"union",
            Keyword::Minus => b"minus",
            Keyword::One => b"one",
            Keyword::Lines => b"lines",
            Keyword::Size => b"size",
            Keyword::Int => b"int",
            Keyword::Text => b"text",
            Keyword::First => b"first",
            Keyword::Second => b"second",
            Keyword::Keys => b"keys",
            Keyword::Present => b"present",
            Keyword::True => b"true",
            Keyword::False => b"false",
            Keyword::Empty => b"empty",
            Keyword::Txn => b"txn",
            Keyword::Into => b"into",
            Keyword::To => b"to",
            Keyword::Next => b"next",
            Keyword::Prev => b"prev",
            Keyword::Out => b"out",
            Keyword::Down => b"down",
            Keyword::Up => b"up",
            Keyword::Top => b"top",
            Keyword::Let => b"let",
            Keyword::Set => b"set",
            Keyword::Fetch => b"fetch",
            Keyword::Value => b"value",
            Keyword::Validate => b"validate",
            Keyword::Print => b"print",
            Keyword::Store => b"store",
            Keyword::Create => b"create",
            Keyword::Remove => b"remove",
            Keyword::Try => b"try",
            Keyword::Each => b"each",
            Keyword::Abort => b"abort",
            Keyword::Str => b"str",
            Keyword::Bool => b"bool",
            Keyword::Names => b"names",
            Keyword::Pair => b"pair",
            Keyword::Table => b"table",
        }
    }
}

/// The kept word that these bytes are; None exactly where they are none. Only words that begin as they do are tried.
pub fn keyword_of(word: &[u8]) -> Option<Keyword>
    ensures { result ≡ keyword_of word.now }
{
    match word {
        [first, ..] => found(beginning_with(*first), word),
        [] => None,
    }
}

// The kept words that begin with this byte: those that texts have most, first.
fn beginning_with(first: u8) -> &'static [Keyword]
    ensures { result.now ≡ beginning_with first }
{
    match first {
        b'a' => &[Keyword::And, Keyword::Abort],
        b'b' => &[Keyword::Bool],
        b'c' => &[Keyword::Create],
        b'd' => &[Keyword::Dir, Keyword::Down],
        b'e' => &[Keyword::Each, Keyword::Else, Keyword::Empty],
        b'f' => &[
            Keyword::File,
            Keyword::Fetch,
            Keyword::First,
            Keyword::False,
        ],
        b'i' => &[Keyword::In, Keyword::Int, Keyword::If, Keyword::Into],
        b'k' => &[Keyword::Keys],
        b'l' => &[Keyword::Let, Keyword::Link, Keyword::Lines],
        b'm' => &[Keyword::Minus],
        b'n' => &[Keyword::Next, Keyword::Not, Keyword::Names],
        b'o' => &[
            Keyword::Or,
            Keyword::Out,
            Keyword::Opt,
            Keyword::One,
            Keyword::Only,
        ],
        b'p' => &[
            Keyword::Pair,
            Keyword::Prev,
            Keyword::Pred,
            Keyword::Print,
            Keyword::Present,
        ],
        b'r' => &[Keyword::Remove],
        b's' => &[
            Keyword::Str,
            Keyword::Store,
            Keyword::Set,
            Keyword::Size,
            Keyword::Second,
        ],
        b't' => &[
            Keyword::To,
            Keyword::Txn,
            Keyword::Text,
            Keyword::Top,
            Keyword::Try,
            Keyword::True,
            Keyword::Table,
        ],
        b'u' => &[Keyword::Union, Keyword::Up],
        b'v' => &[Keyword::Value, Keyword::Validate],
        _ => &[],
    }
}

// The one of these words that the bytes are.
fn found(keywords: &[Keyword], word: &[u8]) -> Option<Keyword>
    ensures { result ≡ found_in keywords.now word.now }
{
    keywords
        .iter()
        .copied()
        .find(|keyword| keyword.bytes() == word)
}
