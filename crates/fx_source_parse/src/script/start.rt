ghost use Rattle.std.specs.Prelude.{◌≡◌};
ghost use Rattle.fx_spec.specs.Views.{act_tree};
ghost use Rattle.fx_source_parse.specs.Scripts.Reader.{plain_tree, keyword_start, start_of, act_start, is_nothing};

use fx_lex::Token;
use fx_parse::{Keyword, keyword_of};
use fx_spec::Act;

/// An act that is its one token.
#[derive(Clone, Copy)]
pub(crate) enum Plain {
    Into,
    Next,
    Prev,
    Out,
    Down,
    Up,
    Top,
    Create,
    Remove,
}

/// What the first token of an act begins.
#[derive(Clone, Copy)]
pub(crate) enum ActStart {
    Plain(Plain),
    To,
    Store,
}

/// What the first token of a command begins.
#[derive(Clone, Copy)]
pub(crate) enum Start {
    Act(ActStart),
    Try,
    Let,
    Set,
    Fetch,
    Value,
    Validate,
    Print,
    If,
    Each,
    Abort,
    Nothing,
}

pub(crate) fn plain_act(plain: Plain) -> Act
    ensures { act_tree result ≡ plain_tree plain }
{
    match plain {
        Plain::Into => Act::Into,
        Plain::Next => Act::Next,
        Plain::Prev => Act::Prev,
        Plain::Out => Act::Out,
        Plain::Down => Act::Down,
        Plain::Up => Act::Up,
        Plain::Top => Act::Top,
        Plain::Create => Act::Create,
        Plain::Remove => Act::Remove,
    }
}

fn keyword_start(keyword: Keyword) -> Start
    ensures { result ≡ keyword_start keyword }
{
    match keyword {
        Keyword::Into => Start::Act(ActStart::Plain(Plain::Into)),
        Keyword::Next => Start::Act(ActStart::Plain(Plain::Next)),
        Keyword::Prev => Start::Act(ActStart::Plain(Plain::Prev)),
        Keyword::Out => Start::Act(ActStart::Plain(Plain::Out)),
        Keyword::Down => Start::Act(ActStart::Plain(Plain::Down)),
        Keyword::Up => Start::Act(ActStart::Plain(Plain::Up)),
        Keyword::Top => Start::Act(ActStart::Plain(Plain::Top)),
        Keyword::Create => Start::Act(ActStart::Plain(Plain::Create)),
        Keyword::Remove => Start::Act(ActStart::Plain(Plain::Remove)),
        Keyword::To => Start::Act(ActStart::To),
        Keyword::Store => Start::Act(ActStart::Store),
        Keyword::Try => Start::Try,
        Keyword::Let => Start::Let,
        Keyword::Set => Start::Set,
        Keyword::Fetch => Start::Fetch,
        Keyword::Value => Start::Value,
        Keyword::Validate => Start::Validate,
        Keyword::Print => Start::Print,
        Keyword::If => Start::If,
        Keyword::Each => Start::Each,
        Keyword::Abort => Start::Abort,
        _ => Start::Nothing,
    }
}

pub(crate) fn start_of(token: &Token) -> Start
    ensures { result ≡ start_of token.now }
{
    match token {
        Token::Word(word) => match keyword_of(word.as_slice()) {
            Some(keyword) => keyword_start(keyword),
            None => Start::Nothing,
        },
        Token::Number(_) => Start::Nothing,
        Token::Str(_) => Start::Nothing,
        Token::Def => Start::Nothing,
        Token::Mark(_) => Start::Nothing,
    }
}

/// The act that begins here; None exactly where none does.
pub(crate) fn act_start(start: Start) -> Option<ActStart>
    ensures { result ≡ act_start start }
{
    match start {
        Start::Act(act) => Some(act),
        _ => None,
    }
}

pub(crate) fn is_nothing(start: Start) -> bool
    ensures { result ≡ is_nothing start }
{
    matches!(start, Start::Nothing)
}
