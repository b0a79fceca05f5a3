//! Texts, paths, shapes, values and nodes, as the lines of cases spell them.

use crate::verbs::Put;
use fx_base::{NoMemory, SOURCE_LIMIT};
use fx_expr::{Shape, TEXT_LIMIT, Text, TextSet, Value};
use fx_lex::{LexFault, Tokens, lex};
use fx_parse::parse_shape;
use fx_store::{Bytes, LinkText, Name, Names, Node, Path};
use std::alloc::Global;
use test_lines::{integer, split_word, unescaped};

/// A text as it stands in a case, up to the limit of texts.
pub fn text_of(alloc: Global, spelled: &str) -> Result<Text, NoMemory> {
    let mut bytes = unescaped(alloc, spelled)?;
    bytes.truncate(TEXT_LIMIT);
    Ok(Text::from_vec(bytes))
}

/// The path of a text; the root where it is none.
pub fn path_of(alloc: Global, spelled: &str) -> Result<Path, NoMemory> {
    let bytes = unescaped(alloc, spelled)?;
    match Path::read(alloc, &bytes) {
        Ok(path) => Ok(path),
        Err(_) => Ok(Path::root(alloc)),
    }
}

/// The tokens of a text; none where it is too large.
fn tokens_of(alloc: Global, bytes: &[u8]) -> Result<Tokens, LexFault> {
    let short = bytes.len() <= SOURCE_LIMIT;
    if short {
        lex(alloc, bytes)
    } else {
        Err(LexFault::NoMemory)
    }
}

/// The shape of tokens; that of an integer where they are none.
fn read_shape(alloc: Global, tokens: &Tokens) -> Shape {
    match parse_shape(alloc, tokens, 0, 1) {
        Ok((shape, _)) => shape,
        Err(_) => Shape::Int,
    }
}

/// The shape of a text; that of an integer where it is none.
pub fn shape_of(alloc: Global, spelled: &str) -> Result<Shape, NoMemory> {
    let bytes = unescaped(alloc, spelled)?;
    match tokens_of(alloc, &bytes) {
        Ok(tokens) => Ok(read_shape(alloc, &tokens)),
        Err(_) => Ok(Shape::Int),
    }
}

/// Adds the texts between commas, of which an empty one is none.
fn add_texts(alloc: Global, texts: &mut Vec<Text>, spelled: &str) -> Result<(), NoMemory> {
    for part in spelled.split(',') {
        if !part.is_empty() {
            texts.push(text_of(alloc, part)?)?;
        }
    }
    Ok(())
}

/// The set of the texts between commas.
fn set_of(alloc: Global, spelled: &str) -> Result<TextSet, NoMemory> {
    let mut texts = Vec::new(alloc);
    add_texts(alloc, &mut texts, spelled)?;
    TextSet::from_texts(alloc, texts)
}

/// The value of a kind and a text: `str`, `names`, `int`, and else a truth value.
pub fn value_of(alloc: Global, spelled: &str) -> Result<Value, NoMemory> {
    let (kind, text) = split_word(spelled);
    match kind {
        "str" => Ok(Value::Str(text_of(alloc, text)?)),
        "names" => Ok(Value::Names(set_of(alloc, text)?)),
        "int" => Ok(Value::Int(integer(text))),
        _ => Ok(Value::Bool(kind == "true")),
    }
}

/// Adds a name to a directory, where the bytes are one.
fn add_name(alloc: Global, names: &mut Names, bytes: &[u8]) -> Result<(), NoMemory> {
    if let Ok(name) = Name::read(alloc, bytes) {
        *names = names.with(alloc, &name)?;
    }
    Ok(())
}

/// The names between commas.
fn names_of(alloc: Global, spelled: &str) -> Result<Names, NoMemory> {
    let mut names = Names::new(alloc);
    for part in spelled.split(',') {
        add_name(alloc, &mut names, &unescaped(alloc, part)?)?;
    }
    Ok(names)
}

fn file_of(alloc: Global, spelled: &str, exec: bool) -> Result<Node, NoMemory> {
    let mut bytes = unescaped(alloc, spelled)?;
    bytes.truncate(TEXT_LIMIT);
    let bytes = Bytes::from_vec(bytes);
    Ok(Node::File { bytes, exec })
}

/// The link of a text; none where it is no link's text.
fn link_of(alloc: Global, spelled: &str) -> Result<Option<Node>, NoMemory> {
    let bytes = unescaped(alloc, spelled)?;
    match LinkText::read(alloc, &bytes) {
        Ok(link) => Ok(Some(Node::Link(link))),
        Err(_) => Ok(None),
    }
}

/// The node that is put, or none.
pub fn node_of(alloc: Global, put: Put, spelled: &str) -> Result<Option<Node>, NoMemory> {
    match put {
        Put::File => Ok(Some(file_of(alloc, spelled, false)?)),
        Put::Exec => Ok(Some(file_of(alloc, spelled, true)?)),
        Put::Dir => Ok(Some(Node::Dir(names_of(alloc, spelled)?))),
        Put::Link => link_of(alloc, spelled),
        Put::Nothing => Ok(None),
    }
}
