//! Printed values at the front of bytes.
ghost use Rattle.std.specs.Prelude.{◌≡◌, true, length, map, IfOk, IfSome};
ghost use Rattle.std.specs.List.{zip};
ghost use Rattle.std.specs.Option.{option_map};
ghost use Rattle.fx_expr.specs.Views.{tree_of};
ghost use Rattle.fx_read_report.specs.Limits.{ascends, strict};
ghost use Rattle.fx_read_report.specs.Values.{IsPrinted, alone, before, integer_value, kind_at, kind_of, names_value, nothing_value, pair_value, piece_at, pieces_at, row_at, some_value, table_value, text_at, text_value, truth_value, value_at, value_found};

use crate::numbers::{after, leading_integer};
use crate::quotes::unquoted;
use fx_base::NoMemory;
use fx_expr::{Keyed, TEXT_LIMIT, Text, TextSet, Value};
use std::alloc::Global;
use std::cmp::Ordering;

/// How deep a printed value may nest, itself counted.
pub const VALUE_LEVELS: u32 = 64;

/// The kinds of values, which the first byte tells.
#[derive(Clone, Copy)]
pub(crate) enum Kind {
    Text,
    Integer,
    Truth,
    Names,
    Pair,
    Nothing,
    Some,
    Table,
    Other,
}

#[tactic(auto, using(std::proofs::lemmas::Bool::Decides::nat_tests))]
fn kind_of(byte: u8) -> Kind
    ensures { result ≡ kind_of byte }
{
    match byte {
        b'"' => Kind::Text,
        b'-' => Kind::Integer,
        b'0'..=b'9' => Kind::Integer,
        b't' => Kind::Truth,
        b'f' => Kind::Truth,
        b'{' => Kind::Names,
        b'<' => Kind::Pair,
        b'n' => Kind::Nothing,
        b's' => Kind::Some,
        b'[' => Kind::Table,
        _ => Kind::Other,
    }
}

fn kind_at(bytes: &[u8]) -> Kind
    ensures { result ≡ kind_at bytes.now }
{
    match bytes {
        [first, ..] => kind_of(*first),
        [] => Kind::Other,
    }
}

/// The text of a quote at the front.
fn text(alloc: Global, bytes: &[u8]) -> Result<Option<(Text, &[u8])>, NoMemory>
    ensures { IfOk result
        (λ found. option_map (λ r. (r.0, r.1.now)) found ≡ text_at strict bytes.now) }
{
    match unquoted(alloc, bytes)? {
        Some((text, rest)) => {
            if text.len() <= TEXT_LIMIT {
                Ok(Some((Text::from_vec(text), rest)))
            } else {
                Ok(None)
            }
        }
        None => Ok(None),
    }
}

fn text_value(alloc: Global, bytes: &[u8]) -> Result<Option<(Value, &[u8])>, NoMemory>
    ensures { IfOk result (λ found. value_found found ≡ text_value strict bytes.now) }
{
    match text(alloc, bytes)? {
        Some((text, rest)) => Ok(Some((Value::Str(text), rest))),
        None => Ok(None),
    }
}

fn integer_value(bytes: &[u8]) -> Option<(Value, &[u8])>
    ensures { value_found result ≡ integer_value bytes.now }
{
    match leading_integer(bytes) {
        Some((integer, rest)) => Some((Value::Int(integer), rest)),
        None => None,
    }
}

fn truth_value(bytes: &[u8]) -> Option<(Value, &[u8])>
    ensures { value_found result ≡ truth_value bytes.now }
{
    if let Some(rest) = after(bytes, b"true") {
        return Some((Value::Bool(true), rest));
    }
    match after(bytes, b"false") {
        Some(rest) => Some((Value::Bool(false), rest)),
        None => None,
    }
}

fn nothing_value(bytes: &[u8]) -> Option<(Value, &[u8])>
    ensures { value_found result ≡ nothing_value bytes.now }
{
    match after(bytes, b"none") {
        Some(rest) => Some((Value::Nothing, rest)),
        None => None,
    }
}

/// What stands behind the comma before a next piece; before the first there is none.
fn piece_at(bytes: &[u8], first: bool) -> Option<&[u8]>
    ensures { option_map (λ rest. rest.now) result ≡ piece_at bytes.now first }
{
    if first {
        Some(bytes)
    } else {
        after(bytes, b", ")
    }
}

/// The texts of a set, fewer than so many, up to its closing brace.
fn texts(alloc: Global, bytes: &[u8], most: usize) -> Result<Option<(Vec<Text>, &[u8])>, NoMemory>
    ensures { IfOk result (λ found. option_map (λ r. (r.0.items, r.1.now)) found
        ≡ pieces_at (text_at strict) 125 most true bytes.now) }
{
    let mut texts = Vec::new(alloc);
    let mut rest = bytes;
    for i in 0..most {
        if let Some(end) = after(rest, b"}") {
            return Ok(Some((texts, end)));
        }
        let Some(start) = piece_at(rest, i == 0) else {
            return Ok(None);
        };
        let Some((text, behind)) = text(alloc, start)? else {
            return Ok(None);
        };
        texts.push(text)?;
        rest = behind;
    }
    Ok(None)
}

/// Whether each text is below the next.
fn is_ascending(texts: &[Text]) -> bool
    ensures { result ≡ ascends texts.now }
{
    let mut rest = texts;
    'rising: while let [first, second, ..] = rest {
        match first.cmp(second) {
            Ordering::Less => rest = &rest[1..],
            Ordering::Equal => return false,
            Ordering::Greater => return false,
        }
    }
    true
}

fn names_value(alloc: Global, bytes: &[u8]) -> Result<Option<(Value, &[u8])>, NoMemory>
    ensures { IfOk result (λ found. value_found found ≡ names_value strict bytes.now) }
{
    let Some(inner) = after(bytes, b"{") else {
        return Ok(None);
    };
    let Some((texts, rest)) = texts(alloc, inner, bytes.len())? else {
        return Ok(None);
    };
    if !is_ascending(&texts) {
        return Ok(None);
    }
    let names = TextSet::from_ascending(alloc, texts)?;
    Ok(Some((Value::Names(names), rest)))
}

/// The value at the front, which nests at most so deep, itself counted, and what stands behind it.
#[cycle(value)]
fn value(alloc: Global, bytes: &[u8], levels: u32) -> Result<Option<(Value, &[u8])>, NoMemory>
    ensures { IfOk result (λ found. value_found found ≡ value_at strict levels bytes.now) }
{
    if levels == 0 {
        return Ok(None);
    }
    match kind_at(bytes) {
        Kind::Text => text_value(alloc, bytes),
        Kind::Integer => Ok(integer_value(bytes)),
        Kind::Truth => Ok(truth_value(bytes)),
        Kind::Names => names_value(alloc, bytes),
        Kind::Pair => pair_value(alloc, bytes, levels - 1),
        Kind::Nothing => Ok(nothing_value(bytes)),
        Kind::Some => some_value(alloc, bytes, levels - 1),
        Kind::Table => table_value(alloc, bytes, levels - 1),
        Kind::Other => Ok(None),
    }
}

/// The value at the front that has these words behind it, and what stands behind them.
#[cycle(value)]
fn value_before<'a>(
    alloc: Global,
    bytes: &'a [u8],
    levels: u32,
    words: &[u8],
) -> Result<Option<(Value, &'a [u8])>, NoMemory>
    ensures { IfOk result
        (λ found. value_found found ≡ before (value_at strict levels) words.now bytes.now) }
{
    let Some((value, rest)) = value(alloc, bytes, levels)? else {
        return Ok(None);
    };
    match after(rest, words) {
        Some(behind) => Ok(Some((value, behind))),
        None => Ok(None),
    }
}

#[cycle(value)]
fn pair_value(alloc: Global, bytes: &[u8], levels: u32) -> Result<Option<(Value, &[u8])>, NoMemory>
    ensures { IfOk result
        (λ found. value_found found ≡ pair_value (value_at strict levels) bytes.now) }
{
    let Some(inner) = after(bytes, b"<") else {
        return Ok(None);
    };
    let Some((first, rest)) = value_before(alloc, inner, levels, b", ")? else {
        return Ok(None);
    };
    let Some((second, rest)) = value_before(alloc, rest, levels, b">")? else {
        return Ok(None);
    };
    let pair = Value::Pair(Box::new(alloc, first)?, Box::new(alloc, second)?);
    Ok(Some((pair, rest)))
}

#[cycle(value)]
fn some_value(alloc: Global, bytes: &[u8], levels: u32) -> Result<Option<(Value, &[u8])>, NoMemory>
    ensures { IfOk result
        (λ found. value_found found ≡ some_value (value_at strict levels) bytes.now) }
{
    let Some(inner) = after(bytes, b"some(") else {
        return Ok(None);
    };
    let Some((value, rest)) = value_before(alloc, inner, levels, b")")? else {
        return Ok(None);
    };
    Ok(Some((Value::Some(Box::new(alloc, value)?), rest)))
}

/// The row at the front.
#[cycle(value)]
fn row(alloc: Global, bytes: &[u8], levels: u32) -> Result<Option<(Text, Value, &[u8])>, NoMemory>
    ensures { IfOk result (λ found. option_map (λ r. ((r.0, tree_of r.1), r.2.now)) found
        ≡ row_at strict (value_at strict levels) bytes.now) }
{
    let Some((key, rest)) = text(alloc, bytes)? else {
        return Ok(None);
    };
    let Some(start) = after(rest, b" = ") else {
        return Ok(None);
    };
    match value(alloc, start, levels)? {
        Some((value, behind)) => Ok(Some((key, value, behind))),
        None => Ok(None),
    }
}

/// The texts and the values of a table's rows, fewer than so many, up to its closing bracket.
#[cycle(value)]
fn rows(
    alloc: Global,
    bytes: &[u8],
    levels: u32,
    most: usize,
) -> Result<Option<(Vec<Text>, Vec<Value>, &[u8])>, NoMemory>
    ensures found { IfOk result
        (λ found. option_map (λ r. (zip r.0.items (map tree_of r.1.items), r.2.now)) found
        ≡ pieces_at (row_at strict (value_at strict levels)) 93 most true bytes.now) }
    ensures sides { IfOk result (λ found. IfSome found (λ r. length r.1.items ≡ length r.0.items)) }
{
    let mut keys = Vec::new(alloc);
    let mut values = Vec::new(alloc);
    let mut rest = bytes;
    for i in 0..most {
        if let Some(end) = after(rest, b"]") {
            return Ok(Some((keys, values, end)));
        }
        let Some(start) = piece_at(rest, i == 0) else {
            return Ok(None);
        };
        let Some((key, value, behind)) = row(alloc, start, levels)? else {
            return Ok(None);
        };
        keys.push(key)?;
        values.push(value)?;
        rest = behind;
    }
    Ok(None)
}

#[cycle(value)]
fn table_value(alloc: Global, bytes: &[u8], levels: u32) -> Result<Option<(Value, &[u8])>, NoMemory>
    ensures { IfOk result
        (λ found. value_found found ≡ table_value strict (value_at strict levels) bytes.now) }
{
    let Some(inner) = after(bytes, b"[") else {
        return Ok(None);
    };
    let Some((keys, values, rest)) = rows(alloc, inner, levels, bytes.len())? else {
        return Ok(None);
    };
    if !is_ascending(&keys) {
        return Ok(None);
    }
    let keys = TextSet::from_ascending(alloc, keys)?;
    Ok(Some((Value::Table(Keyed::from_parts(keys, values)), rest)))
}

/// The value that the bytes can be the printed form of, and no other. It nests at most [`VALUE_LEVELS`] deep, itself
/// counted, its texts have at most [`TEXT_LIMIT`] bytes, and its sets and tables ascend. Some other bytes are read as a
/// value too: to tell, print it again and compare.
pub(crate) fn read_value(alloc: Global, bytes: &[u8]) -> Result<Option<Value>, NoMemory>
    ensures read { IfOk result
        (λ found. option_map tree_of found ≡ alone (value_at strict VALUE_LEVELS bytes.now)) }
    ensures fit { IfOk result
        (λ found. IfSome found (λ value. IsPrinted VALUE_LEVELS (tree_of value))) }
{
    match value(alloc, bytes, VALUE_LEVELS)? {
        Some((value, [])) => Ok(Some(value)),
        Some((_, [_, ..])) => Ok(None),
        None => Ok(None),
    }
}
