//! Values that are made of parts, in place of an expression's. Each word of a line makes a value, of the values before it
//! where it has parts: `true`, `false`, `none`, `int:N`, `str:TEXT`, `names:TEXT,..`, `table:TEXT=TEXT,..`, and behind their
//! parts `some` and `pair`.

use crate::values::text;
use fx_base::NoMemory;
use fx_expr::{Keyed, Text, TextSet, Value};
use fx_report::value_line;
use std::alloc::Global;
use test_lines::{integer, tell_bytes};

/// Adds the texts between commas.
fn add_texts(alloc: Global, texts: &mut Vec<Text>, spelled: &str) -> Result<(), NoMemory> {
    for part in spelled.split(',') {
        texts.push(text(alloc, part)?)?;
    }
    Ok(())
}

/// The set of the texts between commas.
fn names(alloc: Global, spelled: &str) -> Result<TextSet, NoMemory> {
    let mut texts = Vec::new(alloc);
    add_texts(alloc, &mut texts, spelled)?;
    TextSet::from_texts(alloc, texts)
}

/// The integer that a text spells, and the text itself where it spells none.
fn scalar(alloc: Global, spelled: &str) -> Result<Value, NoMemory> {
    match spelled.parse::<i64>() {
        Ok(n) => Ok(Value::Int(n)),
        Err(_) => Ok(Value::Str(text(alloc, spelled)?)),
    }
}

/// Adds the key and the value of a row.
fn add_row(
    alloc: Global,
    row: &str,
    keys: &mut Vec<Text>,
    values: &mut Vec<Value>,
) -> Result<(), NoMemory> {
    if let Some((key, value)) = row.split_once('=') {
        keys.push(text(alloc, key)?)?;
        values.push(scalar(alloc, value)?)?;
    }
    Ok(())
}

/// Adds the keys and the values of the rows between commas.
fn add_rows(
    alloc: Global,
    rows: &str,
    keys: &mut Vec<Text>,
    values: &mut Vec<Value>,
) -> Result<(), NoMemory> {
    for row in rows.split(',') {
        add_row(alloc, row, keys, values)?;
    }
    Ok(())
}

/// The table of keys and values; an empty one where a key stands twice.
fn keyed(alloc: Global, keys: TextSet, values: Vec<Value>) -> Value {
    if keys.len() == values.len() as u64 {
        Value::Table(Keyed::from_parts(keys, values))
    } else {
        Value::Table(Keyed::new(alloc))
    }
}

/// The table of the rows between commas, whose keys ascend.
fn table(alloc: Global, rows: &str) -> Result<Value, NoMemory> {
    let mut keys = Vec::new(alloc);
    let mut values = Vec::new(alloc);
    add_rows(alloc, rows, &mut keys, &mut values)?;
    let keys = TextSet::from_texts(alloc, keys)?;
    Ok(keyed(alloc, keys, values))
}

/// The value of a word that has no parts; none where it has.
fn plain(alloc: Global, word: &str) -> Result<Option<Value>, NoMemory> {
    let (kind, spelled) = match word.split_once(':') {
        Some(parts) => parts,
        None => (word, ""),
    };
    match kind {
        "true" => Ok(Some(Value::Bool(true))),
        "false" => Ok(Some(Value::Bool(false))),
        "none" => Ok(Some(Value::Nothing)),
        "int" => Ok(Some(Value::Int(integer(spelled)))),
        "str" => Ok(Some(Value::Str(text(alloc, spelled)?))),
        "names" => Ok(Some(Value::Names(names(alloc, spelled)?))),
        "table" => Ok(Some(table(alloc, spelled)?)),
        _ => Ok(None),
    }
}

/// Takes off the last value; `none` where there is none.
fn last(alloc: Global, values: &mut Vec<Value>) -> Result<Box<Value>, NoMemory> {
    let value = match values.pop() {
        Some(value) => value,
        None => Value::Nothing,
    };
    Ok(Box::new(alloc, value)?)
}

/// Puts the last value into an option.
fn add_some(alloc: Global, values: &mut Vec<Value>) -> Result<(), NoMemory> {
    let inner = last(alloc, values)?;
    values.push(Value::Some(inner))?;
    Ok(())
}

/// Puts the last two values into a pair.
fn add_pair(alloc: Global, values: &mut Vec<Value>) -> Result<(), NoMemory> {
    let second = last(alloc, values)?;
    let first = last(alloc, values)?;
    values.push(Value::Pair(first, second))?;
    Ok(())
}

/// Adds the value of a word.
fn add_value(alloc: Global, word: &str, values: &mut Vec<Value>) -> Result<(), NoMemory> {
    match plain(alloc, word)? {
        Some(value) => {
            values.push(value)?;
            Ok(())
        }
        None => {
            if word == "some" {
                add_some(alloc, values)
            } else {
                add_pair(alloc, values)
            }
        }
    }
}

fn add_values(alloc: Global, words: &str, values: &mut Vec<Value>) -> Result<(), NoMemory> {
    for word in words.split(' ') {
        add_value(alloc, word, values)?;
    }
    Ok(())
}

fn tell_values(alloc: Global, values: &[Value], out: &mut String) -> Result<(), NoMemory> {
    for value in values {
        let line = value_line(alloc, value)?;
        tell_bytes(out, line.as_slice())?;
    }
    Ok(())
}

/// Tells the values that the words make.
pub fn tell_value(alloc: Global, words: &str, out: &mut String) -> Result<(), NoMemory> {
    let mut values = Vec::new(alloc);
    add_values(alloc, words, &mut values)?;
    tell_values(alloc, &values, out)
}
