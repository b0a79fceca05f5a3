ghost use Rattle.std.specs.Prelude.{◌≡◌, ◌++◌, [], OnOk, ◌==◌, if◌then◌else◌, length, map};
ghost use Rattle.std.specs.Fmt.{signed_decimal};
ghost use Rattle.std.specs.List.{join_by, zip};
ghost use Rattle.fx_expr.specs.Views.{tree_of};
ghost use Rattle.fx_report.specs.Print.{comma, quote, row_text, truth_text, value_text};

use crate::quotes::add_quote;
use fx_base::{NoMemory, add_bytes};
use fx_expr::{Text, TextSet, Value};

/// Adds an integer in decimal digits, `-` before a negative one.
fn add_integer(out: &mut Vec<u8>, n: i64) -> Result<(), NoMemory>
    ensures { OnOk result (out.new.items ≡ out.old.items ++ signed_decimal n) }
{
    let digits = n.to_string(*out.allocator())?;
    add_bytes(out, digits.as_bytes())
}

fn add_truth(out: &mut Vec<u8>, b: bool) -> Result<(), NoMemory>
    ensures { OnOk result (out.new.items ≡ out.old.items ++ truth_text b) }
{
    if b {
        add_bytes(out, b"true")
    } else {
        add_bytes(out, b"false")
    }
}

/// Adds what stands before the piece at `i`: a comma, unless it is the first.
fn add_comma(out: &mut Vec<u8>, i: u64) -> Result<(), NoMemory>
    ensures { OnOk result (out.new.items ≡ out.old.items ++ (if i == 0 then [] else comma)) }
{
    if i > 0 {
        return add_bytes(out, b", ");
    }
    Ok(())
}

fn add_name(out: &mut Vec<u8>, i: u64, name: &Text) -> Result<(), NoMemory>
    ensures { OnOk result
        (out.new.items ≡ out.old.items ++ ((if i == 0 then [] else comma) ++ quote name.now)) }
{
    add_comma(out, i)?;
    add_quote(out, name.as_slice())
}

fn add_names(out: &mut Vec<u8>, names: &TextSet) -> Result<(), NoMemory>
    ensures { OnOk result (out.new.items ≡ out.old.items ++ join_by quote comma names.now) }
{
    for i in 0..names.len() {
        if let Some(name) = names.at(i) {
            add_name(out, i, name)?;
        }
    }
    Ok(())
}

/// Adds the printed form of a value.
#[cycle(value)]
pub fn add_value(out: &mut Vec<u8>, value: &Value) -> Result<(), NoMemory>
    ensures { OnOk result (out.new.items ≡ out.old.items ++ value_text (tree_of value.now)) }
{
    match value {
        Value::Str(text) => add_quote(out, text.as_slice()),
        Value::Int(n) => add_integer(out, *n),
        Value::Bool(b) => add_truth(out, *b),
        Value::Names(names) => {
            add_bytes(out, b"{")?;
            add_names(out, names)?;
            add_bytes(out, b"}")?;
            Ok(())
        }
        Value::Pair(first, second) => {
            add_bytes(out, b"<")?;
            add_value(out, first)?;
            add_bytes(out, b", ")?;
            add_value(out, second)?;
            add_bytes(out, b">")?;
            Ok(())
        }
        Value::Nothing => add_bytes(out, b"none"),
        Value::Some(inner) => {
            add_bytes(out, b"some(")?;
            add_value(out, inner)?;
            add_bytes(out, b")")?;
            Ok(())
        }
        Value::Table(rows) => {
            add_bytes(out, b"[")?;
            add_rows(out, rows.keys(), rows.values())?;
            add_bytes(out, b"]")?;
            Ok(())
        }
    }
}

/// Adds each key with its value, with a comma between two.
#[cycle(value)]
fn add_rows(out: &mut Vec<u8>, keys: &TextSet, values: &[Value]) -> Result<(), NoMemory>
    requires { length values.now ≡ length keys.now }
    ensures { OnOk result
        (out.new.items ≡ out.old.items
        ++ join_by row_text comma (zip keys.now (map tree_of values.now))) }
{
    for (i, value) in values.iter().enumerate() {
        if let Some(key) = keys.at(i as u64) {
            add_row(out, i as u64, key, value)?;
        }
    }
    Ok(())
}

#[cycle(value)]
fn add_row(out: &mut Vec<u8>, i: u64, key: &Text, value: &Value) -> Result<(), NoMemory>
    ensures { OnOk result
        (out.new.items
        ≡ out.old.items ++
        ((if i == 0 then [] else comma) ++ row_text (key.now, tree_of value.now))) }
{
    add_name(out, i, key)?;
    add_bytes(out, b" = ")?;
    add_value(out, value)?;
    Ok(())
}
