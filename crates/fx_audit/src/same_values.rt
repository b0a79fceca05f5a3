//! Whether values are equal.
ghost use Rattle.std.specs.Prelude.{◌≡◌, ◌↔◌, IsTrue, map};
ghost use Rattle.fx_expr.specs.Tree.{Tree};
ghost use Rattle.fx_expr.specs.Views.{tree_of};

use fx_expr::{Text, TextSet, Value, Values};

/// Whether the lists are equal, value by value.
pub(crate) fn are_same_outputs(a: &Values, b: &Values) -> bool
    ensures { IsTrue result ↔ (a.now ≡ b.now) }
{
    are_same(a.iter().as_slice(), b.iter().as_slice())
}

/// Whether the values are as many, and equal one by one.
#[cycle(same)]
fn are_same(values: &[Value], others: &[Value]) -> bool
    ensures { IsTrue result ↔ (map tree_of values.now ≡ map tree_of others.now) }
{
    if values.len() != others.len() {
        return false;
    }
    for i in 0..values.len() {
        if !is_same(&values[i], &others[i]) {
            return false;
        }
    }
    true
}

/// Whether the values are equal.
#[cycle(same)]
fn is_same(value: &Value, other: &Value) -> bool
    ensures { IsTrue result ↔ (tree_of value.now ≡ tree_of other.now) }
{
    match value {
        Value::Str(text) => is_text(other, text),
        Value::Int(n) => is_integer(other, *n),
        Value::Bool(b) => is_truth(other, *b),
        Value::Names(names) => is_set(other, names),
        Value::Pair(a, b) => match other {
            Value::Pair(c, d) => is_same(a, c) && is_same(b, d),
            _ => false,
        },
        Value::Nothing => is_nothing(other),
        Value::Some(a) => match other {
            Value::Some(b) => is_same(a, b),
            _ => false,
        },
        Value::Table(rows) => match other {
            Value::Table(others) => {
                rows.keys() == others.keys() && are_same(rows.values(), others.values())
            }
            _ => false,
        },
    }
}

fn is_text(value: &Value, text: &Text) -> bool
    ensures { IsTrue result ↔ (Tree.str text.now ≡ tree_of value.now) }
{
    match value.as_text() {
        Some(other) => text == other,
        None => false,
    }
}

fn is_integer(value: &Value, n: i64) -> bool
    ensures { IsTrue result ↔ (Tree.int n ≡ tree_of value.now) }
{
    match value {
        Value::Int(other) => n == *other,
        _ => false,
    }
}

fn is_truth(value: &Value, b: bool) -> bool
    ensures { IsTrue result ↔ (Tree.bool b ≡ tree_of value.now) }
{
    match value.as_truth() {
        Some(other) => b == other,
        None => false,
    }
}

fn is_set(value: &Value, names: &TextSet) -> bool
    ensures { IsTrue result ↔ (Tree.names names.now ≡ tree_of value.now) }
{
    match value.as_names() {
        Some(other) => names == other,
        None => false,
    }
}

fn is_nothing(value: &Value) -> bool
    ensures { IsTrue result ↔ (Tree.nothing ≡ tree_of value.now) }
{
    match value {
        Value::Nothing => true,
        _ => false,
    }
}
