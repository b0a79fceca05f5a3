// The parts of a value, with what stands in for a part where the value is of another kind.
ghost use Rattle.std.specs.Prelude.{◌≡◌, [], pos, map};
ghost use Rattle.fx_expr.specs.Eval.{text_in, integer_in, truth_in, names_in, first_in, second_in, entries_in, is_some_in, size_in};
ghost use Rattle.fx_expr.specs.Views.{tree_of};

use fx_expr::Value;
use fx_text::{Text, TextSet};
use std::alloc::Global;

// The text, or the empty one that is handed in.
pub(crate) fn text_or<'a>(value: &'a Value, none: &'a Text) -> &'a Text
    requires { none.now ≡ [] }
    ensures { result.now ≡ text_in (tree_of value.now) }
{
    match value {
        Value::Str(text) => text,
        Value::Int(_) | Value::Bool(_) | Value::Names(_) => none,
        Value::Pair(_, _) | Value::Nothing | Value::Some(_) | Value::Table(_) => none,
    }
}

// The set, or the empty one that is handed in.
pub(crate) fn names_or<'a>(value: &'a Value, none: &'a TextSet) -> &'a TextSet
    requires { none.now ≡ [] }
    ensures { result.now ≡ names_in (tree_of value.now) }
{
    match value {
        Value::Names(names) => names,
        Value::Str(_) | Value::Int(_) | Value::Bool(_) => none,
        Value::Pair(_, _) | Value::Nothing | Value::Some(_) | Value::Table(_) => none,
    }
}

pub(crate) fn into_integer(value: Value) -> i64
    ensures { result ≡ integer_in (tree_of value) }
{
    let n = value.integer();
    let_go(value);
    n
}

pub(crate) fn into_truth(value: Value) -> bool
    ensures { result ≡ truth_in (tree_of value) }
{
    let b = value.is_true();
    let_go(value);
    b
}

pub(crate) fn into_first(value: Value) -> Value
    ensures { tree_of result ≡ first_in (tree_of value) }
{
    match value {
        Value::Pair(first, _) => Box::into_inner(first),
        Value::Str(text) => Value::Str(text),
        Value::Int(n) => Value::Int(n),
        Value::Bool(b) => Value::Bool(b),
        Value::Names(names) => Value::Names(names),
        Value::Nothing => Value::Nothing,
        Value::Some(inner) => Value::Some(inner),
        Value::Table(rows) => Value::Table(rows),
    }
}

pub(crate) fn into_second(value: Value) -> Value
    ensures { tree_of result ≡ second_in (tree_of value) }
{
    match value {
        Value::Pair(_, second) => Box::into_inner(second),
        Value::Str(text) => Value::Str(text),
        Value::Int(n) => Value::Int(n),
        Value::Bool(b) => Value::Bool(b),
        Value::Names(names) => Value::Names(names),
        Value::Nothing => Value::Nothing,
        Value::Some(inner) => Value::Some(inner),
        Value::Table(rows) => Value::Table(rows),
    }
}

pub(crate) fn into_keys(alloc: Global, value: Value) -> TextSet
    ensures { result ≡ map (λ e. e.0) (entries_in (tree_of value)) }
{
    match value {
        Value::Table(rows) => rows.into_keys(),
        Value::Str(_) | Value::Int(_) | Value::Bool(_) => TextSet::new(alloc),
        Value::Names(_) | Value::Pair(_, _) | Value::Nothing | Value::Some(_) => TextSet::new(
            alloc,
        ),
    }
}

pub(crate) fn into_size(value: Value) -> i64
    ensures { result ≡ pos (size_in (tree_of value)) }
{
    let n = size(&value);
    let_go(value);
    n
}

fn size(value: &Value) -> i64
    ensures { result ≡ pos (size_in (tree_of value.now)) }
{
    match value {
        Value::Str(text) => text.len() as i64,
        Value::Names(names) => names.len() as i64,
        Value::Int(_) | Value::Bool(_) | Value::Pair(_, _) => 0,
        Value::Nothing | Value::Some(_) | Value::Table(_) => 0,
    }
}

pub(crate) fn into_presence(value: Value) -> bool
    ensures { result ≡ is_some_in (tree_of value) }
{
    let there = is_present(&value);
    let_go(value);
    there
}

fn is_present(value: &Value) -> bool
    ensures { result ≡ is_some_in (tree_of value.now) }
{
    match value {
        Value::Some(_) => true,
        Value::Str(_) | Value::Int(_) | Value::Bool(_) | Value::Names(_) => false,
        Value::Pair(_, _) | Value::Nothing | Value::Table(_) => false,
    }
}

// One drop of a value in place of one at each way out.
pub(crate) fn let_go(_value: Value) {}
