// What the operators give of values.
ghost use Rattle.std.specs.Prelude.{◌≡◌, ◌+ℤ◌, ◌-ℤ◌, ◌++◌};
ghost use Rattle.std.specs.Option.{option_map};
ghost use Rattle.fx_expr.specs.Eval.{Outcome, joined, in_range, same_value, is_less, read_integer, two, one, decided, then_on, text_in, names_in};
ghost use Rattle.fx_expr.specs.Gives.{Gives};
ghost use Rattle.fx_text.specs.Sets.{has_text};
ghost use Rattle.fx_expr.specs.Tree.{Tree};
ghost use Rattle.fx_expr.specs.Views.{tree_of};

use crate::lines::lines;
use crate::number::{decimal, read_integer};
use crate::parts::{
    into_first, into_integer, into_keys, into_presence, into_second, into_size, into_truth,
    names_or, text_or,
};
use fx_expr::{BinOp, EvalFault, ExprFault, UnOp, Value};
use fx_text::{TEXT_LIMIT, Text, TextSet, UNION_LIMIT};
use std::alloc::Global;

// What an operator's first part decides alone.
pub(crate) fn decides(op: BinOp, first: &Value) -> Option<bool>
    ensures { option_map (λ b. Tree.bool b) result ≡ decided op (tree_of first.now) }
{
    match op {
        BinOp::And => if first.is_true() { None } else { Some(false) },
        BinOp::Or => if first.is_true() { Some(true) } else { None },
        _ => None,
    }
}

// What an operator gives of its first part and of what came of its second.
pub(crate) fn apply_after(
    alloc: Global,
    op: BinOp,
    first: Value,
    second: Result<Value, EvalFault>,
) -> Result<Value, EvalFault>
    ensures { (o : Outcome) → Gives tree_of second o
        → Gives tree_of result (then_on o λ v. two op (tree_of first) v) }
{
    match second {
        Ok(second) => apply_two(alloc, op, &first, &second),
        Err(fault) => Err(fault),
    }
}

fn apply_two(alloc: Global, op: BinOp, first: &Value, second: &Value) -> Result<Value, EvalFault>
    ensures { Gives tree_of result (two op (tree_of first.now) (tree_of second.now)) }
{
    match op {
        BinOp::Join => join(alloc, first.text_bytes(), second.text_bytes()),
        BinOp::Plus => plus(first.integer(), second.integer()),
        BinOp::Minus => minus(first.integer(), second.integer()),
        BinOp::Equal => Ok(Value::Bool(is_equal(alloc, first, second))),
        BinOp::Less => Ok(Value::Bool(is_less(alloc, first, second))),
        BinOp::And => Ok(Value::Bool(second.is_true())),
        BinOp::Or => Ok(Value::Bool(second.is_true())),
        BinOp::Member => Ok(Value::Bool(is_member(alloc, first, second))),
        BinOp::Union => unite(alloc, first, second),
        BinOp::Without => lessen(alloc, first, second),
    }
}

// Each arm hands the value on, so that none of them drops it.
pub(crate) fn apply_one(alloc: Global, op: UnOp, value: Value) -> Result<Value, EvalFault>
    ensures { Gives tree_of result (one op (tree_of value)) }
{
    match op {
        UnOp::Not => Ok(Value::Bool(!into_truth(value))),
        UnOp::One => singleton(alloc, value.into_text(alloc)),
        UnOp::Lines => line_set(alloc, value.into_text(alloc)),
        UnOp::Size => Ok(Value::Int(into_size(value))),
        UnOp::Int => spelled(value.into_text(alloc)),
        UnOp::Text => spelling(alloc, into_integer(value)),
        UnOp::First => Ok(into_first(value)),
        UnOp::Second => Ok(into_second(value)),
        UnOp::Keys => Ok(Value::Names(into_keys(alloc, value))),
        UnOp::Present => Ok(Value::Bool(into_presence(value))),
    }
}

fn join(alloc: Global, first: &[u8], second: &[u8]) -> Result<Value, EvalFault>
    ensures { Gives tree_of result (joined first.now second.now) }
{
    if first.len() > TEXT_LIMIT || second.len() > TEXT_LIMIT - first.len() {
        return Err(EvalFault::Fault(ExprFault::TooLong));
    }
    Ok(Value::Str(Text::joined(alloc, first, second)?))
}

fn plus(a: i64, b: i64) -> Result<Value, EvalFault>
    ensures { Gives tree_of result (in_range (a +ℤ b)) }
{
    match a.checked_add(b) {
        Some(sum) => Ok(Value::Int(sum)),
        None => Err(EvalFault::Fault(ExprFault::Overflow)),
    }
}

fn minus(a: i64, b: i64) -> Result<Value, EvalFault>
    ensures { Gives tree_of result (in_range (a -ℤ b)) }
{
    match a.checked_sub(b) {
        Some(rest) => Ok(Value::Int(rest)),
        None => Err(EvalFault::Fault(ExprFault::Overflow)),
    }
}

fn is_equal(alloc: Global, first: &Value, second: &Value) -> bool
    ensures { result ≡ same_value (tree_of first.now) (tree_of second.now) }
{
    match first {
        Value::Str(a) => a.as_slice() == second.text_bytes(),
        Value::Int(a) => *a == second.integer(),
        Value::Bool(a) => *a == second.is_true(),
        Value::Names(a) => *a == *names_or(second, &TextSet::new(alloc)),
        Value::Pair(_, _) | Value::Nothing | Value::Some(_) | Value::Table(_) => false,
    }
}

fn is_less(alloc: Global, first: &Value, second: &Value) -> bool
    ensures { result ≡ is_less (tree_of first.now) (tree_of second.now) }
{
    match first {
        Value::Str(a) => *a < *text_or(second, &Text::new(alloc)),
        Value::Int(a) => *a < second.integer(),
        Value::Bool(_) | Value::Names(_) | Value::Pair(_, _) => false,
        Value::Nothing | Value::Some(_) | Value::Table(_) => false,
    }
}

fn is_member(alloc: Global, first: &Value, second: &Value) -> bool
    ensures { result ≡ has_text (text_in (tree_of first.now)) (names_in (tree_of second.now)) }
{
    names_or(second, &TextSet::new(alloc)).has(text_or(first, &Text::new(alloc)))
}

fn unite(alloc: Global, first: &Value, second: &Value) -> Result<Value, EvalFault>
    ensures { Gives tree_of result (two BinOp.Union (tree_of first.now) (tree_of second.now)) }
{
    let none = TextSet::new(alloc);
    let set = names_or(first, &none);
    let other = names_or(second, &none);
    if !set.union_weighs_at_most(other, UNION_LIMIT) {
        return Err(EvalFault::Fault(ExprFault::TooLong));
    }
    Ok(Value::Names(set.union(alloc, other)?))
}

fn lessen(alloc: Global, first: &Value, second: &Value) -> Result<Value, EvalFault>
    ensures { Gives tree_of result
        (two BinOp.Without (tree_of first.now) (tree_of second.now)) }
{
    let none = TextSet::new(alloc);
    Ok(Value::Names(names_or(first, &none).without(alloc, names_or(second, &none))?))
}

fn singleton(alloc: Global, text: Text) -> Result<Value, EvalFault>
    ensures { Gives tree_of result (one UnOp.One (Tree.str text)) }
{
    Ok(Value::Names(TextSet::of(alloc, text)?))
}

fn line_set(alloc: Global, text: Text) -> Result<Value, EvalFault>
    ensures { Gives tree_of result (one UnOp.Lines (Tree.str text)) }
{
    Ok(Value::Names(lines(alloc, &text)?))
}

fn spelled(text: Text) -> Result<Value, EvalFault>
    ensures { Gives tree_of result (read_integer text) }
{
    match read_integer(text.as_slice()) {
        Ok(n) => Ok(Value::Int(n)),
        Err(fault) => Err(EvalFault::Fault(fault)),
    }
}

fn spelling(alloc: Global, n: i64) -> Result<Value, EvalFault>
    ensures { Gives tree_of result (one UnOp.Text (Tree.int n)) }
{
    Ok(Value::Str(decimal(alloc, n)?))
}
