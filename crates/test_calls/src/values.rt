//! The values of expressions over texts, integers and sets.
ghost use Rattle.std.specs.Prelude.{[], IfOk};
ghost use Rattle.fx_expr.specs.ShapeTree.{ShapeTree};
ghost use Rattle.fx_expr.specs.Shapes.{HasShape};
ghost use Rattle.fx_expr.specs.Views.{expr_tree};

use fx_base::NoMemory;
use fx_eval::matches;
use fx_expr::{BinOp, Env, EvalFault, Expr, TEXT_LIMIT, Text, UnOp, Value};
use fx_report::value_line;
use fx_session::evaluated;
use std::alloc::Global;
use std::fmt::Write;
use test_lines::{tell_bytes, unescaped};

/// An operator on a text.
#[derive(Clone, Copy)]
pub enum Form {
    /// The text itself.
    Text,
    Size,
    Int,
    Lines,
}

/// A text as it stands in a case, up to the limit of texts.
pub fn text(alloc: Global, spelled: &str) -> Result<Text, NoMemory> {
    let mut bytes = unescaped(alloc, spelled)?;
    bytes.truncate(TEXT_LIMIT);
    Ok(Text::from_vec(bytes))
}

fn string(alloc: Global, spelled: &str) -> Result<Box<Expr>, NoMemory>
    ensures { IfOk result (λ e. HasShape [] (expr_tree e.value) ShapeTree.str) }
{
    let expr = Expr::Str(text(alloc, spelled)?);
    Ok(Box::new(alloc, expr)?)
}

fn integer(alloc: Global, n: i64) -> Result<Box<Expr>, NoMemory>
    ensures { IfOk result (λ e. HasShape [] (expr_tree e.value) ShapeTree.int) }
{
    Ok(Box::new(alloc, Expr::Int(n))?)
}

fn minus(alloc: Global, a: Box<Expr>, b: i64) -> Result<Box<Expr>, NoMemory>
    requires { HasShape [] (expr_tree a.value) ShapeTree.int }
    ensures { IfOk result (λ e. HasShape [] (expr_tree e.value) ShapeTree.int) }
{
    let second = integer(alloc, b)?;
    Ok(Box::new(alloc, Expr::Bin(BinOp::Minus, a, second))?)
}

/// The set of one text, and those of another set.
fn with(alloc: Global, set: Box<Expr>, spelled: &str) -> Result<Box<Expr>, NoMemory>
    requires { HasShape [] (expr_tree set.value) ShapeTree.names }
    ensures { IfOk result (λ e. HasShape [] (expr_tree e.value) ShapeTree.names) }
{
    let part = string(alloc, spelled)?;
    let one = Box::new(alloc, Expr::Un(UnOp::One, part))?;
    Ok(Box::new(alloc, Expr::Bin(BinOp::Union, set, one))?)
}

/// The set of the texts between commas.
fn set(alloc: Global, spelled: &str) -> Result<Box<Expr>, NoMemory>
    ensures { IfOk result (λ e. HasShape [] (expr_tree e.value) ShapeTree.names) }
{
    let mut set = Box::new(alloc, Expr::Empty)?;
    'texts: for part in spelled.split(',') {
        set = with(alloc, set, part)?;
    }
    Ok(set)
}

fn tell_result(
    alloc: Global,
    result_of: Result<Value, EvalFault>,
    out: &mut String,
) -> Result<(), NoMemory> {
    match result_of {
        Ok(value) => {
            let line = value_line(alloc, &value)?;
            tell_bytes(out, line.as_slice())
        }
        Err(EvalFault::Fault(fault)) => {
            writeln!(out, "> {fault:?}")?;
            Ok(())
        }
        Err(EvalFault::NoMemory) => Err(NoMemory),
    }
}

fn tell_str(alloc: Global, expr: &Expr, out: &mut String) -> Result<(), NoMemory>
    requires { HasShape [] (expr_tree expr.now) ShapeTree.str }
{
    let env = Env::new(alloc);
    let value = evaluated(alloc, expr, &env);
    tell_result(alloc, value, out)
}

fn tell_int(alloc: Global, expr: &Expr, out: &mut String) -> Result<(), NoMemory>
    requires { HasShape [] (expr_tree expr.now) ShapeTree.int }
{
    let env = Env::new(alloc);
    let value = evaluated(alloc, expr, &env);
    tell_result(alloc, value, out)
}

fn tell_names(alloc: Global, expr: &Expr, out: &mut String) -> Result<(), NoMemory>
    requires { HasShape [] (expr_tree expr.now) ShapeTree.names }
{
    let env = Env::new(alloc);
    let value = evaluated(alloc, expr, &env);
    tell_result(alloc, value, out)
}

/// Tells the value of an operator at a text.
pub fn tell_form(
    alloc: Global,
    form: Form,
    spelled: &str,
    out: &mut String,
) -> Result<(), NoMemory> {
    let part = string(alloc, spelled)?;
    match form {
        Form::Text => tell_str(alloc, &part, out),
        Form::Size => tell_int(alloc, &Expr::Un(UnOp::Size, part), out),
        Form::Int => tell_int(alloc, &Expr::Un(UnOp::Int, part), out),
        Form::Lines => tell_names(alloc, &Expr::Un(UnOp::Lines, part), out),
    }
}

/// Tells a number less two others, one after the other.
pub fn tell_minus(alloc: Global, a: i64, b: i64, c: i64, out: &mut String) -> Result<(), NoMemory> {
    let first = minus(alloc, integer(alloc, a)?, b)?;
    let second = minus(alloc, first, c)?;
    tell_int(alloc, &second, out)
}

/// Tells the text of a number less another.
pub fn tell_decimal(alloc: Global, a: i64, b: i64, out: &mut String) -> Result<(), NoMemory> {
    let part = minus(alloc, integer(alloc, a)?, b)?;
    tell_str(alloc, &Expr::Un(UnOp::Text, part), out)
}

/// Tells the union of two sets without a third.
pub fn tell_sets(
    alloc: Global,
    a: &str,
    b: &str,
    c: &str,
    out: &mut String,
) -> Result<(), NoMemory> {
    let first = set(alloc, a)?;
    let second = set(alloc, b)?;
    let both = Box::new(alloc, Expr::Bin(BinOp::Union, first, second))?;
    let third = set(alloc, c)?;
    tell_names(alloc, &Expr::Bin(BinOp::Without, both, third), out)
}

/// Tells those of a set that a glob matches.
pub fn tell_only(
    alloc: Global,
    glob: &str,
    spelled: &str,
    out: &mut String,
) -> Result<(), NoMemory> {
    let names = set(alloc, spelled)?;
    let glob = text(alloc, glob)?;
    tell_names(alloc, &Expr::Only(names, glob), out)
}

/// Tells whether a glob matches a text.
pub fn tell_match(
    alloc: Global,
    glob: &str,
    spelled: &str,
    out: &mut String,
) -> Result<(), NoMemory> {
    let glob = unescaped(alloc, glob)?;
    let spelled = unescaped(alloc, spelled)?;
    let found = matches(&glob, &spelled);
    writeln!(out, "> {found}")?;
    Ok(())
}
