//! Values, where memory is ample.

use fx_base::NoMemory;
use fx_expr::{Env, Keyed, Shape, Text, TextSet, Value, Word};
use std::alloc::Global;
use std::fmt::Write;

fn copied_text(alloc: Global) -> Result<u64, NoMemory> {
    let letters = Text::from_vec(Vec::from_slice(alloc, b"a")?);
    let copy = letters.copy(alloc)?;
    Ok(copy.len())
}

/// How many rows a copy of a table has.
fn copied_table(alloc: Global) -> Result<usize, NoMemory> {
    let keys = TextSet::of(alloc, Text::new(alloc))?;
    let mut values = Vec::new(alloc);
    values.push(Value::Int(5))?;
    let table = Value::Table(Keyed::from_parts(keys, values));
    match &table.copy(alloc)? {
        Value::Table(rows) => Ok(rows.values().len()),
        _ => Err(NoMemory),
    }
}

fn copied_names(alloc: Global) -> Result<u64, NoMemory> {
    let mut names = TextSet::new(alloc);
    names.add(alloc, Text::new(alloc))?;
    let copy = names.copy(alloc)?;
    Ok(copy.len())
}

fn copied_shape(alloc: Global) -> Result<bool, NoMemory> {
    let shape = Shape::Opt(Box::new(alloc, Shape::Str)?);
    let copy = shape.copy(alloc)?;
    Ok(copy.same(&shape))
}

fn bind(alloc: Global, env: &mut Env, word: &Word, n: i64) -> Result<(), NoMemory> {
    let word = word.copy(alloc)?;
    env.add(alloc, (word, Value::Int(n)))?;
    Ok(())
}

/// An environment that binds a name to 1 and then to 2.
fn bound_twice(alloc: Global, word: &Word) -> Result<Env, NoMemory> {
    let mut env = Env::new(alloc);
    for n in [1, 2] {
        bind(alloc, &mut env, word, n)?;
    }
    Ok(env)
}

/// What the name is bound to.
fn newest_value(alloc: Global) -> Result<i64, NoMemory> {
    let word = Word::from_vec(Vec::from_slice(alloc, b"x1")?)?;
    let env = bound_twice(alloc, &word)?;
    match env.get(&word) {
        Some(Value::Int(n)) => Ok(*n),
        _ => Err(NoMemory),
    }
}

/// Tells what copies of values and shapes are made of, and what a name is bound to that is bound twice.
pub fn tell_values(alloc: Global, out: &mut String) -> Result<(), NoMemory> {
    writeln!(out, "> text {:?}", copied_text(alloc)?)?;
    writeln!(out, "> table {:?}", copied_table(alloc)?)?;
    writeln!(out, "> names {:?}", copied_names(alloc)?)?;
    writeln!(out, "> shape {:?}", copied_shape(alloc)?)?;
    writeln!(out, "> newest {:?}", newest_value(alloc)?)?;
    Ok(())
}
