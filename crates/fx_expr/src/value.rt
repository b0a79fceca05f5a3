ghost use Rattle.std.specs.Prelude.{◌≡◌, map, IfOk};
ghost use Rattle.fx_expr.specs.Views.{tree_of};

use crate::keyed::Keyed;
use fx_base::NoMemory;
use fx_text::{Text, TextSet};
use std::alloc::Global;

/// A value of the language.
#[derive(Debug, Drop)]
pub enum Value {
    Str(Text),
    Int(i64),
    Bool(bool),
    Names(TextSet),
    Pair(Box<Value>, Box<Value>),
    Nothing,
    Some(Box<Value>),
    Table(Rows),
}

/// The rows of a table: a value for each text, in strictly ascending order of text.
pub type Rows = Keyed<Value>;

impl Value {
    /// An equal value of its own.
    #[cycle(copy)]
    pub fn copy(&self, alloc: Global) -> Result<Value, NoMemory>
        ensures { IfOk result (λ value. tree_of value ≡ tree_of self.now) }
    {
        match self {
            Value::Str(text) => Ok(Value::Str(text.copy(alloc)?)),
            Value::Int(n) => Ok(Value::Int(*n)),
            Value::Bool(b) => Ok(Value::Bool(*b)),
            Value::Names(names) => Ok(Value::Names(names.copy(alloc)?)),
            Value::Pair(a, b) => {
                let first = boxed(alloc, a.copy(alloc)?)?;
                let second = boxed(alloc, b.copy(alloc)?)?;
                Ok(Value::Pair(first, second))
            }
            Value::Nothing => Ok(Value::Nothing),
            Value::Some(a) => Ok(Value::Some(boxed(alloc, a.copy(alloc)?)?)),
            Value::Table(rows) => {
                let keys = rows.keys().copy(alloc)?;
                let values = copy_values(alloc, rows.values())?;
                Ok(Value::Table(Keyed::from_parts(keys, values)))
            }
        }
    }
}

#[cycle(copy)]
pub(crate) fn copy_values(alloc: Global, values: &[Value]) -> Result<Vec<Value>, NoMemory>
    ensures { IfOk result (λ copies. map tree_of copies.items ≡ map tree_of values.now) }
{
    let mut copies = Vec::with_capacity(alloc, values.len())?;
    for value in values {
        copies.push(value.copy(alloc)?)?;
    }
    Ok(copies)
}

fn boxed(alloc: Global, v: Value) -> Result<Box<Value>, NoMemory>
    ensures { IfOk result (λ b. b.value ≡ v) }
{
    Ok(Box::new(alloc, v)?)
}
