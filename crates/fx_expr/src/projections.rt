//! The parts of a value whose kind is not known.
ghost use Rattle.std.specs.Prelude.{◌≡◌};
ghost use Rattle.std.specs.Option.{option_copied};
ghost use Rattle.fx_expr.specs.Eval.{text_in, integer_in, truth_in, names_in};
ghost use Rattle.fx_expr.specs.Parts.{text_of, truth_of, names_of};
ghost use Rattle.fx_expr.specs.Views.{tree_of};

use crate::value::Value;
use fx_text::{Text, TextSet};
use std::alloc::Global;

impl Value {
    /// The text; None exactly where this is no text.
    pub fn as_text(&self) -> Option<&Text>
        ensures { option_copied result ≡ text_of (tree_of self.now) }
    {
        match self {
            Value::Str(text) => Some(text),
            Value::Int(_) | Value::Bool(_) | Value::Names(_) => None,
            Value::Pair(_, _) | Value::Nothing | Value::Some(_) | Value::Table(_) => None,
        }
    }

    /// The truth value; None exactly where this is none.
    pub fn as_truth(&self) -> Option<bool>
        ensures { result ≡ truth_of (tree_of self.now) }
    {
        match self {
            Value::Bool(b) => Some(*b),
            Value::Str(_) | Value::Int(_) | Value::Names(_) => None,
            Value::Pair(_, _) | Value::Nothing | Value::Some(_) | Value::Table(_) => None,
        }
    }

    /// The set; None exactly where this is no set.
    pub fn as_names(&self) -> Option<&TextSet>
        ensures { option_copied result ≡ names_of (tree_of self.now) }
    {
        match self {
            Value::Names(names) => Some(names),
            Value::Str(_) | Value::Int(_) | Value::Bool(_) => None,
            Value::Pair(_, _) | Value::Nothing | Value::Some(_) | Value::Table(_) => None,
        }
    }

    /// The bytes of the text; none where this is no text.
    pub fn text_bytes(&self) -> &[u8]
        ensures { result.now ≡ text_in (tree_of self.now) }
    {
        match self {
            Value::Str(text) => text.as_slice(),
            Value::Int(_) | Value::Bool(_) | Value::Names(_) => &[],
            Value::Pair(_, _) | Value::Nothing | Value::Some(_) | Value::Table(_) => &[],
        }
    }

    /// The integer; 0 where this is no integer.
    pub fn integer(&self) -> i64
        ensures { result ≡ integer_in (tree_of self.now) }
    {
        match self {
            Value::Int(n) => *n,
            Value::Str(_) | Value::Bool(_) | Value::Names(_) => 0,
            Value::Pair(_, _) | Value::Nothing | Value::Some(_) | Value::Table(_) => 0,
        }
    }

    /// Whether this is the truth value true.
    pub fn is_true(&self) -> bool
        ensures { result ≡ truth_in (tree_of self.now) }
    {
        match self {
            Value::Bool(b) => *b,
            Value::Str(_) | Value::Int(_) | Value::Names(_) => false,
            Value::Pair(_, _) | Value::Nothing | Value::Some(_) | Value::Table(_) => false,
        }
    }

    /// The text by itself; the empty one where this is no text.
    pub fn into_text(self, alloc: Global) -> Text
        ensures { result ≡ text_in (tree_of self) }
    {
        match self {
            Value::Str(text) => text,
            Value::Int(_) | Value::Bool(_) | Value::Names(_) => Text::new(alloc),
            Value::Pair(_, _) | Value::Nothing | Value::Some(_) | Value::Table(_) => Text::new(
                alloc,
            ),
        }
    }

    /// The set by itself; the empty one where this is no set.
    pub fn into_names(self, alloc: Global) -> TextSet
        ensures { result ≡ names_in (tree_of self) }
    {
        match self {
            Value::Names(names) => names,
            Value::Str(_) | Value::Int(_) | Value::Bool(_) => TextSet::new(alloc),
            Value::Pair(_, _) | Value::Nothing | Value::Some(_) | Value::Table(_) => TextSet::new(
                alloc,
            ),
        }
    }
}
