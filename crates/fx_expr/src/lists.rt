ghost use Rattle.std.specs.Prelude.{◌≡◌, ◌++◌, [], ◌∷◌, OnOk, OnErr, length, map};
ghost use Rattle.std.specs.Slice.Iter.{iter_rest};
ghost use Rattle.fx_expr.specs.Views.{tree_of};

use crate::value::Value;
use fx_base::NoMemory;
use std::alloc::Global;
use std::marker::Model;
use std::slice;

/// A list of values. Contracts see the list of their trees.
#[derive(Debug)]
pub struct Values {
    items: Vec<Value>,
}

/// It is written out, so that its parts are dropped in this crate alone.
impl Drop for Values {
    fn drop(self) {
        let Values { items: _items } = self;
    }
}

impl Model for Values {
    ghost use Rattle.std.specs.Prelude.{List, map};
    ghost use Rattle.fx_expr.specs.Codes.{coded_trees};
    ghost use Rattle.fx_expr.specs.Tree.{Tree};

    ghost Value = { List Tree };

    ghost coded = { coded_trees };

    ghost use Rattle.fx_expr.specs.Views.{tree_of};

    ghost view = { λ v. map tree_of v.items.items };
}

impl Values {
    /// The empty list.
    pub fn new(alloc: Global) -> Values
        ensures { result ≡ [] }
    {
        Values {
            items: Vec::new(alloc),
        }
    }

    /// The number of values.
    pub fn len(&self) -> u64
        ensures { result ≡ length self.now }
    {
        self.items.len() as u64
    }

    /// The values, from the first.
    pub fn iter(&self) -> slice::Iter<'_, Value>
        ensures rest { map tree_of (iter_rest result) ≡ self.now }
        ensures len { length (iter_rest result) ≡ length self.now }
    {
        self.items.iter()
    }

    /// Adds a value at the end. A refusal changes nothing.
    pub fn add(&mut self, _alloc: Global, item: Value) -> Result<(), NoMemory>
        ensures ok { OnOk result (self.new ≡ self.old ++ tree_of item ∷ []) }
        ensures err { OnErr result (self.new ≡ self.old) }
    {
        self.items.push(item)?;
        Ok(())
    }
}
