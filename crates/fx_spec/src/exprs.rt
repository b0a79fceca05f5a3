ghost use Rattle.std.specs.Prelude.{◌≡◌, ◌++◌, [], ◌∷◌, OnOk, OnErr, length, slice_get};
ghost use Rattle.std.specs.Slice.Iter.{iter_rest};
ghost use Rattle.std.specs.Option.{option_map};

use fx_base::NoMemory;
use fx_expr::Formula;
use std::alloc::Global;
use std::marker::Model;
use std::slice;

/// The arguments of a call. Contracts see the list of their trees.
#[derive(Debug)]
pub struct Exprs {
    items: Vec<Formula>,
}

/// It is written out, so that its parts are dropped in this crate alone.
impl Drop for Exprs {
    fn drop(self) {
        let Exprs { items: _items } = self;
    }
}

impl Model for Exprs {
    ghost use Rattle.std.specs.Prelude.{List};
    ghost use Rattle.fx_expr.specs.ExprTree.{ExprTree};
    ghost use Rattle.fx_spec.specs.Codes.{coded_exprs};

    ghost Value = { List ExprTree };

    ghost coded = { coded_exprs };

    ghost view = { λ e. e.items.items };
}

impl Exprs {
    /// No expressions.
    pub fn new(alloc: Global) -> Exprs
        ensures { result ≡ [] }
    {
        Exprs {
            items: Vec::new(alloc),
        }
    }

    /// The number of expressions.
    pub fn len(&self) -> u64
        ensures { result ≡ length self.now }
    {
        self.items.len() as u64
    }

    /// The expression at `i`; None exactly from `len` on.
    pub fn at(&self, i: u64) -> Option<&Formula>
        ensures { option_map (λ expr. expr.now) result ≡ slice_get self.now i }
    {
        self.items.get(i as usize)
    }

    /// The expressions, from the first.
    pub fn iter(&self) -> slice::Iter<'_, Formula>
        ensures rest { iter_rest result ≡ self.now }
        ensures len { length (iter_rest result) ≡ length self.now }
    {
        self.items.iter()
    }

    /// The expressions themselves, from the first.
    pub fn into_vec(self) -> Vec<Formula>
        ensures { result.items ≡ self }
    {
        let Exprs { items } = self;
        items
    }

    /// Adds an expression at the end. A refusal changes nothing.
    pub fn add(&mut self, _alloc: Global, item: Formula) -> Result<(), NoMemory>
        ensures ok { OnOk result (self.new ≡ self.old ++ item ∷ []) }
        ensures err { OnErr result (self.new ≡ self.old) }
    {
        self.items.push(item)?;
        Ok(())
    }
}
