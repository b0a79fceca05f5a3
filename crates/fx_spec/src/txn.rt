ghost use Rattle.std.specs.Prelude.{◌≡◌, ◌++◌, [], ◌∷◌, OnOk, OnErr, length, slice_get, map};
ghost use Rattle.std.specs.Slice.Iter.{iter_rest};
ghost use Rattle.std.specs.Option.{option_map};

use crate::command::Commands;
use fx_base::NoMemory;
use std::alloc::Global;
use std::marker::Model;
use std::slice;

/// A transaction: its commands, in order.
#[derive(Drop)]
pub struct Txn {
    pub commands: Commands,
}

/// A list of transactions. Contracts see the list of their commands.
pub struct Txns {
    items: Vec<Txn>,
}

/// It is written out, so that its parts are dropped in this crate alone.
impl Drop for Txns {
    fn drop(self) {
        let Txns { items: _items } = self;
    }
}

impl Model for Txns {
    ghost use Rattle.std.specs.Prelude.{List, map};
    ghost use Rattle.std.specs.Coded.{coded_list};
    ghost use Rattle.fx_spec.specs.CommandTree.{CommandTree};
    ghost use Rattle.fx_spec.specs.Codes.{coded_commands};

    ghost Value = { List (List CommandTree) };

    ghost coded = { coded_list coded_commands };

    ghost view = { λ t. map (λ x. x.commands) t.items.items };
}

impl Txns {
    /// No transactions.
    pub fn new(alloc: Global) -> Txns
        ensures { result ≡ [] }
    {
        Txns {
            items: Vec::new(alloc),
        }
    }

    /// The number of transactions.
    pub fn len(&self) -> u64
        ensures { result ≡ length self.now }
    {
        self.items.len() as u64
    }

    /// The transaction at `i`; None exactly from `len` on.
    pub fn at(&self, i: u64) -> Option<&Txn>
        ensures { option_map (λ t. t.now.commands) result ≡ slice_get self.now i }
    {
        self.items.get(i as usize)
    }

    /// The transactions, from the first.
    pub fn iter(&self) -> slice::Iter<'_, Txn>
        ensures rest { map (λ t. t.commands) (iter_rest result) ≡ self.now }
        ensures len { length (iter_rest result) ≡ length self.now }
    {
        self.items.iter()
    }

    /// Adds a transaction at the end. A refusal changes nothing.
    pub fn add(&mut self, _alloc: Global, item: Txn) -> Result<(), NoMemory>
        ensures ok { OnOk result (self.new ≡ self.old ++ item.commands ∷ []) }
        ensures err { OnErr result (self.new ≡ self.old) }
    {
        self.items.push(item)?;
        Ok(())
    }
}
