ghost use Rattle.std.specs.Prelude.{◌≡◌, [], length};
ghost use Rattle.std.specs.List.{zip};
ghost use Rattle.fx_expr.specs.Rows.{keys_of, values_of};

use fx_text::TextSet;
use std::alloc::Global;
use std::marker::Model;

/// A map from texts to values of one type. Contracts see the list of its pairs, in strictly ascending order of text.
#[derive(Debug)]
pub struct Keyed<V> {
    keys: TextSet,
    values: Vec<V>,
}

impl<V> Model for Keyed<V> {
    ghost use Rattle.std.specs.Prelude.{◌≡◌, List, ℕ, length};
    ghost use Rattle.std.specs.List.{zip};
    ghost use Rattle.std.specs.Coded.{coded×, coded_list, coded_ℕ};

    ghost Value = { List (List ℕ × V) };

    ghost coded = { coded_list (coded× (coded_list coded_ℕ) V.code) };

    ghost view = { λ k. zip k.keys k.values.items };

    ghost invariant = { λ k. length k.values.items ≡ length k.keys };
}

// Written out: no proof is made for a derived drop that runs inside another derived drop.
impl<V: Drop> Drop for Keyed<V> {
    fn drop(self) {
        let Keyed { keys, values } = self;
        drop(keys);
        drop(values);
    }
}

impl<V> Keyed<V> {
    /// The empty map.
    pub fn new(alloc: Global) -> Keyed<V>
        ensures { result ≡ [] }
    {
        Keyed {
            keys: TextSet::new(alloc),
            values: Vec::new(alloc),
        }
    }

    /// The map from each text to the value at its place.
    pub fn from_parts(keys: TextSet, values: Vec<V>) -> Keyed<V>
        requires { length values.items ≡ length keys }
        ensures { result ≡ zip keys values.items }
    {
        Keyed { keys, values }
    }

    /// The texts, as a set.
    pub fn keys(&self) -> &TextSet
        ensures { result.now ≡ keys_of self.now }
    {
        &self.keys
    }

    /// The values, in the order of their texts.
    pub fn values(&self) -> &[V]
        ensures { result.now ≡ values_of self.now }
    {
        self.values.as_slice()
    }
}

impl<V: Drop> Keyed<V> {
    /// The texts alone.
    pub fn into_keys(self) -> TextSet
        ensures { result ≡ keys_of self }
    {
        let Keyed { keys, values } = self;
        drop(values);
        keys
    }
}
