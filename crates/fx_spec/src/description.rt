ghost use Rattle.std.specs.Prelude.{◌≡◌, ◌<◌, ◌^◌, ◌++◌, [], ◌∷◌, OnOk, OnErr, length, slice_get, map, vec_len, vec_capacity};
ghost use Rattle.std.specs.Slice.Iter.{iter_rest};
ghost use Rattle.std.specs.Option.{option_map};
ghost use Rattle.fx_expr.specs.Views.{shape_tree};
ghost use Rattle.fx_spec.specs.DefViews.{def_tree};
ghost use Rattle.fx_spec.specs.Naming.{Notes};
ghost use Rattle.fx_spec.specs.ParamViews.{param_tree};
ghost use Rattle.fx_spec.specs.Written.{definition, place};

use crate::spec::Spec;
use fx_base::NoMemory;
use fx_expr::{Shape, Word};
use indexmap::IndexMap;
use std::alloc::Global;
use std::marker::Model;
use std::slice;

/// The parameters of a definition, with their shapes.
#[derive(Debug)]
pub struct Params {
    items: Vec<(Word, Shape)>,
}

/// It is written out, so that its parts are dropped in this crate alone.
impl Drop for Params {
    fn drop(self) {
        let Params { items: _items } = self;
    }
}

impl Model for Params {
    ghost use Rattle.std.specs.Prelude.{List, ℕ, map};
    ghost use Rattle.fx_expr.specs.ShapeTree.{ShapeTree};
    ghost use Rattle.fx_spec.specs.Codes.{coded_params};

    ghost Value = { List (List ℕ × ShapeTree) };

    ghost coded = { coded_params };

    ghost use Rattle.fx_spec.specs.ParamViews.{param_tree};

    ghost view = { λ p. map param_tree p.items.items };
}

/// A named description with parameters.
#[derive(Debug, Drop)]
pub struct Def {
    pub name: Word,
    pub params: Params,
    pub body: Spec,
}

/// The definitions of a text, in its order. Each name's first one is found by a table.
#[derive(Debug)]
pub struct Defs {
    items: Vec<Def>,
    places: IndexMap<Vec<u8>, usize>,
}

/// It is written out, so that its parts are dropped in this crate alone.
impl Drop for Defs {
    fn drop(self) {
        let Defs {
            items: _items,
            places: _places,
        } = self;
    }
}

impl Model for Defs {
    ghost use Rattle.std.specs.Prelude.{List, map};
    ghost use Rattle.fx_spec.specs.Written.{DefTree};
    ghost use Rattle.fx_spec.specs.Codes.{coded_defs};

    ghost Value = { List DefTree };

    ghost coded = { coded_defs };

    ghost use Rattle.fx_spec.specs.DefViews.{def_tree};

    ghost view = { λ d. map def_tree d.items.items };

    ghost use Rattle.fx_spec.specs.Naming.{IsTableOf};

    ghost invariant = { λ d. IsTableOf (map def_tree d.items.items) d.places.entries };
}

/// A text's definitions, and what it describes.
#[derive(Debug, Drop)]
pub struct Description {
    pub defs: Defs,
    pub root: Spec,
}

impl Params {
    /// No parameters.
    pub fn new(alloc: Global) -> Params
        ensures { result ≡ [] }
    {
        Params {
            items: Vec::new(alloc),
        }
    }

    /// The number of parameters.
    pub fn len(&self) -> u64
        ensures { result ≡ length self.now }
    {
        self.items.len() as u64
    }

    /// The parameters, from the first.
    pub fn iter(&self) -> slice::Iter<'_, (Word, Shape)>
        ensures rest { map param_tree (iter_rest result) ≡ self.now }
        ensures len { length (iter_rest result) ≡ length self.now }
    {
        self.items.iter()
    }

    /// Adds a parameter at the end. A refusal changes nothing.
    pub fn add(&mut self, _alloc: Global, item: (Word, Shape)) -> Result<(), NoMemory>
        ensures ok { OnOk result (self.new ≡ self.old ++ param_tree item ∷ []) }
        ensures err { OnErr result (self.new ≡ self.old) }
    {
        self.items.push(item)?;
        Ok(())
    }
}

impl Defs {
    /// No definitions.
    pub fn new(alloc: Global) -> Defs
        ensures { result ≡ [] }
    {
        Defs {
            items: Vec::new(alloc),
            places: IndexMap::new(alloc),
        }
    }

    /// The number of definitions.
    pub fn len(&self) -> u64
        ensures { result ≡ length self.now }
    {
        self.items.len() as u64
    }

    /// The definition at `i`; None exactly from `len` on.
    pub fn at(&self, i: u64) -> Option<&Def>
        ensures { option_map (λ d. def_tree d.now) result ≡ slice_get self.now i }
    {
        self.items.get(i as usize)
    }

    /// The definitions, from the first.
    pub fn iter(&self) -> slice::Iter<'_, Def>
        ensures rest { map def_tree (iter_rest result) ≡ self.now }
        ensures len { length (iter_rest result) ≡ length self.now }
        ensures bound { length (iter_rest result) < 2 ^ 64 }
    {
        self.items.iter()
    }

    /// The definitions themselves, from the first.
    pub fn into_vec(self) -> Vec<Def>
        ensures { map def_tree result.items ≡ self }
    {
        let Defs { items, places: _ } = self;
        items
    }

    /// Adds a definition at the end. A refusal changes nothing.
    pub fn add(&mut self, alloc: Global, item: Def) -> Result<(), NoMemory>
        ensures ok { OnOk result (self.new ≡ self.old ++ def_tree item ∷ []) }
        ensures err { OnErr result (self.new ≡ self.old) }
    {
        match prepare(alloc, &mut self.items, &mut self.places, &item.name) {
            Ok(()) => {
                self.items.push(item).unwrap();
                Ok(())
            }
            Err(NoMemory) => {
                let_go(item);
                Err(NoMemory)
            }
        }
    }

    /// The place of a name's first definition; None exactly where there is none.
    pub fn place(&self, name: &Word) -> Option<u64>
        ensures { result ≡ place name.now self.now }
    {
        match self.places.get(name.as_slice()) {
            Some(place) => Some(*place as u64),
            None => None,
        }
    }

    /// The definition of a name; None exactly where there is none.
    pub fn get(&self, name: &Word) -> Option<&Def>
        ensures { option_map (λ d. def_tree d.now) result ≡ definition name.now self.now }
    {
        self.at(self.place(name)?)
    }
}

fn let_go(_: Def) {}

/// Makes room for one definition more, and notes its name. A refusal changes nothing.
fn prepare(
    alloc: Global,
    items: &mut Vec<Def>,
    places: &mut IndexMap<Vec<u8>, usize>,
    name: &Word,
) -> Result<(), NoMemory>
    ensures items { items.new.items ≡ items.old.items }
    ensures room { OnOk result (vec_len items.new < vec_capacity items.new) }
    ensures noted { OnOk result
        (Notes places.old.entries places.new.entries name.now (length items.old.items)) }
    ensures same { OnErr result (places.new.entries ≡ places.old.entries) }
{
    items.reserve(1)?;
    note(alloc, places, name, items.len())
}

/// Notes the place of a name, unless the name has one.
fn note(
    alloc: Global,
    places: &mut IndexMap<Vec<u8>, usize>,
    name: &Word,
    place: usize,
) -> Result<(), NoMemory>
    ensures noted { OnOk result (Notes places.old.entries places.new.entries name.now place) }
    ensures same { OnErr result (places.new.entries ≡ places.old.entries) }
{
    if places.contains_key(name.as_slice()) {
        return Ok(());
    }
    let name = Vec::from_slice(alloc, name.as_slice())?;
    places.insert(name, place)?;
    Ok(())
}
