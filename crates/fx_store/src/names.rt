//! Sets of names, which directories list, and lists of names.
ghost use Rattle.std.specs.Prelude.{◌≡◌, ◌↔◌, ◌++◌, ◌∷◌, [], length, All, IsTrue, IfOk, OnOk, OnErr, slice_get, option_copied};
ghost use Rattle.std.specs.List.Sorted.{IsStrictlySortedBy};
ghost use Rattle.fx_base.specs.Sets.{with_text, without_name};
ghost use Rattle.fx_store.specs.Names.{IsName, IsNameSet, has, is_above, name_cmp};

use crate::name::Name;
use fx_base::{Chunks, Items, NoMemory};
use fx_text::{Text, TextSet};
use std::alloc::{AllocError, Global};
use std::marker::Model;

/// The names of a directory, each once, in ascending order. A copy shares them, and takes no memory for them. The set of them
/// as texts is kept beside them and shares their bytes, so that it is the value of the directory at no cost.
#[derive(Debug)]
pub struct Names {
    names: Chunks<Name>,
    texts: TextSet,
}

/// It is written out, so that its parts are dropped in this crate alone.
impl Drop for Names {
    fn drop(self) {
        let Names {
            names: _names,
            texts: _texts,
        } = self;
    }
}

impl Model for Names {
    ghost use Rattle.std.specs.Prelude.{List, ℕ};
    ghost use Rattle.fx_store.specs.Names.{IsListing};

    ghost Value = { List (List ℕ) };

    ghost view = { λ s. s.names };

    ghost invariant = { λ s. IsListing s.names s.texts };
}

impl Names {
    /// No names.
    pub fn new(alloc: Global) -> Names
        ensures { result ≡ [] }
    {
        Names {
            names: Chunks::new(alloc),
            texts: TextSet::new(alloc),
        }
    }

    /// The names of a list, which needs each once and in ascending order.
    pub fn from_vec(alloc: Global, names: Vec<Name>) -> Result<Names, NoMemory>
        requires { IsNameSet names.items }
        ensures { IfOk result (λ s. s ≡ names.items) }
    {
        let texts = texts_of(alloc, names.as_slice())?;
        Ok(Names {
            texts: TextSet::from_ascending(alloc, texts)?,
            names: Chunks::from_vec(alloc, names)?,
        })
    }

    /// The names of a list and the set of the same texts, of which the set is shared.
    pub fn from_parts(alloc: Global, names: Vec<Name>, texts: &TextSet) -> Result<Names, NoMemory>
        requires set { IsNameSet names.items }
        requires same { texts.now ≡ names.items }
        ensures { IfOk result (λ s. s ≡ names.items) }
    {
        Ok(Names {
            texts: texts.copy(alloc)?,
            names: Chunks::from_vec(alloc, names)?,
        })
    }

    /// The number of names.
    pub fn len(&self) -> u64
        ensures len { result ≡ length self.now }
        ensures set { IsNameSet self.now }
    {
        self.names.len() as u64
    }

    /// The name at an index, counted from 0 in ascending order. It takes a search over the chunks of the set.
    pub fn at(&self, i: u64) -> Option<&Name>
        ensures name { option_copied result ≡ slice_get self.now i }
        ensures set { IsNameSet self.now }
    {
        self.names.get(i as usize)
    }

    /// The names in ascending order. It is the way to go over all of them, since `at` searches.
    pub fn iter(&self) -> Items<'_, Name>
        ensures names { result ≡ self.now }
        ensures set { IsNameSet self.now }
    {
        self.names.iter()
    }

    /// Whether a name is one of these, by binary search.
    pub fn has(&self, name: &Name) -> bool
        ensures found { result ≡ has self.now name.now }
        ensures set { IsNameSet self.now }
    {
        self.names.search(name).is_ok()
    }

    /// Whether a name is greater than each of these, so that it may be added.
    pub fn is_next(&self, name: &Name) -> bool
        ensures { IsTrue result ↔ IsStrictlySortedBy name_cmp (self.now ++ name.now ∷ []) }
    {
        is_above(&self.names, name)
    }

    /// Adds a name at the end, which needs one that is greater than each of these.
    pub fn add(&mut self, alloc: Global, item: Name) -> Result<(), NoMemory>
        requires { IsStrictlySortedBy name_cmp (self.old ++ item ∷ []) }
        ensures ok { OnOk result (self.new ≡ self.old ++ item ∷ []) }
        ensures err { OnErr result (self.new ≡ self.old) }
    {
        let _ = item.as_slice(); // For the prover: it says that the item is a name.
        let mut texts = self.texts.copy(alloc)?;
        texts.add(alloc, item.text()?)?;
        self.names.push(alloc, item)?;
        self.texts = texts;
        Ok(())
    }

    /// The set with one name more. Where it has the name it is the same set.
    pub fn with(&self, alloc: Global, name: &Name) -> Result<Names, NoMemory>
        ensures { IfOk result (λ s. s ≡ with_text name.now self.now) }
    {
        match self.names.search(name) {
            Ok(_) => self.copy(alloc),
            Err(i) => {
                let texts = with_name(alloc, &self.texts, name)?;
                let name = name.copy(alloc)?;
                Ok(Names {
                    names: self.names.with(alloc, i, name)?,
                    texts,
                })
            }
        }
    }

    /// The set without a name. Where it lacks the name it is the same set.
    pub fn without(&self, alloc: Global, name: &Name) -> Result<Names, NoMemory>
        ensures { IfOk result (λ s. s ≡ without_name name.now self.now) }
    {
        match self.names.search(name) {
            Ok(i) => {
                let texts = lacking_name(alloc, &self.texts, name)?;
                Ok(Names {
                    names: self.names.without(alloc, i)?,
                    texts,
                })
            }
            Err(_) => self.copy(alloc),
        }
    }

    /// An equal set, which shares its names with this one.
    pub fn copy(&self, alloc: Global) -> Result<Names, NoMemory>
        ensures copied { IfOk result (λ s. s ≡ self.now) }
        ensures set { IsNameSet self.now }
    {
        Ok(Names {
            names: self.names.copy()?,
            texts: self.texts.copy(alloc)?,
        })
    }

    /// The names as a set of texts, which shares all with this one.
    pub fn texts(&self, alloc: Global) -> Result<TextSet, NoMemory>
        ensures { IfOk result (λ set. set ≡ self.now) }
    {
        self.texts.copy(alloc)
    }
}

// The set with a name more, as a text.
fn with_name(alloc: Global, texts: &TextSet, name: &Name) -> Result<TextSet, NoMemory>
    ensures { IfOk result (λ set. set ≡ with_text name.now texts.now) }
{
    let text = name.text()?;
    texts.with(alloc, &text)
}

// The set without a name, as a text.
fn lacking_name(alloc: Global, texts: &TextSet, name: &Name) -> Result<TextSet, NoMemory>
    ensures { IfOk result (λ set. set ≡ without_name name.now texts.now) }
{
    let text = name.text()?;
    texts.without_one(alloc, &text)
}

// The names as texts, which share their bytes.
fn texts_of(alloc: Global, names: &[Name]) -> Result<Vec<Text>, NoMemory>
    ensures { IfOk result (λ texts. texts.items ≡ names.now) }
{
    let mut texts = Vec::with_capacity(alloc, names.len())?;
    for name in names {
        texts.push(name.text()?)?;
    }
    Ok(texts)
}

// Whether a name is greater than the last of a set.
fn is_above(names: &Chunks<Name>, name: &Name) -> bool
    ensures { result ≡ is_above name_cmp names.now name.now }
{
    match names.last() {
        Some(last) => last.cmp(name).is_lt(),
        None => true,
    }
}

impl Clone for Names {
    ghost is_clone = { λ x y. y ≡ x };

    fn clone(&self) -> Result<Names, AllocError> {
        Ok(Names {
            names: self.names.clone()?,
            texts: self.texts.clone()?,
        })
    }
}

/// Names in any order.
#[derive(Debug)]
pub struct NameList {
    names: Vec<Name>,
}

/// It is written out, so that its parts are dropped in this crate alone.
impl Drop for NameList {
    fn drop(self) {
        let NameList { names: _names } = self;
    }
}

impl Model for NameList {
    ghost use Rattle.std.specs.Prelude.{List, ℕ, All};
    ghost use Rattle.fx_store.specs.Names.{IsName};

    ghost Value = { List (List ℕ) };

    ghost view = { λ s. s.names.items };

    ghost invariant = { λ s. All IsName s.names.items };
}

impl NameList {
    /// No names.
    pub fn new(alloc: Global) -> NameList
        ensures { result ≡ [] }
    {
        NameList {
            names: Vec::new(alloc),
        }
    }

    /// The number of names.
    pub fn len(&self) -> u64
        ensures len { result ≡ length self.now }
        ensures names { All IsName self.now }
    {
        self.names.len() as u64
    }

    /// The name at an index, counted from 0.
    pub fn at(&self, i: u64) -> Option<&Name>
        ensures name { option_copied result ≡ slice_get self.now i }
        ensures names { All IsName self.now }
    {
        self.names.get(i as usize)
    }

    /// Adds a name at the end.
    pub fn add(&mut self, _alloc: Global, item: Name) -> Result<(), NoMemory>
        ensures ok { OnOk result (self.new ≡ self.old ++ item ∷ []) }
        ensures err { OnErr result (self.new ≡ self.old) }
    {
        let _ = item.as_slice(); // For the prover: it says that the item is a name.
        self.names.push(item)?;
        Ok(())
    }
}
