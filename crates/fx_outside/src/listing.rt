//! What a folder holds directly.
ghost use Rattle.std.specs.Prelude.{◌≡◌, [], ◌↔◌, IsTrue, slice_get, option_copied, option_map, OnOk, OnErr};
ghost use Rattle.std.specs.FinMap.{entries};
ghost use Rattle.std.specs.FinMap as map;
ghost use Rattle.fx_outside.specs.Listing.{name_cmp, StandsAfter};

use crate::{HostKind, HostText};
use fx_base::NoMemory;
use std::alloc::Global;
use std::cmp::Ordering;
use std::marker::Model;

/// The names in a folder with their kinds, in strictly ascending order of name.
#[derive(Debug)]
pub struct Listing {
    items: Vec<(HostText, HostKind)>,
}

/// It is written out, so that its parts are dropped in this crate alone.
impl Drop for Listing {
    fn drop(self) {
        let Listing { items: _items } = self;
    }
}

impl Model for Listing {
    ghost use Rattle.std.specs.Prelude.{T};
    ghost use Rattle.std.specs.FinMap as map;
    ghost use Rattle.std.specs.Coded.{coded_list, coded_ℕ};
    ghost use Rattle.fx_outside.specs.contracts.kind.HostKind as kind_row;
    ghost use Rattle.fx_outside.specs.Listing.{Names, name_cmp};

    ghost Value = { Names };

    ghost coded = { map.code (coded_list coded_ℕ) kind_row.the_row.coded };

    ghost view = { λ l. map.from_sorted l.items.items };

    ghost invariant = { λ l. T (map.is_sorted name_cmp l.items.items) };
}

impl Listing {
    /// No names.
    pub fn new(alloc: Global) -> Listing
        ensures { result ≡ map.empty }
    {
        Listing {
            items: Vec::new(alloc),
        }
    }

    /// The number of names.
    pub fn len(&self) -> u64
        ensures { result ≡ map.len self.now }
    {
        self.items.len() as u64
    }

    /// The name at `i` with its kind, from 0 in ascending order; None exactly from `len` on.
    pub fn at(&self, i: u64) -> Option<(&HostText, &HostKind)>
        ensures { option_map (λ e. (e.0.now, e.1.now)) result ≡ slice_get (entries self.now) i }
    {
        match entry(&self.items, i) {
            None => None,
            Some((name, kind)) => Some((name, kind)),
        }
    }

    /// A name's kind, by binary search; None exactly where the folder lacks the name.
    pub fn get(&self, key: &HostText) -> Option<&HostKind>
        ensures { option_copied result ≡ map.get self.now key.now }
    {
        let compare = |e: &(HostText, HostKind)| -> Ordering
            ensures { result ≡ name_cmp e.now.0 key.entry.now }
        { e.0.as_str().cmp(key.as_str()) };
        match self.items.binary_search_by(compare) {
            Ok(i) => Some(&self.items[i].1),
            Err(_) => None,
        }
    }

    /// Whether a name stands after all that are there, so that it can be added.
    pub fn can_add(&self, key: &HostText) -> bool
        ensures { (kind : HostKind) → IsTrue result ↔ StandsAfter self.now key.now kind }
    {
        match self.items.last() {
            None => true,
            Some((name, _)) => name.as_str() < key.as_str(),
        }
    }

    /// Adds a name at the end. A refusal changes nothing.
    pub fn add(&mut self, _alloc: Global, key: HostText, value: HostKind) -> Result<(), NoMemory>
        requires { StandsAfter self.old key value }
        ensures added { OnOk result (self.new ≡ map.insert self.old key value) }
        ensures same { OnErr result (self.new ≡ self.old) }
    {
        self.items.push((key, value))?;
        Ok(())
    }
}

fn entry(items: &[(HostText, HostKind)], i: u64) -> Option<&(HostText, HostKind)>
    ensures { option_copied result ≡ slice_get items.now i }
{
    items.get(i as usize)
}
