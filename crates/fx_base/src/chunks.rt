//! A list in chunks that many values may share, so that one item more or less copies one chunk.
ghost use Rattle.std.specs.Prelude.{◌≡◌, ◌-◌, ◌^◌, ◌<◌, ◌≤◌, ◌++◌, ◌∷◌, [], length, slice_get, slice_index_or, IfOk, OnOk, OnErr};
ghost use Rattle.std.specs.Option.{option_copied};
ghost use Rattle.std.specs.List.{insert, remove};
ghost use Rattle.std.specs.List.Sorted.{IsSearchInRange, IsBinarySearchResult};
ghost use Rattle.fx_base.specs.Chunks.{AreChunks, joined, shared_list};

use crate::NoMemory;
use crate::chunk::Chunk;
use crate::items::Items;
use crate::table::{Table, chunk_at, cut};
use std::alloc::{AllocError, Global};
use std::cmp::Ordering;
use std::marker::Model;
use std::sync::Arc;

/// A list, of which a copy takes no memory and no time. An item more or less at any place copies some hundreds of the
/// items, and for each hundred of the others a counter.
#[derive(Debug)]
pub struct Chunks<T> {
    shared: Option<Arc<Table<T>>>,
}

/// It is written out, so that its parts are dropped in this crate alone.
impl<T: Drop> Drop for Chunks<T> {
    fn drop(self) {
        let Chunks { shared: _shared } = self;
    }
}

impl<T> Model for Chunks<T> {
    ghost use Rattle.std.specs.Prelude.{List};
    ghost use Rattle.fx_base.specs.Chunks.{shared_list};

    ghost Value = { List T };

    ghost view = { λ c. shared_list c.shared };
}

impl<T> Chunks<T> {
    /// An empty list.
    pub fn new(_alloc: Global) -> Chunks<T>
        ensures { result ≡ [] }
    {
        Chunks { shared: None }
    }

    /// The items of a vector, in its order.
    pub fn from_vec(alloc: Global, items: Vec<T>) -> Result<Chunks<T>, NoMemory>
    where
        T: Drop,
        ensures { IfOk result (λ c. c ≡ items.items) }
    {
        let parts = cut(alloc, items)?;
        Chunks::of(alloc, Table::from_parts(alloc, parts)?)
    }

    fn of(alloc: Global, table: Table<T>) -> Result<Chunks<T>, NoMemory>
    where
        T: Drop,
        ensures { IfOk result (λ c. c ≡ table) }
    {
        Ok(Chunks {
            shared: Some(Arc::new(alloc, table)?),
        })
    }

    fn as_slice(&self) -> &[Chunk<T>]
        ensures items { joined result.now ≡ self.now }
        ensures chunks { AreChunks result.now }
    {
        match &self.shared {
            Some(table) => table.as_slice(),
            None => &[],
        }
    }

    /// The number of items.
    pub fn len(&self) -> usize
        ensures value { result ≡ length self.now }
        ensures few { result < 2 ^ 63 }
    {
        match &self.shared {
            Some(table) => table.len(),
            None => 0,
        }
    }

    /// The item at an index, by a search over the chunks; `None` exactly from `len` on.
    pub fn get(&self, i: usize) -> Option<&T>
        ensures { option_copied result ≡ slice_get self.now i }
    {
        let chunks = self.as_slice();
        match item_at(chunks, chunk_at(chunks, i)) {
            Some(chunk) => item_at(chunk.items(), i - chunk.before()),
            None => None,
        }
    }

    /// The items, from the first. It is the way to go over all of them, since `get` searches.
    pub fn iter(&self) -> Items<'_, T>
        ensures { result ≡ self.now }
    {
        Items {
            front: &[],
            chunks: self.as_slice(),
        }
    }

    /// The last item, if there is one.
    pub fn last(&self) -> Option<&T>
        ensures { option_copied result ≡ slice_get self.now (length self.now - 1) }
    {
        let len = self.len();
        if len == 0 {
            return None;
        }
        self.get(len - 1)
    }

    /// Adds an item at the end, in place where nothing else shares the list. A refusal changes nothing.
    pub fn push(&mut self, alloc: Global, item: T) -> Result<(), NoMemory>
    where
        T: Clone + Drop,
        requires copies { (x y : T) → T.is_clone x y → y ≡ x }
        ensures ok { OnOk result (self.new ≡ self.old ++ item ∷ []) }
        ensures err { OnErr result (self.new ≡ self.old) }
    {
        match &mut self.shared {
            Some(table) => {
                Arc::make_mut(table)?.push(alloc, item)?;
            }
            None => {
                let mut table = Table::new(alloc);
                table.push(alloc, item)?;
                self.shared = Some(Arc::new(alloc, table)?);
            }
        }
        Ok(())
    }

    /// The list with one item more, at a place that is at most its length.
    pub fn with(&self, alloc: Global, i: usize, item: T) -> Result<Chunks<T>, NoMemory>
    where
        T: Clone + Drop,
        requires within { i ≤ length self.now }
        requires copies { (x y : T) → T.is_clone x y → y ≡ x }
        ensures { IfOk result (λ c. c ≡ insert self.now i item) }
    {
        let chunks = self.as_slice();
        let k = chunk_at(chunks, i);
        match item_at(chunks, k) {
            Some(chunk) => {
                let mut items = Vec::from_clones(alloc, chunk.items())?;
                items.insert(i - chunk.before(), item)?;
                Chunks::of(alloc, Table::of(alloc, chunks, k, items)?)
            }
            None => {
                let mut items = Vec::new(alloc);
                items.push(item)?;
                Chunks::from_vec(alloc, items)
            }
        }
    }

    /// The list without the item at an index.
    pub fn without(&self, alloc: Global, i: usize) -> Result<Chunks<T>, NoMemory>
    where
        T: Clone + Drop,
        requires within { i < length self.now }
        requires copies { (x y : T) → T.is_clone x y → y ≡ x }
        ensures { IfOk result (λ c. c ≡ remove self.now i) }
    {
        let chunks = self.as_slice();
        let k = chunk_at(chunks, i);
        match item_at(chunks, k) {
            Some(chunk) => {
                let mut items = Vec::from_clones(alloc, chunk.items())?;
                let_go(items.remove(i - chunk.before()));
                Chunks::of(alloc, Table::of(alloc, chunks, k, items)?)
            }
            None => unreachable!(),
        }
    }

    /// An equal list, which shares its items with this one.
    pub fn copy(&self) -> Result<Chunks<T>, NoMemory>
    where
        T: Drop,
        ensures { IfOk result (λ c. c ≡ self.now) }
    {
        Ok(Chunks {
            shared: self.shared.clone()?,
        })
    }

    fn item(&self, i: usize) -> &T
        requires { i < length self.now }
        ensures { result.now ≡ slice_index_or self.now i result.now }
    {
        match self.get(i) {
            Some(item) => item,
            None => unreachable!(),
        }
    }

    /// Where an item stands in an ascending list, or else its place, by binary search.
    pub fn search(&self, x: &T) -> Result<usize, usize>
    where
        T: Ord,
        ensures bound { IsSearchInRange result (length self.now) }
        ensures position { IsBinarySearchResult (λ y. T.cmp y x.now) self.now result }
    {
        let mut size = self.len();
        if size == 0 {
            return Err(0);
        }
        let mut base = 0;
        while size > 1 {
            let half = size / 2;
            let middle = base + half;
            if self.item(middle).cmp(x).is_gt() {
                size -= half;
            } else {
                base = middle;
                size -= half;
            }
        }
        match self.item(base).cmp(x) {
            Ordering::Equal => Ok(base),
            Ordering::Less => Err(base + 1),
            Ordering::Greater => Err(base),
        }
    }
}

fn let_go<T: Drop>(_item: T) {}

// `get`, with its answer as one equation.
fn item_at<T>(items: &[T], i: usize) -> Option<&T>
    ensures { option_copied result ≡ slice_get items.now i }
{
    items.get(i)
}

impl<T: Drop> Clone for Chunks<T> {
    ghost is_clone = { λ x y. y ≡ x };

    fn clone(&self) -> Result<Chunks<T>, AllocError> {
        Ok(Chunks {
            shared: self.shared.clone()?,
        })
    }
}
