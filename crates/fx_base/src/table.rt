//! A list in chunks.
ghost use Rattle.std.specs.Prelude.{true, ◌≡◌, ◌+◌, ◌^◌, ◌<◌, ◌≤◌, ◌++◌, ◌∷◌, [], length, take, drop, OnOk, OnErr, IfOk, slice_get};
ghost use Rattle.std.specs.Option.{option_copied};
ghost use Rattle.fx_base.specs.Chunks.{AreChunks, AreCounted, IsChunkOf, joined, from_last};

use crate::NoMemory;
use crate::chunk::Chunk;
use std::alloc::{AllocError, Global};
use std::marker::Model;

/// The most items of a chunk that another item is added to.
const LONGEST: usize = 256;

/// The items of each chunk that a longer one is cut into, except the last.
const HALF: usize = 128;

/// The most items of a list.
const MOST: usize = 9_223_372_036_854_775_807;

/// A list in chunks. Contracts see the list.
#[derive(Debug, Drop)]
pub(crate) struct Table<T> {
    chunks: Vec<Chunk<T>>,
}

impl<T> Model for Table<T> {
    ghost use Rattle.std.specs.Prelude.{List};
    ghost use Rattle.fx_base.specs.Chunks.{AreChunks, joined};

    ghost Value = { List T };

    ghost view = { λ t. joined t.chunks.items };

    ghost invariant = { λ t. AreChunks t.chunks.items };
}

impl<T> Table<T> {
    pub(crate) fn new(alloc: Global) -> Table<T>
        ensures { result ≡ [] }
    {
        Table {
            chunks: Vec::new(alloc),
        }
    }

    pub(crate) fn as_slice(&self) -> &[Chunk<T>]
        ensures items { joined result.now ≡ self.now }
        ensures chunks { AreChunks result.now }
    {
        self.chunks.as_slice()
    }

    pub(crate) fn len(&self) -> usize
        ensures value { result ≡ length self.now }
        ensures few { result < 2 ^ 63 }
    {
        len_of(self.chunks.as_slice())
    }

    /// Adds a chunk of these items at the end. A refusal changes nothing.
    pub(crate) fn add(&mut self, alloc: Global, items: Vec<T>) -> Result<(), NoMemory>
    where
        T: Drop,
        ensures ok { OnOk result (self.new ≡ self.old ++ items.items) }
        ensures err { OnErr result (self.new ≡ self.old) }
    {
        let before = self.len();
        if items.len() > MOST - before {
            return Err(NoMemory);
        }
        let chunk = Chunk::new(alloc, before, items)?;
        self.chunks.push(chunk)?;
        Ok(())
    }

    /// Adds a chunk at the end, which other lists may share. A refusal changes nothing.
    pub(crate) fn share(&mut self, chunk: &Chunk<T>) -> Result<(), NoMemory>
    where
        T: Drop,
        ensures ok { OnOk result (self.new ≡ self.old ++ chunk.now.items) }
        ensures err { OnErr result (self.new ≡ self.old) }
    {
        let before = self.len();
        if chunk.items().len() > MOST - before {
            return Err(NoMemory);
        }
        let chunk = chunk.moved(before)?;
        self.chunks.push(chunk)?;
        Ok(())
    }
}

impl<T> Table<T> {
    /// Adds an item at the end. A refusal changes nothing.
    pub(crate) fn push(&mut self, alloc: Global, item: T) -> Result<(), NoMemory>
    where
        T: Clone + Drop,
        requires copies { (x y : T) → T.is_clone x y → y ≡ x }
        ensures ok { OnOk result (self.new ≡ self.old ++ item ∷ []) }
        ensures err { OnErr result (self.new ≡ self.old) }
    {
        if self.len() >= MOST {
            return Err(NoMemory);
        }
        if has_room(self.chunks.as_slice()) {
            let last = self.chunks.len() - 1;
            return self.chunks[last].push(item);
        }
        let mut items = Vec::new(alloc);
        items.push(item)?;
        self.add(alloc, items)
    }

    /// The items of these parts, of which the last comes first, each a chunk.
    pub(crate) fn from_parts(alloc: Global, parts: Vec<Vec<T>>) -> Result<Table<T>, NoMemory>
    where
        T: Drop,
        ensures { IfOk result (λ t. t ≡ from_last (λ part. part.items) parts.items) }
    {
        let mut left = parts;
        let mut table = Table {
            chunks: Vec::with_capacity(alloc, left.len())?,
        };
        'joining: while let Some(part) = left.pop() {
            table.add(alloc, part)?;
        }
        Ok(table)
    }

    /// Adds these items at the end, in chunks.
    pub(crate) fn add_cut(&mut self, alloc: Global, items: Vec<T>) -> Result<(), NoMemory>
    where
        T: Drop,
        ensures { OnOk result (self.new ≡ self.old ++ items.items) }
    {
        let mut front = items;
        if front.is_empty() {
            return Ok(());
        }
        if front.len() <= LONGEST {
            return self.add(alloc, front);
        }
        let back = front.split_off(HALF)?;
        self.add(alloc, front)?;
        self.add(alloc, back)
    }

    /// Adds chunks at the end, which other lists may share.
    pub(crate) fn share_all(&mut self, chunks: &[Chunk<T>]) -> Result<(), NoMemory>
    where
        T: Drop,
        ensures { OnOk result (self.new ≡ self.old ++ joined chunks.now) }
    {
        for chunk in chunks {
            self.share(chunk)?;
        }
        Ok(())
    }

    /// These chunks with other items in place of one chunk.
    pub(crate) fn of(
        alloc: Global,
        chunks: &[Chunk<T>],
        k: usize,
        items: Vec<T>,
    ) -> Result<Table<T>, NoMemory>
    where
        T: Drop,
        requires within { k < length chunks.now }
        requires chunks { AreChunks chunks.now }
        ensures { IfOk result
            (λ t. t ≡ joined (take k chunks.now) ++ (items.items ++ joined (drop (k + 1) chunks.now))) }
    {
        if items.is_empty() || items.len() > LONGEST {
            Table::cut_at(alloc, chunks, k, items)
        } else {
            Table::replaced(alloc, chunks, k, items)
        }
    }

    // The same, where the items are none, or too many for a chunk.
    fn cut_at(
        alloc: Global,
        chunks: &[Chunk<T>],
        k: usize,
        items: Vec<T>,
    ) -> Result<Table<T>, NoMemory>
    where
        T: Drop,
        requires { k < length chunks.now }
        ensures { IfOk result
            (λ t. t ≡ joined (take k chunks.now) ++ (items.items ++ joined (drop (k + 1) chunks.now))) }
    {
        let mut table = Table {
            chunks: Vec::with_capacity(alloc, chunks.len() + 1)?,
        };
        table.share_all(&chunks[..k])?;
        table.add_cut(alloc, items)?;
        table.share_all(&chunks[k + 1..])?;
        Ok(table)
    }

    // The same, with one chunk of the items.
    fn replaced(
        alloc: Global,
        chunks: &[Chunk<T>],
        k: usize,
        items: Vec<T>,
    ) -> Result<Table<T>, NoMemory>
    where
        T: Drop,
        requires within { k < length chunks.now }
        requires chunks { AreChunks chunks.now }
        ensures { IfOk result
            (λ t. t ≡ joined (take k chunks.now) ++ (items.items ++ joined (drop (k + 1) chunks.now))) }
    {
        let before = chunks[k].before();
        let mut list = Vec::from_clones(alloc, chunks)?;
        list[k] = Chunk::new(alloc, before, items)?;
        count_from(&mut list, k, before)?;
        Ok(Table { chunks: list })
    }
}

// Counts again from a chunk on, before which there are so many items.
fn count_from<T>(chunks: &mut Vec<Chunk<T>>, k: usize, before: usize) -> Result<(), NoMemory>
    requires counted { AreCounted chunks.old.items k }
    requires before { before ≡ length (joined (take k chunks.old.items)) }
    requires few { before < 2 ^ 63 }
    requires within { k ≤ length chunks.old.items }
    ensures chunks { OnOk result (AreChunks chunks.new.items) }
    ensures items { OnOk result (joined chunks.new.items ≡ joined chunks.old.items) }
{
    let mut total = before;
    for i in k..chunks.len() {
        chunks[i].stand(total);
        let len = chunks[i].items().len();
        if len > MOST - total {
            return Err(NoMemory);
        }
        total += len;
    }
    Ok(())
}

// The items in parts that a chunk takes, from the last part to the first. Each is moved once.
pub(crate) fn cut<T: Drop>(alloc: Global, items: Vec<T>) -> Result<Vec<Vec<T>>, NoMemory>
    ensures { IfOk result (λ parts. from_last (λ part. part.items) parts.items ≡ items.items) }
{
    let mut left = items;
    let mut parts = Vec::new(alloc);
    'cutting: while !left.is_empty() {
        let part = left.split_off(left.len().saturating_sub(LONGEST))?;
        parts.push(part)?;
    }
    Ok(parts)
}

// Whether there is a last chunk that takes another item.
fn has_room<T>(chunks: &[Chunk<T>]) -> bool
    ensures { result ≡ true → 0 < length chunks.now }
{
    match chunks.last() {
        None => false,
        Some(last) => last.items().len() < LONGEST,
    }
}

// The number of items of these chunks.
fn len_of<T>(chunks: &[Chunk<T>]) -> usize
    requires { AreChunks chunks.now }
    ensures { result ≡ length (joined chunks.now) }
{
    match chunks.last() {
        None => 0,
        Some(last) => last.before() + last.items().len(),
    }
}

// The chunk where the item at `i` stands, or the last one.
pub(crate) fn chunk_at<T>(chunks: &[Chunk<T>], i: usize) -> usize
    requires { AreChunks chunks.now }
    ensures { IsChunkOf chunks.now i result }
{
    let mut low = 0;
    let mut high = chunks.len();
    while high - low > 1 {
        let middle = low + (high - low) / 2;
        if chunks[middle].before() <= i {
            low = middle;
        } else {
            high = middle;
        }
    }
    low
}

impl<T: Drop> Clone for Table<T> {
    ghost is_clone = { λ x y. y ≡ x };

    fn clone(&self) -> Result<Table<T>, AllocError> {
        Ok(Table {
            chunks: self.chunks.clone()?,
        })
    }
}
