//! A chunk of a list.
ghost use Rattle.std.specs.Prelude.{◌≡◌, ◌+◌, ◌++◌, ◌∷◌, [], length, IfOk, OnOk, OnErr};

use crate::NoMemory;
use std::alloc::{AllocError, Global};
use std::marker::Model;
use std::sync::Arc;

/// Some items of a list that lie side by side, and the number of those before them.
#[derive(Debug, Drop)]
pub(crate) struct Chunk<T> {
    before: usize,
    items: Arc<Vec<T>>,
}

impl<T> Model for Chunk<T> {
    ghost use Rattle.fx_base.specs.Chunks.{Piece};

    ghost Value = { Piece T };

    ghost view = { λ c. record { before = c.before; items = c.items.value.items } };
}

impl<T> Chunk<T> {
    pub(crate) fn new(alloc: Global, before: usize, items: Vec<T>) -> Result<Chunk<T>, NoMemory>
    where
        T: Drop,
        ensures before { IfOk result (λ c. c.before ≡ before) }
        ensures items { IfOk result (λ c. c.items ≡ items.items) }
    {
        Ok(Chunk {
            before,
            items: Arc::new(alloc, items)?,
        })
    }

    /// The number of items before these.
    pub(crate) fn before(&self) -> usize
        ensures { result ≡ self.now.before }
    {
        self.before
    }

    pub(crate) fn items(&self) -> &[T]
        ensures { result.now ≡ self.now.items }
    {
        self.items.as_slice()
    }

    /// An equal chunk that stands after another number of items.
    pub(crate) fn moved(&self, before: usize) -> Result<Chunk<T>, NoMemory>
    where
        T: Drop,
        ensures before { IfOk result (λ c. c.before ≡ before) }
        ensures items { IfOk result (λ c. c.items ≡ self.now.items) }
    {
        Ok(Chunk {
            before,
            items: self.items.clone()?,
        })
    }

    /// Says how many items stand before these.
    pub(crate) fn stand(&mut self, before: usize)
        ensures before { self.new.before ≡ before }
        ensures items { self.new.items ≡ self.old.items }
    {
        self.before = before;
    }

    /// Adds an item at the end. A refusal changes nothing.
    pub(crate) fn push(&mut self, item: T) -> Result<(), NoMemory>
    where
        T: Clone + Drop,
        requires copies { (x y : T) → T.is_clone x y → y ≡ x }
        ensures before { self.new.before ≡ self.old.before }
        ensures ok { OnOk result (self.new.items ≡ self.old.items ++ item ∷ []) }
        ensures err { OnErr result (self.new.items ≡ self.old.items) }
    {
        Arc::make_mut(&mut self.items)?.push(item)?;
        Ok(())
    }
}

impl<T: Drop> Clone for Chunk<T> {
    ghost is_clone = { λ x y. y ≡ x };

    fn clone(&self) -> Result<Chunk<T>, AllocError> {
        Ok(Chunk {
            before: self.before,
            items: self.items.clone()?,
        })
    }
}
