//! The items of a list in chunks, one after the other.
ghost use Rattle.std.specs.Prelude.{◌≡◌, ◌∷◌, [], MatchOption};
ghost use Rattle.std.specs.Iterator.{YieldsFirstRef, item_count};

use crate::chunk::Chunk;
use std::marker::Model;

/// The items of a list in chunks, seen as the list of those that are left.
#[derive(Drop)]
pub struct Items<'a, T> {
    pub(crate) front: &'a [T],
    pub(crate) chunks: &'a [Chunk<T>],
}

impl<'a, T> Model for Items<'a, T> {
    ghost use Rattle.std.specs.Prelude.{◌++◌, List};
    ghost use Rattle.fx_base.specs.Chunks.{joined};

    ghost Value = { List T };

    ghost view = { λ it. it.front.now ++ joined it.chunks.now };
}

impl<'a, T> Items<'a, T> {
    /// The first of the items that are left, and those after it.
    pub fn split_first(&self) -> Option<(&'a T, Items<'a, T>)>
        ensures { MatchOption result (self.now ≡ []) (λ r. self.now ≡ r.0.now ∷ r.1) }
    {
        let mut rest = Items {
            front: self.front,
            chunks: self.chunks,
        };
        match rest.next() {
            Some(item) => Some((item, rest)),
            None => None,
        }
    }
}

impl<'a, T> Iterator for Items<'a, T> {
    type Item = &'a T;

    ghost next_gives = { YieldsFirstRef (λ rest. rest) };

    ghost remaining = { item_count (λ rest. rest) };

    fn next(&mut self) -> Option<&'a T> {
        if let Some((item, rest)) = self.front.split_first() {
            self.front = rest;
            return Some(item);
        }
        while let Some((chunk, rest)) = self.chunks.split_first() {
            self.chunks = rest;
            if let Some((item, front)) = chunk.items().split_first() {
                self.front = front;
                return Some(item);
            }
        }
        None
    }
}
