//! What a seat knows.
use std::collections::LinkedList;

/// What a seat knows of the kept value. Contracts read it, and no value of it is made.
pub struct View<O, I> {
    /// False once the seat was joined.
    pub live: bool,
    /// None for the maker's seat.
    pub number: Option<u32>,
    /// What the value was begun from. None only once the seat was joined.
    pub base: Option<O>,
    /// The part of the history that was seen, from its beginning.
    pub seen: LinkedList<I>,
    /// What a joined seat had seen, until it is compared with `seen`.
    pub told: LinkedList<I>,
    /// How many entries carry the seat's number.
    pub mine: u64,
    pub in_turn: bool,
    /// How many seats the maker has split.
    pub splits: u64,
    /// The number of each seat that the maker has joined, and how many entries it made. The newest comes first.
    pub joined: LinkedList<(u32, u64)>,
}
