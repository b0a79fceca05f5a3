//! The table under a turn, and the rule that holds between any two steps on it.
//!
//! Word 0 is 1 while a seat is in its turn and 0 otherwise. Word 1 is the length of the history. The one slot holds the
//! value while it is home. The steps that change what a seat knows, each on one word:
//!
//! | Step | On the table | What the seat knows then |
//! |---|---|---|
//! | try | a compare-exchange of word 0 from 0 to 1 | where it found 0, the seat is in its turn and stands for the history |
//! | post | a store of the new length in word 1 | the seat stands for the history that it is to give, and counts a new entry as its own |
//! | release | a store of 0 in word 0 | the seat is not in its turn, and the value is home |
//! | part | a load of word 0 | the maker counts one more split, and a new seat knows what the maker knows |
//! | know | a load of word 0 by the new seat, or by one that waits | the history that it has seen has as many of its entries as it counts |
//! | note | a load of word 0 | the maker counts one more joined seat and holds a note of what it had seen; that seat is spent |
//! | learn | a load of word 0 by the maker | the maker has seen the longer of what it had seen and the note |
//!
//! Between a try that found 0 and the post, the seat exchanges the slot's value for none, and later none for the value.
use crate::kept::Kept;
use crate::view::View;
use atomic_table::{Seat, Shared, Table, TableRule};
use std::alloc::Global;
use std::marker::PhantomData;
use std::snapshot::Snapshot;

/// One history for all seats, each of which knows a beginning of it.
pub struct Order<K> {
    kept: PhantomData<K>,
}

impl<K: Kept> TableRule<Option<K>, View<K::Origin, K::Item>, Snapshot<K>> for Order<K> {
    ghost use Rattle.fx_turn.specs.Rule.{Ordered};
    ghost use Rattle.fx_turn.specs.Views.{maker_of};

    ghost holds = { λ _. Ordered K.base K.history K.shell };

    ghost first = { λ key. maker_of (K.base key.value) };
}

pub(crate) type Board<K: Kept> = Table<
    Option<K>,
    View<K::Origin, K::Item>,
    Snapshot<K>,
    Order<K>,
    Global,
>;

pub(crate) type Top<K: Kept> = Shared<Option<K>, View<K::Origin, K::Item>, Snapshot<K>, Order<K>>;

/// A seat as the table knows it.
pub type Place<K: Kept> = Seat<Option<K>, View<K::Origin, K::Item>>;
