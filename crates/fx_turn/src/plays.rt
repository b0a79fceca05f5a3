//! What each step on the table does to what its seat knows.
use crate::kept::Kept;
use crate::view::View;
use atomic_table::{Join, Play, Split};
use std::marker::PhantomData;

/// A try to begin a turn: where it finds 0, the value is the seat's.
pub(crate) struct Try<K> {
    kept: PhantomData<K>,
}

impl<K: Kept> Play<Option<K>, View<K::Origin, K::Item>> for Try<K> {
    ghost use Rattle.fx_turn.specs.Plays.{tried};

    ghost then = { tried K.base K.history K.shell };
}

/// The new length is stored, and the seat has the history that it is to give.
pub(crate) struct Post<K> {
    kept: PhantomData<K>,
}

impl<K: Kept> Play<Option<K>, View<K::Origin, K::Item>> for Post<K> {
    ghost use Rattle.fx_turn.specs.Plays.{posted};

    ghost then = { posted K.base K.history K.shell };
}

/// The turn ends, and the value is home.
pub(crate) struct Release<K> {
    kept: PhantomData<K>,
}

impl<K: Kept> Play<Option<K>, View<K::Origin, K::Item>> for Release<K> {
    ghost use Rattle.fx_turn.specs.Plays.{released};

    ghost then = { released K.base K.history K.shell };
}

/// A look at the table from which a seat learns that its count is right.
pub(crate) struct Know<K> {
    kept: PhantomData<K>,
}

impl<K: Kept> Play<Option<K>, View<K::Origin, K::Item>> for Know<K> {
    ghost use Rattle.fx_turn.specs.Plays.{known};

    ghost then = { known K.base K.history K.shell };
}

/// A look at the table from which the maker learns which of two beginnings is the longer.
pub(crate) struct Learn<K> {
    kept: PhantomData<K>,
}

impl<K: Kept> Play<Option<K>, View<K::Origin, K::Item>> for Learn<K> {
    ghost use Rattle.fx_turn.specs.Plays.{learned};

    ghost then = { learned K.base K.history K.shell };
}

/// The maker splits a seat.
pub(crate) struct Part;

impl<O, I> Split<View<O, I>> for Part {
    ghost use Rattle.fx_turn.specs.Views.{parted, newcomer};

    ghost left = { parted };

    ghost right = { newcomer };
}

/// The maker takes a note of what a seat had seen, and the seat is spent.
pub(crate) struct Note;

impl<O, I> Join<View<O, I>> for Note {
    ghost use Rattle.fx_turn.specs.Views.{noting, spent};

    ghost both = { noting };

    ghost spent = { spent };
}
