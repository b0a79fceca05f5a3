//! The lock of a known history.
ghost use Rattle.std.specs.Prelude.{◌≡◌};

use crate::kept::Kept;
use crate::order::Board;
use crate::seat::Seat;
use crate::steps;
use fx_base::NoMemory;
use std::alloc::Global;
use std::sync::Wait;

/// A lock whose value is handed from seat to seat.
///
/// A seat of one turn is used with that turn alone. Between a seat's `take` and its `give` no other seat takes the value.
#[derive(Drop)]
pub struct Turn<K: Kept> {
    pub(crate) board: Board<K>,
    ghost words: { board.shared.table_id.words ≡ 2 },
    ghost slots: { board.shared.table_id.slots ≡ 1 },
}

impl<K: Kept> Turn<K> {
    ghost use Rattle.std.specs.Prelude.{◌≡◌, ◌<◌, [], true, false, None, Some, IfOk, IfErr, All};
    ghost use Rattle.fx_base.specs.Limits.{shell_limit};
    ghost use Rattle.fx_turn.specs.Histories.{Begins, count};
    ghost use Rattle.fx_turn.specs.Views.{maker_of, parted, newcomer, taking, giving, joining, joins, IsNumbered};
    ghost use Rattle.fx_turn.specs.Plays.{Fits};
    ghost use Rattle.fx_turn.specs.Places.{IsGiven};
    ghost use Rattle.fx_turn.specs.Seats.{view, IsSeatOf};

    /// A turn over a value with an empty history, and the maker's seat. Want of memory hands the value back.
    pub fn new(alloc: Global, kept: K) -> Result<(Turn<K>, Seat<K>), (K, NoMemory)>
        requires { K.history kept ≡ [] }
        ensures ok { IfOk result (λ t. IsSeatOf t.0 t.1 × (view t.1 ≡ maker_of (K.base kept))) }
        ensures err { IfErr result (λ e. e.0 ≡ kept) }
    {
        let (board, place) = steps::open(alloc, kept)?;
        let maker = Seat {
            place,
            number: None,
            splits: 0,
        };
        Ok((Turn { board }, maker))
    }

    /// A seat with the next number. It has seen what the maker has seen, and has no entries. The maker splits at most 64.
    pub fn split(&self, maker: &mut Seat<K>) -> Seat<K>
        requires turn { IsSeatOf self.now maker.old }
        requires maker { (view maker.old).number ≡ None }
        requires room { (view maker.old).splits < shell_limit }
        ensures turn { IsSeatOf self.now maker.new × IsSeatOf self.now result }
        ensures maker { view maker.new ≡ parted (view maker.old) }
        ensures new { view result ≡ newcomer (view maker.old) }
    {
        let number = maker.splits;
        let place = steps::part(&self.board.shared, &mut maker.place);
        maker.splits += 1;
        Seat {
            place,
            number: Some(number),
            splits: 0,
        }
    }

    /// Waits until no seat is in its turn, and hands out the value. Its history begins with all that the seat had seen,
    /// and has as many of the seat's entries as the seat counts.
    pub fn take<R: Wait>(&self, rt: &R, seat: &mut Seat<K>) -> K
        requires turn { IsSeatOf self.now seat.old }
        requires numbered { IsNumbered (view seat.old) }
        requires idle { (view seat.old).in_turn ≡ false }
        ensures turn { IsSeatOf self.now seat.new }
        ensures seat { view seat.new ≡ taking (view seat.old) (K.history result) }
        ensures kept { Fits K.base K.history K.shell (view seat.old) result }
    {
        steps::hold(rt, &self.board.shared, &mut seat.place)
    }

    /// Ends the seat's turn with a value whose history is the one that was taken, or that one with one more entry of the
    /// seat's number.
    pub fn give(&self, seat: &mut Seat<K>, kept: K)
        requires turn { IsSeatOf self.now seat.old }
        requires out { (view seat.old).in_turn ≡ true }
        requires base { (view seat.old).base ≡ Some (K.base kept) }
        requires history { IsGiven K.shell (view seat.old) (K.history kept) }
        ensures turn { IsSeatOf self.now seat.new }
        ensures seat { view seat.new ≡ giving (view seat.old) (K.history kept) }
    {
        steps::put_back(&self.board.shared, &mut seat.place, kept);
    }

    /// Takes in a seat. The maker has then seen the longer of what both had seen, which begins with the other.
    pub fn join(&self, maker: &mut Seat<K>, seat: Seat<K>)
        requires turn { IsSeatOf self.now maker.old × IsSeatOf self.now seat }
        requires maker { (view maker.old).number ≡ None }
        requires numbered { IsNumbered (view seat) }
        requires idle { (view seat).in_turn ≡ false }
        ensures turn { IsSeatOf self.now maker.new }
        ensures maker { view maker.new ≡ joining (view maker.old) (view seat) }
        ensures seen { Begins (view maker.old).seen (view maker.new).seen
            × Begins (view seat).seen (view maker.new).seen }
    {
        let Seat {
            place,
            number: _,
            splits: _,
        } = seat;
        steps::take_in(&self.board.shared, &mut maker.place, place);
    }

    /// The value, once every seat was joined. Its history begins with all that the maker has seen, and has the entries of
    /// every joined seat.
    pub fn close(self, maker: Seat<K>) -> K
        requires turn { IsSeatOf self maker }
        requires maker { (view maker).number ≡ None }
        requires all { joins (view maker) ≡ (view maker).splits }
        ensures base { (view maker).base ≡ Some (K.base result) }
        ensures seen { Begins (view maker).seen (K.history result) }
        ensures joined { All (λ j. count K.shell j.0 (K.history result) ≡ j.1) (view maker).joined }
    {
        let Turn { board } = self;
        let Seat {
            place,
            number: _,
            splits: _,
        } = maker;
        steps::shut(board, place)
    }
}

impl<K: Kept> Seat<K> {
    ghost use Rattle.std.specs.Prelude.{◌≡◌};
    ghost use Rattle.fx_turn.specs.Seats.{view};

    /// The seat's number. None exactly for the maker's.
    pub fn number(&self) -> Option<u32>
        ensures { result ≡ (view self.now).number }
    {
        self.number
    }
}
