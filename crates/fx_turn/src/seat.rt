//! A seat of a turn.
ghost use Rattle.std.specs.Prelude.{◌≡◌, true};
ghost use Rattle.fx_turn.specs.Histories.{own};
ghost use Rattle.fx_turn.specs.Places.{slots_out};

use crate::kept::Kept;
use crate::order::Place;

/// A seat of one turn, which one thread uses at a time. Its view says what it knows of the kept value.
///
/// The maker's seat has no number. It splits the others, which are numbered from 0, and takes them in again.
#[derive(Drop)]
pub struct Seat<K: Kept> {
    pub(crate) place: Place<K>,
    pub(crate) number: Option<u32>,
    pub(crate) splits: u32,
    pub ghost live: { place.me.0.live ≡ true },
    pub ghost number_is: { place.me.0.number ≡ number },
    pub ghost splits_is: { place.me.0.splits ≡ splits },
    pub ghost carries: { place.me.1 ≡ slots_out place.me.0.in_turn },
    pub ghost mine_is: { own K.shell place.me.0.number place.me.0.seen ≡ place.me.0.mine },
}
