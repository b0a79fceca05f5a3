//! The calls of a turn as steps on the table.
ghost use Rattle.std.specs.Prelude.{◌≡◌, ◌<◌, [], ◌∷◌, true, None, Some, IfOk, IfErr, MatchOption, All};
ghost use Rattle.std.specs.Slots.{IsFull, slots_items, slots_len};
ghost use Rattle.atomic_table.specs.Table.{Final, Seen};
ghost use Rattle.fx_base.specs.Limits.{shell_limit};
ghost use Rattle.fx_turn.specs.Histories.{Begins, own, count};
ghost use Rattle.fx_turn.specs.Views.{maker_of, parted, newcomer, taking, giving, joining, joins};
ghost use Rattle.fx_turn.specs.Plays.{Fits};
ghost use Rattle.fx_turn.specs.Rule.{Ordered};
ghost use Rattle.fx_turn.specs.Places.{IsPlaceOf, IsSamePlace, IsIdle, IsOut, IsGiven, Holds};

use crate::kept::Kept;
use crate::order::{Board, Place, Top};
use crate::plays::{Know, Learn, Note, Part, Post, Release, Try};
use atomic_table::{Closed, Refused, Table};
use fx_base::NoMemory;
use std::alloc::Global;
use std::snapshot::Snapshot;
use std::sync::Wait;
use std::{hint, thread};

/// How often a seat looks for the end of another's turn before its thread gives way. A turn is mostly over by then.
const LOOKS: u32 = 100;

fn unwrapped<K: Kept>(mut slots: Vec<Option<K>>) -> K
    requires { Holds slots.items }
    ensures { slots.items ≡ Some result ∷ [] }
{
    slots.pop().unwrap().unwrap()
}

/// The table with the value at home, and the maker's place.
pub(crate) fn open<K: Kept>(alloc: Global, kept: K) -> Result<(Board<K>, Place<K>), (K, NoMemory)>
    requires { K.history kept ≡ [] }
    ensures ok { IfOk result (λ t. (t.0.shared.table_id.words ≡ 2) × (t.0.shared.table_id.slots ≡ 1)
        × (t.1.table_id ≡ t.0.shared.table_id) × (t.1.me ≡ (maker_of (K.base kept), []))) }
    ensures err { IfErr result (λ e. e.0 ≡ kept) }
{
    let about = Snapshot::of(&kept);
    let mut slots = Vec::new(alloc);
    if let Err(failed) = slots.push(Some(kept)) {
        return Err((failed.value.unwrap(), NoMemory));
    }
    match Table::new(alloc, &[0, 0], slots, &about) {
        Ok(made) => Ok(made),
        Err(Refused { slots }) => Err((unwrapped(slots), NoMemory)),
    }
}

/// A new seat's place. It knows what the maker knows, and that the history has none of its entries.
pub(crate) fn part<K: Kept>(top: &Top<K>, maker: &mut Place<K>) -> Place<K>
    requires table { IsPlaceOf top.now.table_id maker.old }
    requires maker { (maker.old.me.0.live ≡ true) × (maker.old.me.0.number ≡ None) }
    requires room { maker.old.me.0.splits < shell_limit }
    ensures maker { IsSamePlace maker.old maker.new
        × (maker.new.me ≡ (parted maker.old.me.0, maker.old.me.1)) }
    ensures new { (result.table_id ≡ maker.old.table_id)
        × (result.me ≡ (newcomer maker.old.me.0, [])) }
    ensures none { own K.shell result.me.0.number result.me.0.seen ≡ 0 }
{
    let mut place = top.split_seat::<Part>(maker);
    top.load::<Know<K>>(&mut place, 0);
    place
}

/// Takes the value if no seat is in its turn.
fn try_hold<K: Kept>(top: &Top<K>, place: &mut Place<K>) -> Option<K>
    requires table { IsPlaceOf top.now.table_id place.old }
    requires idle { IsIdle place.old.me }
    ensures same { IsSamePlace place.old place.new }
    ensures taken { MatchOption result (place.new.me ≡ place.old.me)
        (λ k. (place.new.me ≡ (taking place.old.me.0 (K.history k), (0, None) ∷ []))
        × Fits K.base K.history K.shell place.old.me.0 k) }
{
    if top.compare_exchange::<Try<K>>(place, 0, 0, 1) == 0 {
        Some(top.exchange(place, 0, None).unwrap())
    } else {
        None
    }
}

/// Whether no seat was seen in its turn, after a short wait at most.
fn is_soon_home<K: Kept>(top: &Top<K>, place: &mut Place<K>) -> bool
    requires table { IsPlaceOf top.now.table_id place.old }
    requires idle { IsIdle place.old.me }
    ensures same { IsSamePlace place.old place.new × (place.new.me ≡ place.old.me) }
{
    for _ in 0..LOOKS {
        if top.load::<Know<K>>(place, 0) == 0 {
            return true;
        }
        hint::spin_loop();
    }
    false
}

/// Waits until no seat is in its turn, and takes the value.
pub(crate) fn hold<K: Kept, R: Wait>(rt: &R, top: &Top<K>, place: &mut Place<K>) -> K
    requires table { IsPlaceOf top.now.table_id place.old }
    requires idle { IsIdle place.old.me }
    ensures same { IsSamePlace place.old place.new }
    ensures taken { place.new.me ≡ (taking place.old.me.0 (K.history result), (0, None) ∷ []) }
    ensures kept { Fits K.base K.history K.shell place.old.me.0 result }
{
    for _ in rt.forever() {
        if let Some(kept) = try_hold(top, place) {
            return kept;
        }
        if !is_soon_home(top, place) {
            thread::yield_now();
        }
    }
    unreachable!()
}

fn let_go<K: Kept>(_: Option<K>) {}

/// Brings the value home, and ends the turn.
pub(crate) fn put_back<K: Kept>(top: &Top<K>, place: &mut Place<K>, kept: K)
    requires table { IsPlaceOf top.now.table_id place.old }
    requires out { IsOut place.old.me }
    requires base { place.old.me.0.base ≡ Some (K.base kept) }
    requires history { IsGiven K.shell place.old.me.0 (K.history kept) }
    ensures same { IsSamePlace place.old place.new }
    ensures given { place.new.me ≡ (giving place.old.me.0 (K.history kept), []) }
{
    let length = kept.length();
    let_go(top.exchange(place, 0, Some(kept)));
    top.store::<Post<K>>(place, 1, length);
    top.store::<Release<K>>(place, 0, 0);
}

/// The maker takes in what a seat had seen.
pub(crate) fn take_in<K: Kept>(top: &Top<K>, maker: &mut Place<K>, place: Place<K>)
    requires table { IsPlaceOf top.now.table_id maker.old × IsPlaceOf top.now.table_id place }
    requires maker { (maker.old.me.0.live ≡ true) × (maker.old.me.0.number ≡ None) }
    requires idle { IsIdle place.me }
    ensures same { IsSamePlace maker.old maker.new }
    ensures joined { maker.new.me ≡ (joining maker.old.me.0 place.me.0, maker.old.me.1) }
    ensures seen { Begins maker.old.me.0.seen maker.new.me.0.seen
        × Begins place.me.0.seen maker.new.me.0.seen }
{
    top.join_seat::<Note>(maker, place);
    top.load::<Learn<K>>(maker, 0);
}

// The table's end. Its last state meets the rule, and has the maker's view.
fn end<K: Kept>(board: Board<K>, maker: Place<K>) -> Closed<Option<K>, Global>
    requires { IsPlaceOf board.shared.table_id maker }
    ensures words { IsFull result.words }
    ensures slots { IsFull result.slots × (slots_len result.slots ≡ 1) }
    ensures last { Final (Seen (Ordered K.base K.history K.shell) maker.id maker.me.0)
        (slots_items result.words) (slots_items result.slots) }
{
    board.close_with(maker)
}

/// Ends the table, and answers the value that is home.
pub(crate) fn shut<K: Kept>(board: Board<K>, maker: Place<K>) -> K
    requires table { IsPlaceOf board.shared.table_id maker }
    requires maker { (maker.me.0.live ≡ true) × (maker.me.0.number ≡ None) }
    requires all { joins maker.me.0 ≡ maker.me.0.splits }
    ensures kept { Fits K.base K.history K.shell maker.me.0 result }
    ensures joined { All (λ j. count K.shell j.0 (K.history result) ≡ j.1) maker.me.0.joined }
{
    let mut closed = end(board, maker);
    let home = closed.take(0);
    closed.free();
    home.unwrap()
}
