//! Laws of moves: where they lead, what undoes them, and which elements they come to.
ghost use Rattle.fx_laws.specs.Moved.{MovesLeadToPlaces, MovesAreUndone, NeighboursComeBack};
ghost use Rattle.fx_laws.specs.Stepping.{AboveThenBelow, BelowThenAbove, StepsReachEach};

/// A move that is not refused leads to an address that has a place; `out` comes back from where `into` and `to` lead, and
/// `up` from where `down` leads.
pub fn moves_lead_to_places()
    ensures places { MovesLeadToPlaces }
    ensures undone { MovesAreUndone }
{}

/// `prev` comes back from where `next` leads, and `next` from where `prev` leads: between the parts of a pair, and among the
/// elements of a set that ascends.
pub fn neighbours_come_back()
    ensures { NeighboursComeBack }
{}

/// In a set that ascends the least element above one and the greatest one below undo each other. From the least on, step by
/// step, each element is reached once, in its place.
pub fn steps_reach_each_element()
    ensures above { AboveThenBelow }
    ensures below { BelowThenAbove }
    ensures each { StepsReachEach }
{}
