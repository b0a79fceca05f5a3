//! Laws of two transactions: what neither consults of the other's does not tell them apart.
ghost use Rattle.fx_laws.specs.Apart.{OthersStay, ApartCommute};

/// A transaction leaves what stands at each path that it does not consult.
pub fn what_is_not_consulted_stays()
    ensures { OthersStay }
{}

/// Two transactions, of which neither leaves another node at a path that the other consults, give the same answers and
/// leave the same filestore in either order.
pub fn transactions_apart_commute()
    ensures { ApartCommute }
{}
