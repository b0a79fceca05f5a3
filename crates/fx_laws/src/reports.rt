//! The law of printed reports: a report spells the order in which the transactions were committed, and its retries.
ghost use Rattle.fx_laws.specs.Spelled.{OrdersAreSpelled};

/// Where two legal orders of a plan, each with good retries, have the same report, they are the same order with the
/// same retries, whatever their transactions print.
pub fn orders_are_spelled()
    ensures { OrdersAreSpelled }
{}
