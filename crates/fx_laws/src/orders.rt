//! Laws of orders: which of them lead to the same states, and what a shell that settles has seen.
ghost use Rattle.fx_laws.specs.Swapped.{NeighboursMaySwap, OneScriptOneOrder, EntriesAreOfThePlan, CompleteOrdersAreLong};
ghost use Rattle.fx_laws.specs.Undone.{UndoneMayBeLeftOut};
ghost use Rattle.fx_laws.specs.Serial.{SettledSawTheState};

/// Two neighbours in an order, of which neither leaves another node at a path that the other consults, may change their
/// places: each state behind them is the same.
pub fn neighbours_apart_may_swap()
    ensures { NeighboursMaySwap }
{}

/// Without a transaction that is not done, an order leads to the same states.
pub fn an_undone_transaction_may_be_left_out()
    ensures { UndoneMayBeLeftOut }
{}

/// Of one script there is one complete order.
pub fn one_script_has_one_order()
    ensures { OneScriptOneOrder }
{}

/// Each entry of a legal order is of a transaction of the scripts. So none stands for no transaction.
pub fn each_entry_has_a_transaction()
    ensures { EntriesAreOfThePlan }
{}

/// A complete order has as many entries as the scripts have transactions together. So every run of the same scripts commits
/// equally many.
pub fn a_complete_order_has_all_transactions()
    ensures { CompleteOrdersAreLong }
{}

/// A shell that settles has looked at what stands in the last state: its transaction, run whole there, consults nothing that
/// was not looked at, and each look found what that state has. So a run of looks and settles in any order is as serial as
/// its commit order.
pub fn a_settled_shell_saw_the_state()
    ensures { SettledSawTheState }
{}
