//! Laws of what descriptions and transactions mean. Each stands on a function that does nothing, so that it is proved with
//! the crate.
ghost use Rattle.fx_spec.specs.Calls.{CallsStandForBodies};
ghost use Rattle.fx_spec.specs.EditLooks.{EditsLookAtChanges};
ghost use Rattle.fx_spec.specs.Examples.{FetchesFile, StopsAfterStore, StoreAtRoot, StoresNames, CreatesEntry, JoinsFiles, ValuesCall, EntersBodies, StopsUnfolded, NoEndNoValue};
ghost use Rattle.fx_spec.specs.Evals.{ValuesEvaluate, PlacesEvaluate, MovesEvaluateOnce};
ghost use Rattle.fx_spec.specs.Laws.{UndoneLeavesAll, DependsOnWay, LeavesAsData, CompleteHasEachOnce, PlacesHavePaths, EditsKeepWhole, TransactionsKeepWhole, StatesAreWhole};

/// What some transactions do on small filestores: their outputs, ends, consulted paths and changes.
pub fn worked_transactions()
    ensures fetches_file { FetchesFile }
    ensures stops_after_store { StopsAfterStore }
    ensures store_at_root { StoreAtRoot }
    ensures stores_names { StoresNames }
    ensures creates_entry { CreatesEntry }
    ensures joins_files { JoinsFiles }
    ensures values_call { ValuesCall }
    ensures enters_bodies { EntersBodies }
    ensures stops_unfolded { StopsUnfolded }
    ensures no_end_no_value { NoEndNoValue }
{}

/// A call has the value true where its body has a value, inside one call more.
pub fn a_call_stands_for_its_body()
    ensures { CallsStandForBodies }
{}

/// A transaction that stops or aborts leaves the filestore as it was.
pub fn an_undone_transaction_leaves_all()
    ensures { UndoneLeavesAll }
{}

/// What a transaction answers, changes and consults depends on nothing but what stands at the paths that it consults.
pub fn a_transaction_depends_on_its_way()
    ensures { DependsOnWay }
{}

/// The filestore that a transaction leaves, as a finite map, has at each path what its commands leave there.
pub fn a_transaction_leaves_as_data()
    ensures { LeavesAsData }
{}

/// A complete order has each transaction of the plan exactly once, and nothing else.
pub fn a_complete_order_has_each_transaction_once()
    ensures { CompleteHasEachOnce }
{}

/// The path of each place is a path: its names are names, and at most 64.
pub fn places_have_paths()
    ensures { PlacesHavePaths }
{}

/// An edit that is not refused leaves a whole filestore whole.
pub fn edits_keep_a_filestore_whole()
    ensures { EditsKeepWhole }
{}

/// An edit looks at each path that it changes.
pub fn edits_look_at_what_they_change()
    ensures { EditsLookAtChanges }
{}

/// A transaction leaves a whole filestore whole, whatever it does.
pub fn transactions_keep_a_filestore_whole()
    ensures { TransactionsKeepWhole }
{}

/// The state after any number of transactions of an order is whole, if the loaded filestore is.
pub fn states_of_an_order_are_whole()
    ensures { StatesAreWhole }
{}

/// The rule of a description's value evaluates just as often as the count of its forms says.
pub fn a_value_evaluates_as_counted()
    ensures { ValuesEvaluate }
{}

/// So does the rule of an address's place.
pub fn a_place_evaluates_as_counted()
    ensures { PlacesEvaluate }
{}

/// A move and a fetch evaluate once at most, besides the way to the place.
pub fn a_move_evaluates_once_at_most()
    ensures { MovesEvaluateOnce }
{}
