//! Laws of the shapes of values.
ghost use Rattle.fx_spec.specs.Shaped.{DescribedHaveShapes, RootsHaveShapes, FetchedHaveShapes, PlacesAreDescribed, FetchesHaveShapes, WholesHaveShapes};

/// The value of a well-shaped description has the description's shape, at every path and every filestore, wherever the
/// bound names have theirs.
pub fn a_described_value_has_its_shape()
    ensures { DescribedHaveShapes }
{}

/// So has that of a root description.
pub fn a_root_value_has_its_shape()
    ensures { RootsHaveShapes }
{}

/// What a fetch gives at a form has the shape of the form's fetch.
pub fn a_fetched_value_has_its_shape()
    ensures { FetchedHaveShapes }
{}

/// Each address of a root description leads to a well-shaped part of it, where the bound names have their shapes.
pub fn places_are_well_shaped()
    ensures { PlacesAreDescribed }
{}

/// A transaction's `fetch x : shape` gives a value of that shape, from each address.
pub fn a_fetch_gives_its_shape()
    ensures { FetchesHaveShapes }
{}

/// So does its `value x : shape`.
pub fn a_whole_value_has_its_shape()
    ensures { WholesHaveShapes }
{}
