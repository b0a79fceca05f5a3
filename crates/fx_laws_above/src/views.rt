//! The law of views.
ghost use Rattle.fx_laws_above.specs.Viewed.{ViewsAreEntries};

/// A view of a legal order is an entry: the one at its place in the order with its transaction put in there.
pub fn a_view_is_an_entry()
    ensures { ViewsAreEntries }
{}
