//! The law of what the texts of paths and of links are refused for.
ghost use Rattle.fx_laws.specs.Wanting.{TextsWantNoMemory};

/// The text by which a path goes on, and the text of a link, are refused as bad or as too deep alone. So no value, place or edit
/// turns want of memory into another refusal.
pub fn texts_want_no_memory()
    ensures { TextsWantNoMemory }
{}
