//! The law of path texts.
ghost use Rattle.fx_laws.specs.PathTexts.{TextsTellPaths};

/// Two paths that spell alike are one.
pub fn a_text_tells_its_path()
    ensures { TextsTellPaths }
{}
