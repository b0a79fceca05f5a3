//! Small examples of expressions and of the texts of paths.
ghost use Rattle.fx_laws.specs.Small.{ExpressionExamples, ExtendedExamples, LinkTextExamples, PathTextExamples};

/// What some expressions give.
pub fn values_of_expressions()
    ensures { ExpressionExamples }
{}

/// By which texts a path goes on, which texts are those of links, and which spell paths.
pub fn texts_of_paths()
    ensures extended { ExtendedExamples }
    ensures links { LinkTextExamples }
    ensures paths { PathTextExamples }
{}
