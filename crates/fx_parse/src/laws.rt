//! Laws of the tokens of expressions and shapes. Each stands on a function that does nothing, so that it is proved with the
//! crate.
ghost use Rattle.std.specs.Prelude.{ℕ, List};
ghost use Rattle.fx_lex.specs.declared.token.Token.{Token};
ghost use Rattle.fx_parse.specs.Grammars.{exprs, shapes};
ghost use Rattle.fx_parse.specs.Laws.{OneReading, OneForm, OnePlace};

/// Tokens are read in one way: those of one expression or shape never begin those of another, however deep they are nested.
/// So at most one stands at the front of tokens, and it ends at one place.
pub fn one_reading()
    ensures expression { OneReading exprs }
    ensures shape { OneReading shapes }
    ensures expression_in_front { OneForm exprs }
    ensures shape_in_front { OneForm shapes }
{}

/// At each level, tokens begin with an expression, or reading goes wrong at one place and in one way; so do shapes.
pub fn one_place()
    ensures expression { (depth : ℕ) (ts : List Token) → OnePlace exprs depth ts }
    ensures shape { (depth : ℕ) (ts : List Token) → OnePlace shapes depth ts }
{}
