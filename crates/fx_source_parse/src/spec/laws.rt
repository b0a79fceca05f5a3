ghost use Rattle.std.specs.Prelude.{List};
ghost use Rattle.fx_grammar.specs.Grammars.{descriptions};
ghost use Rattle.fx_grammar.specs.Refused.{HasOnePlace};
ghost use Rattle.fx_lex.specs.declared.token.Token.{Token};

/// Tokens are those of a description, or they go wrong in one way and at one place.
pub fn one_place()
    ensures { (ts : List Token) → HasOnePlace descriptions ts }
{}
