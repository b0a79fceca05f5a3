ghost use Rattle.std.specs.Prelude.{List};
ghost use Rattle.fx_grammar.specs.Grammars.{transactions, scripts};
ghost use Rattle.fx_grammar.specs.Refused.{HasOnePlace};
ghost use Rattle.fx_lex.specs.declared.token.Token.{Token};

/// Tokens are those of a transaction or of a script, or they go wrong in one way and at one place.
pub fn one_place()
    ensures transaction { (ts : List Token) → HasOnePlace transactions ts }
    ensures script { (ts : List Token) → HasOnePlace scripts ts }
{}
