//! Laws of tokens: different trees have different tokens, and so different texts.
ghost use Rattle.fx_grammar.specs.Tokens.{text_tokens, spec_tokens, def_tokens, act_tokens, command_tokens, txn_tokens, text_names, spec_names, def_names, act_names, command_names, txn_names};
ghost use Rattle.fx_laws.specs.TokenLaws.{HasOneReading, BlocksHaveOneReading, ScriptsDiffer, TextsHaveOneDescription, TextsHaveOneScript};

/// Tokens are read in one way: where no name is a kept word, those of one tree never begin those of another, however deep
/// they are nested, and no two scripts have the same.
pub fn one_reading()
    ensures text { HasOneReading text_tokens text_names }
    ensures definition { HasOneReading def_tokens def_names }
    ensures description { HasOneReading spec_tokens spec_names }
    ensures act { HasOneReading act_tokens act_names }
    ensures command { HasOneReading command_tokens command_names }
    ensures block { BlocksHaveOneReading }
    ensures transaction { HasOneReading txn_tokens txn_names }
    ensures script { ScriptsDiffer }
{}

/// A text stands for one description at most, and for one script at most, be they of the built forms or not.
pub fn one_tree()
    ensures description { TextsHaveOneDescription }
    ensures script { TextsHaveOneScript }
{}
