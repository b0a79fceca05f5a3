ghost use Rattle.fx_spec.specs.Levels.{expr_levels, shape_levels, text_levels, txn_levels};
ghost use Rattle.fx_parse.specs.Grammars.{exprs, shapes};
ghost use Rattle.fx_grammar.specs.Agree.{LevelsAgree, script_levels};
ghost use Rattle.fx_grammar.specs.Grammars.{descriptions, transactions, scripts};

/// How deep a tree is nested is the greatest of its tokens' levels.
pub fn levels_agree()
    ensures expression { LevelsAgree exprs expr_levels }
    ensures shape { LevelsAgree shapes shape_levels }
    ensures description { LevelsAgree descriptions text_levels }
    ensures transaction { LevelsAgree transactions txn_levels }
    ensures script { LevelsAgree scripts script_levels }
{}
