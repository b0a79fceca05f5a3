ghost use Rattle.std.specs.Prelude.{◌≡◌, ◌≤◌, List, All, IfOk, IfErr};
ghost use Rattle.fx_base.specs.Limits.{source_limit};
ghost use Rattle.fx_grammar.specs.Grammars.{scripts};
ghost use Rattle.fx_grammar.specs.Refused.{IsRefused};
ghost use Rattle.fx_grammar.specs.Texts.{IsScript};
ghost use Rattle.fx_spec.specs.CommandTree.{CommandTree, block, count_block};
ghost use Rattle.fx_spec.specs.Levels.{txn_levels};

use crate::script::txns::script_of;
use fx_base::SOURCE_LIMIT;
use fx_lex::lex;
use fx_parse::{ParseFault, fault_at};
use fx_spec::Txns;
use std::alloc::Global;

/// The transactions that a text of at most [`SOURCE_LIMIT`] bytes is, with no form of a level above 64; a text without
/// tokens is a script of none. No transaction has more commands than a text may have bytes. A refusal names the first
/// byte that begins no token; else the first token with which the tokens so far begin no script, or that begins a form of
/// level 65, whichever comes first.
pub fn parse(alloc: Global, text: &[u8]) -> Result<Txns, ParseFault>
    ensures ok { IfOk result (λ txns. IsScript text.now txns) }
    ensures only { (ts : List (List CommandTree)) → IsScript text.now ts →
        IfOk result (λ txns. txns ≡ ts) × IfErr result (λ e. e ≡ ParseFault.NoMemory) }
    ensures nested { IfOk result (All (λ commands. txn_levels commands ≤ 64)) }
    ensures few { IfOk result (All (λ commands. count_block (block commands) ≤ source_limit)) }
    ensures fault { IfErr result (IsRefused scripts text.now) }
{
    if text.len() > SOURCE_LIMIT {
        return Err(ParseFault::TooLarge);
    }
    let tokens = lex(alloc, text)?;
    match script_of(alloc, tokens.as_slice()) {
        Ok(txns) => Ok(txns),
        Err(stop) => Err(fault_at(&tokens, stop)),
    }
}
