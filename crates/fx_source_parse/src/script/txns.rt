//! Transactions one after another.
ghost use Rattle.std.specs.Prelude.{◌≡◌};
ghost use Rattle.fx_parse.specs.Reader.{kinds};
ghost use Rattle.fx_parse.specs.Stuck.{Gives};
ghost use Rattle.fx_source_parse.specs.Scripts.Reader.{read_txn, txn_added_at, read_script};

use crate::script::command::braced_at;
use fx_lex::Spanned;
use fx_parse::{LEVEL_LIMIT, Sign, Stop, behind};
use fx_spec::{Txn, Txns};
use std::alloc::Global;

/// `txn { command* }`: the commands are forms of level 2.
#[tactic(auto, unfolding(crate::specs::Scripts::Reader::read_txn))]
fn txn_at(alloc: Global, tokens: &[Spanned]) -> Result<(Txn, &[Spanned]), Stop>
    ensures { Gives (λ x. (x.0.commands, kinds x.1.now)) result (read_txn 64 (kinds tokens.now)) }
{
    let rest = behind(tokens, Sign::Txn)?;
    let (commands, rest) = braced_at(alloc, LEVEL_LIMIT - 1, rest)?;
    Ok((Txn { commands }, rest))
}

/// Adds the transaction at the front, and gives what follows it. A refusal leaves the list.
#[tactic(auto, unfolding(crate::specs::Scripts::Reader::txn_added_at))]
fn txn_added_at<'a>(
    alloc: Global,
    txns: &mut Txns,
    tokens: &'a [Spanned],
) -> Result<&'a [Spanned], Stop>
    ensures { Gives (λ r. (txns.new, kinds r.now)) result
        (txn_added_at txns.old (kinds tokens.now)) }
{
    let (txn, rest) = txn_at(alloc, tokens)?;
    txns.add(alloc, txn)?;
    Ok(rest)
}

/// The transactions that the tokens are.
pub(crate) fn script_of(alloc: Global, tokens: &[Spanned]) -> Result<Txns, Stop>
    ensures { Gives (λ x. x) result (read_script (kinds tokens.now)) }
{
    let mut txns = Txns::new(alloc);
    let mut rest = tokens;
    for _i in 0..tokens.len() {
        if rest.is_empty() {
            return Ok(txns);
        }
        rest = txn_added_at(alloc, &mut txns, rest)?;
    }
    if rest.is_empty() {
        return Ok(txns);
    }
    Err(Stop::Unexpected(rest.len()))
}
