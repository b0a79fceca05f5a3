//! Moves and edits, as commands.
ghost use Rattle.std.specs.Prelude.{◌≡◌, ℕ};
ghost use Rattle.fx_spec.specs.CommandTree.{CommandTree};
ghost use Rattle.fx_spec.specs.Transaction.{run};
ghost use Rattle.fx_spec.specs.Views.{act_tree};
ghost use Rattle.fx_run.specs.Scopes.{HasCommand, Scopes};
ghost use Rattle.fx_run.specs.Works.{IsSound, Obeys, root_of, standing_of};

use crate::binding::bind_number;
use crate::leave::{Leave, or_stop, refusal_number};
use crate::work::Work;
use fx_expr::Word;
use fx_spec::Act;
use fx_view::Reader;
use std::sync::ledger::Ledger;

/// A move or an edit.
pub(crate) fn act<R: Reader, L: Ledger>(
    work: &mut Work<'_, R, L>,
    number: u32,
    act: &Act,
) -> Result<(), Leave>
    requires shaped { HasCommand work.old.variables (CommandTree.act (act_tree act.now)) }
    requires sound { IsSound R.meaning work.old.walk }
    ensures obeys { Obeys R.meaning (run (root_of work.old) number
        (CommandTree.act (act_tree act.now)) (standing_of work.old))
        work.old work.new result }
    ensures scope { Scopes (CommandTree.act (act_tree act.now))
        work.old.variables work.new.variables result }
{
    or_stop(number, work.walk.act(&work.variables, act))
}

/// `try x ACT`: a move or an edit, with 0 or the number of its refusal bound to `x`.
pub(crate) fn attempt<R: Reader, L: Ledger>(
    work: &mut Work<'_, R, L>,
    word: &Word,
    act: &Act,
) -> Result<(), Leave>
    requires shaped { HasCommand work.old.variables
        (CommandTree.attempt word.now (act_tree act.now)) }
    requires sound { IsSound R.meaning work.old.walk }
    ensures obeys { (number : ℕ) → Obeys R.meaning (run (root_of work.old) number
        (CommandTree.attempt word.now (act_tree act.now)) (standing_of work.old))
        work.old work.new result }
    ensures scope { Scopes (CommandTree.attempt word.now (act_tree act.now))
        work.old.variables work.new.variables result }
{
    let refusal = refusal_number(work.walk.act(&work.variables, act))?;
    Ok(bind_number(work.walk.session.alloc, &mut work.variables, word, refusal)?)
}
