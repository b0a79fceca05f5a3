//! Commands in order, with their blocks, choices and repeats.
ghost use Rattle.std.specs.Prelude.{◌≡◌, ◌<◌, ◌+◌, ◌^◌, Some, length, slice_get};
ghost use Rattle.fx_expr.specs.Bindings.{bind};
ghost use Rattle.fx_expr.specs.Tree.{Tree};
ghost use Rattle.fx_expr.specs.Views.{expr_tree};
ghost use Rattle.fx_spec.specs.CommandTree.{CommandTree, block, count, count_block};
ghost use Rattle.fx_spec.specs.Transaction.{binding, each_in, run, run_block, within};
ghost use Rattle.fx_spec.specs.Views.{command_tree};
ghost use Rattle.fx_run.specs.Scopes.{HasBlock, HasCommand, HasTurn, KeepsVariables, KeepsTurn};
ghost use Rattle.fx_run.specs.Scopes.{Scopes, ScopesBlock};
ghost use Rattle.fx_run.specs.Works.{IsSound, Obeys, root_of, standing_of};

use crate::acting::{act, attempt};
use crate::asking::ask;
use crate::binding::{assign, bind, bind_text, print};
use crate::counting::{command_at, number_of, number_of_all};
use crate::evaluating::{names_of, truth_of};
use crate::leave::Leave;
use crate::work::Work;
use fx_expr::{Expr, Text, TextSet, Word};
use fx_spec::{Command, Commands, End};
use fx_view::Reader;
use fx_zip::Question;
use std::sync::ledger::Ledger;

/// Obeys the command with this number.
#[cycle(obey)]
pub(crate) fn obey<R: Reader, L: Ledger>(
    work: &mut Work<'_, R, L>,
    number: u32,
    command: &Command,
) -> Result<(), Leave>
    requires shaped { HasCommand work.old.variables (command_tree command.now) }
    requires sound { IsSound R.meaning work.old.walk }
    requires few { number + count (command_tree command.now) < 2 ^ 32 }
    ensures obeys { Obeys R.meaning
        (run (root_of work.old) number (command_tree command.now) (standing_of work.old))
        work.old work.new result }
    ensures scope { Scopes (command_tree command.now) work.old.variables work.new.variables result }
{
    match command {
        Command::Do(deed) => act(work, number, deed),
        Command::Attempt(word, deed) => attempt(work, word, deed),
        Command::Bind(word, expr) => bind(work, number, word, expr),
        Command::Assign(word, expr) => assign(work, number, word, expr),
        Command::Fetch(word, shape) => ask(work, number, word, &Question::Fetch(shape)),
        Command::Whole(word, shape) => ask(work, number, word, &Question::Whole(shape)),
        Command::Validate(word) => ask(work, number, word, &Question::Validate),
        Command::Print(expr) => print(work, number, expr),
        Command::Branch(test, yes, no) => choose(work, number, test, yes, no),
        Command::Each(word, set, body) => each(work, number, word, set, body),
        Command::Abort => Err(Leave::Over(End::Aborted)),
    }
}

/// Obeys the commands in order, the first of which has this number.
#[cycle(obey)]
pub(crate) fn obey_all<R: Reader, L: Ledger>(
    work: &mut Work<'_, R, L>,
    number: u32,
    commands: &Commands,
) -> Result<(), Leave>
    requires shaped { HasBlock work.old.variables (block commands.now) }
    requires sound { IsSound R.meaning work.old.walk }
    requires few { number + count_block (block commands.now) < 2 ^ 32 }
    ensures obeys { Obeys R.meaning
        (run_block (root_of work.old) number (block commands.now) (standing_of work.old))
        work.old work.new result }
    ensures scope { ScopesBlock (block commands.now) work.old.variables work.new.variables result }
{
    let mut next = number;
    'obeying: for i in 0..commands.len() {
        let command = command_at(commands, i);
        obey(work, next, command)?;
        next += number_of(command);
    }
    Ok(())
}

/// Obeys the commands of a block; what they bind ends with it.
#[cycle(obey)]
fn within_block<R: Reader, L: Ledger>(
    work: &mut Work<'_, R, L>,
    number: u32,
    commands: &Commands,
) -> Result<(), Leave>
    requires shaped { HasBlock work.old.variables (block commands.now) }
    requires sound { IsSound R.meaning work.old.walk }
    requires few { number + count_block (block commands.now) < 2 ^ 32 }
    ensures obeys { Obeys R.meaning
        (within (standing_of work.old)
        (run_block (root_of work.old) number (block commands.now) (standing_of work.old)))
        work.old work.new result }
    ensures keeps { KeepsVariables (block commands.now) work.old.variables work.new.variables result }
{
    let len = work.variables.len();
    obey_all(work, number, commands)?;
    work.variables.cut(len);
    Ok(())
}

/// `if (e) { .. } else { .. }`: obeys one of the blocks.
#[cycle(obey)]
fn choose<R: Reader, L: Ledger>(
    work: &mut Work<'_, R, L>,
    number: u32,
    test: &Expr,
    yes: &Commands,
    no: &Commands,
) -> Result<(), Leave>
    requires shaped { HasCommand work.old.variables
        (CommandTree.branch (expr_tree test.now) (block yes.now) (block no.now)) }
    requires sound { IsSound R.meaning work.old.walk }
    requires few { number +
        (1 + (count_block (block yes.now) + count_block (block no.now))) < 2 ^ 32 }
    ensures obeys { Obeys R.meaning (run (root_of work.old) number
        (CommandTree.branch (expr_tree test.now) (block yes.now) (block no.now))
        (standing_of work.old)) work.old work.new result }
    ensures scope { Scopes (CommandTree.branch (expr_tree test.now) (block yes.now) (block no.now))
        work.old.variables work.new.variables result }
{
    if truth_of(&mut work.walk.session, number, test, &work.variables)? {
        within_block(work, number + 1, yes)
    } else {
        within_block(work, number + 1 + number_of_all(yes), no)
    }
}

/// `each x in (e) { .. }`: obeys the block once for each element of the set as it is now.
#[cycle(obey)]
fn each<R: Reader, L: Ledger>(
    work: &mut Work<'_, R, L>,
    number: u32,
    word: &Word,
    set: &Expr,
    body: &Commands,
) -> Result<(), Leave>
    requires shaped { HasCommand work.old.variables
        (CommandTree.each word.now (expr_tree set.now) (block body.now)) }
    requires sound { IsSound R.meaning work.old.walk }
    requires few { number + (1 + count_block (block body.now)) < 2 ^ 32 }
    ensures obeys { Obeys R.meaning (run (root_of work.old) number
        (CommandTree.each word.now (expr_tree set.now) (block body.now)) (standing_of work.old))
        work.old work.new result }
    ensures scope { Scopes (CommandTree.each word.now (expr_tree set.now) (block body.now))
        work.old.variables work.new.variables result }
{
    let texts = names_of(&mut work.walk.session, number, set, &work.variables)?;
    repeat(work, number + 1, word, &texts, body)
}

/// Obeys the block once for each text, in order.
#[cycle(obey)]
fn repeat<R: Reader, L: Ledger>(
    work: &mut Work<'_, R, L>,
    number: u32,
    word: &Word,
    texts: &TextSet,
    body: &Commands,
) -> Result<(), Leave>
    requires shaped { HasTurn work.old.variables word.now (block body.now) }
    requires sound { IsSound R.meaning work.old.walk }
    requires few { number + count_block (block body.now) < 2 ^ 32 }
    ensures obeys { Obeys R.meaning
        (each_in (λ s. run_block (root_of work.old) number (block body.now) s) word.now texts.now
        (standing_of work.old)) work.old work.new result }
    ensures keeps { KeepsTurn word.now (block body.now)
        work.old.variables work.new.variables result }
{
    'repeating: for i in 0..texts.len() {
        turn(work, number, word, text_at(texts, i), body)?;
    }
    Ok(())
}

/// Obeys the block with the text bound; what is bound ends with it.
#[cycle(obey)]
fn turn<R: Reader, L: Ledger>(
    work: &mut Work<'_, R, L>,
    number: u32,
    word: &Word,
    text: &Text,
    body: &Commands,
) -> Result<(), Leave>
    requires shaped { HasTurn work.old.variables word.now (block body.now) }
    requires sound { IsSound R.meaning work.old.walk }
    requires few { number + count_block (block body.now) < 2 ^ 32 }
    ensures obeys { Obeys R.meaning
        (within (standing_of work.old) (run_block (root_of work.old) number (block body.now)
        (binding (standing_of work.old) word.now (Tree.str text.now))))
        work.old work.new result }
    ensures keeps { KeepsTurn word.now (block body.now)
        work.old.variables work.new.variables result }
{
    let len = work.variables.len();
    bind_text(work.walk.session.alloc, &mut work.variables, word, text)?;
    obey_all(work, number, body)?;
    work.variables.cut(len);
    Ok(())
}

/// The element at a place of a set.
fn text_at(texts: &TextSet, i: u64) -> &Text
    requires { i < length texts.now }
    ensures { slice_get texts.now i ≡ Some result.now }
{
    match texts.at(i) {
        Some(text) => text,
        None => unreachable!(),
    }
}
