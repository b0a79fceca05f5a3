//! The commands at a zipper, as the lines of cases name them.
ghost use Rattle.std.specs.Prelude.{IfOk};
ghost use Rattle.fx_session.specs.Halts.{split};
ghost use Rattle.test_moves.specs.Ready.{IsReadyWalk};

use crate::verbs::{Edit, Move, Question};
use crate::walk::Walk;
use fx_expr::{Shape, Text, Value};
use fx_session::Halt;
use fx_zip::Question as Asked;
use std::sync::ledger::Ledger;

/// Moves; `text` is the element of `to`.
pub fn move_by<L: Ledger>(walk: &mut Walk<'_, '_, L>, act: Move, text: &Text) -> Result<(), Halt>
    requires ready { IsReadyWalk walk.old }
    ensures ready { IfOk (split result) (λ _. IsReadyWalk walk.new) }
{
    match act {
        Move::Into => walk.zip.go_into(&mut walk.session),
        Move::To => walk.zip.go_to(&mut walk.session, text),
        Move::Next => walk.zip.go_next(&mut walk.session),
        Move::Prev => walk.zip.go_prev(&mut walk.session),
        Move::Down => walk.zip.go_down(&mut walk.session),
        Move::Out => Ok(walk.zip.go_out()?),
        Move::Up => Ok(walk.zip.go_up()?),
        Move::Top => {
            walk.zip.go_top();
            Ok(())
        }
    }
}

/// What is asked at the place.
pub fn ask<L: Ledger>(
    walk: &mut Walk<'_, '_, L>,
    question: Question,
    shape: &Shape,
) -> Result<Value, Halt>
    requires ready { IsReadyWalk walk.old }
    ensures ready { IfOk (split result) (λ _. IsReadyWalk walk.new) }
{
    let asked = question_of(question, shape);
    walk.zip.ask(&mut walk.session, &asked)
}

fn question_of(question: Question, shape: &Shape) -> Asked<'_> {
    match question {
        Question::Fetch => Asked::Fetch(shape),
        Question::Value => Asked::Whole(shape),
        Question::Validate => Asked::Validate,
    }
}

fn store<L: Ledger>(walk: &mut Walk<'_, '_, L>, value: &Value) -> Result<(), Halt>
    requires ready { IsReadyWalk walk.old }
    ensures ready { IfOk (split result) (λ _. IsReadyWalk walk.new) }
{
    let untouched = fx_edit::store(&mut walk.session, &walk.zip.here(), value)?;
    walk.zip.edited(untouched);
    Ok(())
}

fn create<L: Ledger>(walk: &mut Walk<'_, '_, L>) -> Result<(), Halt>
    requires ready { IsReadyWalk walk.old }
    ensures ready { IfOk (split result) (λ _. IsReadyWalk walk.new) }
{
    let untouched = fx_edit::create(&mut walk.session, &walk.zip.here())?;
    walk.zip.edited(untouched);
    Ok(())
}

fn remove<L: Ledger>(walk: &mut Walk<'_, '_, L>) -> Result<(), Halt>
    requires ready { IsReadyWalk walk.old }
    ensures ready { IfOk (split result) (λ _. IsReadyWalk walk.new) }
{
    let untouched = fx_edit::remove(&mut walk.session, &walk.zip.here())?;
    walk.zip.edited(untouched);
    Ok(())
}

/// Edits at the place; `value` is what is stored.
pub fn edit_by<L: Ledger>(walk: &mut Walk<'_, '_, L>, edit: Edit, value: &Value) -> Result<(), Halt>
    requires ready { IsReadyWalk walk.old }
    ensures ready { IfOk (split result) (λ _. IsReadyWalk walk.new) }
{
    walk.zip.find(&mut walk.session)?;
    match edit {
        Edit::Store => store(walk, value),
        Edit::Create => create(walk),
        Edit::Remove => remove(walk),
    }
}
