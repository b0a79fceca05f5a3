//! Questions at the place, as commands.
ghost use Rattle.fx_spec.specs.Transaction.{run};
ghost use Rattle.fx_run.specs.Asking.{ask_command};
ghost use Rattle.fx_run.specs.Scopes.{Scopes};
ghost use Rattle.fx_run.specs.Works.{IsSound, Obeys, root_of, standing_of};

use crate::leave::{Leave, or_stop};
use crate::work::Work;
use fx_expr::Word;
use fx_session::bind_value;
use fx_view::Reader;
use fx_zip::Question;
use std::sync::ledger::Ledger;

/// `fetch x : SHAPE`, `value x : SHAPE` or `validate x`: binds the answer to `x`.
pub(crate) fn ask<R: Reader, L: Ledger>(
    work: &mut Work<'_, R, L>,
    number: u32,
    word: &Word,
    question: &Question<'_>,
) -> Result<(), Leave>
    requires sound { IsSound R.meaning work.old.walk }
    ensures obeys { Obeys R.meaning
        (run (root_of work.old) number (ask_command word.now question.now) (standing_of work.old))
        work.old work.new result }
    ensures scope { Scopes (ask_command word.now question.now)
        work.old.variables work.new.variables result }
{
    let walk = &mut work.walk;
    let value = or_stop(number, walk.zip.ask(&mut walk.session, question))?;
    Ok(bind_value(work.walk.session.alloc, &mut work.variables, word, value)?)
}
