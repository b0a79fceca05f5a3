//! The names that the body of a call sees.
ghost use Rattle.std.specs.Prelude.{◌≡◌, ◌≤◌, ℕ};
ghost use Rattle.fx_spec.specs.Describe.{argument_evals};
ghost use Rattle.fx_session.specs.Implements.{ticked_by};
ghost use Rattle.fx_session.specs.Arguments.{HaveShapes, inner_names, GivesNames, UnlessRefused};

use crate::binding::bind_value;
use crate::session::Session;
use fx_expr::{Env, EvalFault};
use fx_spec::{Exprs, Params};
use fx_view::Reader;
use std::sync::ledger::Ledger;

/// The parameters of a call with the values of its arguments, or the first argument's fault. Each argument counts as one
/// step, up to the first that faults.
pub fn inner_env<R: Reader, L: Ledger>(
    session: &mut Session<'_, R, L>,
    env: &Env,
    params: &Params,
    args: &Exprs,
) -> Result<Env, EvalFault>
    requires { HaveShapes env.now params.now args.now }
    ensures names { GivesNames result (inner_names env.now params.now args.now) }
    ensures steps { UnlessRefused result
        (session.new ≡ ticked_by (argument_evals env.now args.now) session.old) }
    ensures most { (n : ℕ) × (n ≤ argument_evals env.now args.now)
        × (session.new ≡ ticked_by n session.old) }
{
    let mut inner = Env::new(session.alloc);
    let mut left = params.iter();
    for arg in args.iter() {
        let Some(param) = left.next() else {
            unreachable!()
        };
        let value = session.work_out(arg, env)?;
        bind_value(session.alloc, &mut inner, &param.0, value)?;
    }
    Ok(inner)
}
