//! What a transaction reads through: a reader, its own changes on top, and the count of its evaluations.
ghost use Rattle.std.specs.Prelude.{◌≡◌};
ghost use Rattle.fx_store.specs.Rule as rule;
ghost use Rattle.fx_store.specs.Resolve as resolution;
ghost use Rattle.fx_expr.specs.Eval.{eval_of};
ghost use Rattle.fx_expr.specs.Gives.{Gives};
ghost use Rattle.fx_expr.specs.Shapes.{IsWellShaped};
ghost use Rattle.fx_expr.specs.Views.{expr_tree, tree_of};
ghost use Rattle.fx_session.specs.Implements.{Implements, ticked};

use fx_base::Steps;
use fx_eval::{eval, eval_formula};
use fx_expr::{Env, EvalFault, Expr, Formula, Value};
use fx_store::{Node, Path};
use fx_view::{Landing, Overlay, Reader, Stop, look, resolve};
use std::alloc::Global;
use std::sync::ledger::Ledger;

/// What a transaction reads through. The reader is lent to it; its own changes stand on top of what the reader reads.
#[derive(Drop)]
pub struct Session<'a, R: Reader, L: Ledger> {
    pub alloc: Global,
    pub reader: &'a mut R,
    pub own: Overlay,
    pub steps: Steps<L>,
}

impl<'a, R: Reader, L: Ledger> Session<'a, R, L> {
    /// What stands at a path, with the own changes on top.
    pub fn look(&mut self, path: &Path) -> Result<Option<Node>, Stop>
        ensures { Implements R.meaning (λ n. n) self.old self.new (rule.look path.now) result }
    {
        look(self.alloc, &mut *self.reader, &self.own, path)
    }

    /// Where a path lands; `follow` says whether a last link is followed.
    pub fn resolve(&mut self, path: &Path, follow: bool) -> Result<Landing, Stop>
        ensures { Implements R.meaning (λ l. l) self.old self.new
            (resolution.resolve path.now follow) result }
    {
        resolve(self.alloc, &mut *self.reader, &self.own, path, follow)
    }

    /// The value of a script's expression, or its fault. It counts as one evaluation.
    pub fn evaluate(&mut self, expr: &Expr, env: &Env) -> Result<Value, EvalFault>
        requires { IsWellShaped env.now (expr_tree expr.now) }
        ensures value { Gives tree_of result (eval_of env.now (expr_tree expr.now)) }
        ensures tick { self.new ≡ ticked self.old }
    {
        eval(self.alloc, expr, env, &mut self.steps)
    }

    /// The value of a description's expression, or its fault. It counts as one evaluation.
    pub fn work_out(&mut self, formula: &Formula, env: &Env) -> Result<Value, EvalFault>
        requires { IsWellShaped env.now formula.now }
        ensures value { Gives tree_of result (eval_of env.now formula.now) }
        ensures tick { self.new ≡ ticked self.old }
    {
        eval_formula(self.alloc, formula, env, &mut self.steps)
    }
}
