ghost use Rattle.std.specs.Prelude.{◌≡◌};
ghost use Rattle.std.specs.Option.{option_map};
ghost use Rattle.fx_expr.specs.Closed.{IsKept};
ghost use Rattle.fx_expr.specs.Views.{expr_tree, tree_of};

use crate::expr::Expr;
use crate::value::Value;
use std::marker::Model;

/// An expression that is evaluated often, as a description's. Where no name stands in it, its value may be kept beside
/// it. Contracts see the expression's tree.
#[derive(Debug)]
pub struct Formula {
    expr: Expr,
    value: Option<Value>,
}

/// It is written out, so that its parts are dropped in this crate alone.
impl Drop for Formula {
    fn drop(self) {
        let Formula {
            expr: _expr,
            value: _value,
        } = self;
    }
}

impl Model for Formula {
    ghost use Rattle.std.specs.Option.{option_map};
    ghost use Rattle.fx_expr.specs.Closed.{IsKept};
    ghost use Rattle.fx_expr.specs.Codes.{coded_expr};
    ghost use Rattle.fx_expr.specs.ExprTree.{ExprTree};
    ghost use Rattle.fx_expr.specs.Views.{expr_tree, tree_of};

    ghost Value = { ExprTree };

    ghost coded = { coded_expr };

    ghost view = { λ f. expr_tree f.expr };

    ghost invariant = { λ f. IsKept (expr_tree f.expr) (option_map tree_of f.value) };
}

impl Formula {
    /// The expression, with no value beside it yet.
    pub fn of(expr: Expr) -> Formula
        ensures { result ≡ expr_tree expr }
    {
        Formula { expr, value: None }
    }

    /// The expression itself, for what checks it.
    pub fn expr(&self) -> &Expr
        ensures { expr_tree result.now ≡ self.now }
    {
        &self.expr
    }

    /// The value that is kept beside the expression; it is the expression's, whatever is bound around it.
    pub fn kept_value(&self) -> Option<&Value>
        ensures { IsKept self.now (option_map (λ value. tree_of value.now) result) }
    {
        match &self.value {
            Some(value) => Some(value),
            None => None,
        }
    }

    /// The same expression with this value kept beside it, or with none.
    pub fn with_value(self, value: Option<Value>) -> Formula
        requires { IsKept self (option_map tree_of value) }
        ensures { result ≡ self }
    {
        let Formula { expr, value: _ } = self;
        Formula { expr, value }
    }
}
