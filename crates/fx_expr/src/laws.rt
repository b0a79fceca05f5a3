//! A law of evaluation. It stands on a function that does nothing, so that it is proved with the crate.
ghost use Rattle.std.specs.Prelude.{List, ℕ, IfOk};
ghost use Rattle.fx_expr.specs.Eval.{eval_of};
ghost use Rattle.fx_expr.specs.ExprTree.{ExprTree};
ghost use Rattle.fx_expr.specs.ShapeTree.{ShapeTree};
ghost use Rattle.fx_expr.specs.Shapes.{BindingsHave, HasShape, ValueHas};
ghost use Rattle.fx_expr.specs.Tree.{Tree};

/// A value of an expression has the expression's shape, wherever the bound words have theirs: so evaluation never meets
/// a value of another shape.
pub fn a_value_has_its_expressions_shape()
    ensures { (g : List (List ℕ × ShapeTree)) (env : List (List ℕ × Tree)) (e : ExprTree)
        (s : ShapeTree) → BindingsHave env g → HasShape g e s
        → IfOk (eval_of env e) (λ v. ValueHas v s) }
{}
