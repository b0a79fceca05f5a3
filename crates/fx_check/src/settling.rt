//! The values of a description's expressions without names, each evaluated once.
ghost use Rattle.std.specs.Prelude.{◌≡◌, All, IfOk, List};
ghost use Rattle.fx_expr.specs.Closed.{IsShaped};
ghost use Rattle.fx_spec.specs.DefViews.{def_tree};
ghost use Rattle.fx_spec.specs.Views.{spec_tree};
ghost use Rattle.fx_spec.specs.Written.{DefTree};
ghost use Rattle.fx_spec.specs.WellShaped.{IsWritten, Scope};
ghost use Rattle.fx_check.specs.Fitting.{IsFitting};

use fx_base::NoMemory;
use fx_eval::settled_formula;
use fx_spec::{Def, Defs, Exprs, Spec};
use std::alloc::Global;

/// An equal description, in which the value of each expression without names stands beside it.
#[cycle(settled)]
pub(crate) fn settled(alloc: Global, spec: Spec) -> Result<Spec, NoMemory>
    requires { (defs : List DefTree) × (scope : Scope) × IsWritten defs scope (spec_tree spec) }
    ensures { IfOk result (λ settled. spec_tree settled ≡ spec_tree spec) }
{
    match spec {
        Spec::File => Ok(Spec::File),
        Spec::Dir => Ok(Spec::Dir),
        Spec::Link => Ok(Spec::Link),
        Spec::Focus(text, part) => {
            let text = settled_formula(alloc, text)?;
            Ok(Spec::Focus(text, settled_part(alloc, part)?))
        }
        Spec::Pair(word, first, second) => {
            let first = settled_part(alloc, first)?;
            Ok(Spec::Pair(word, first, settled_part(alloc, second)?))
        }
        Spec::Comp(part, word, set) => {
            let set = settled_formula(alloc, set)?;
            Ok(Spec::Comp(settled_part(alloc, part)?, word, set))
        }
        Spec::Opt(part) => Ok(Spec::Opt(settled_part(alloc, part)?)),
        Spec::Pred(test) => Ok(Spec::Pred(settled_formula(alloc, test)?)),
        Spec::Call(name, args) => Ok(Spec::Call(name, settled_args(alloc, args)?)),
    }
}

#[cycle(settled)]
fn settled_part(alloc: Global, part: Box<Spec>) -> Result<Box<Spec>, NoMemory>
    requires { (defs : List DefTree) × (scope : Scope)
        × IsWritten defs scope (spec_tree part.value) }
    ensures { IfOk result (λ settled. spec_tree settled.value ≡ spec_tree part.value) }
{
    let part = settled(alloc, Box::into_inner(part))?;
    Ok(Box::new(alloc, part)?)
}

/// Equal arguments, each of them settled.
fn settled_args(alloc: Global, args: Exprs) -> Result<Exprs, NoMemory>
    requires { All IsShaped args }
    ensures { IfOk result (λ settled. settled ≡ args) }
{
    let mut settled = Exprs::new(alloc);
    for formula in args.into_vec() {
        settled.add(alloc, settled_formula(alloc, formula)?)?;
    }
    Ok(settled)
}

fn settled_def(alloc: Global, def: Def) -> Result<Def, NoMemory>
    requires { IsFitting (def_tree def) }
    ensures { IfOk result (λ settled. def_tree settled ≡ def_tree def) }
{
    let Def { name, params, body } = def;
    let body = settled(alloc, body)?;
    Ok(Def { name, params, body })
}

/// Equal definitions, each with its body settled.
pub(crate) fn settled_defs(alloc: Global, defs: Defs) -> Result<Defs, NoMemory>
    requires { All IsFitting defs }
    ensures { IfOk result (λ settled. settled ≡ defs) }
{
    let mut settled = Defs::new(alloc);
    for def in defs.into_vec() {
        let def = settled_def(alloc, def)?;
        settled.add(alloc, def)?;
    }
    Ok(settled)
}
