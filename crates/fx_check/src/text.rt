//! The check of a text: its definitions in their order, then its root.
ghost use Rattle.std.specs.Prelude.{◌≡◌, ◌≤◌, [], is_some, take};
ghost use Rattle.fx_expr.specs.Views.{shape_tree};
ghost use Rattle.fx_spec.specs.DefViews.{def_tree};
ghost use Rattle.fx_spec.specs.Levels.{text_levels};
ghost use Rattle.fx_spec.specs.TextViews.{written};
ghost use Rattle.fx_spec.specs.Written.{definition};
ghost use Rattle.fx_check.specs.Checked.{checked_def, checked_defs, checked_text, with_params};
ghost use Rattle.fx_check.specs.Gives.{Gives, IsAnswer};

use crate::fault::CheckFault;
use crate::scope::{Scope, let_go};
use crate::settling::{settled, settled_defs};
use crate::spec::value_shape;
use fx_expr::{Shape, Word};
use fx_spec::{Checked, Def, Defs, Description, Params};
use std::alloc::Global;

/// The names of the parameters, each bound to its shape.
fn bind_params(alloc: Global, scope: &mut Scope, params: &Params) -> Result<(), CheckFault>
    ensures { Gives (λ _. scope.new) result (with_params scope.old params.now) }
{
    for param in params.iter() {
        let shape = param.1.copy(alloc)?;
        scope.bind(alloc, &param.0, shape)?;
    }
    Ok(())
}

/// Whether one of the first so many definitions has the name.
fn is_defined(defs: &Defs, count: u64, name: &Word) -> bool
    ensures { result ≡ is_some (definition name.now (take count defs.now)) }
{
    match defs.place(name) {
        Some(place) => place < count,
        None => false,
    }
}

/// A definition with so many before it.
fn check_def(alloc: Global, defs: &Defs, before: u64, def: &Def) -> Result<Shape, CheckFault>
    ensures { Gives shape_tree result
        (checked_def defs.now (take before defs.now) (def_tree def.now)) }
{
    if is_defined(defs, before, &def.name) {
        return Err(CheckFault::Repeated(def.name.copy(alloc)?));
    }
    let mut scope = Scope::new(alloc);
    bind_params(alloc, &mut scope, &def.params)?;
    value_shape(alloc, defs, &mut scope, &def.body)
}

/// The definitions in their order.
fn check_defs(alloc: Global, defs: &Defs) -> Result<(), CheckFault>
    ensures { Gives (λ _. defs.now) result (checked_defs defs.now [] defs.now) }
{
    for (before, def) in defs.iter().enumerate() {
        let_go(Some(check_def(alloc, defs, before as u64, def)?));
    }
    Ok(())
}

/// The shape of a text's root, or the text's first fault.
fn text_shape(alloc: Global, text: &Description) -> Result<Shape, CheckFault>
    ensures { Gives shape_tree result (checked_text (written text.now)) }
{
    check_defs(alloc, &text.defs)?;
    let mut scope = Scope::new(alloc);
    value_shape(alloc, &text.defs, &mut scope, &text.root)
}

/// A text that is well shaped, or its first fault: the definitions are checked in the order of the text, then the root.
pub fn check(alloc: Global, description: Description) -> Result<Checked, CheckFault>
    requires { text_levels (written description) ≤ 64 }
    ensures { IsAnswer (written description) result }
{
    match text_shape(alloc, &description) {
        Ok(shape) => {
            let_go(Some(shape));
            let Description { defs, root } = description;
            let defs = settled_defs(alloc, defs)?;
            let root = settled(alloc, root)?;
            let checked = Checked::of(alloc, Description { defs, root })?;
            Ok(checked)
        }
        Err(fault) => {
            let_go_text(description);
            Err(fault)
        }
    }
}

fn let_go_text(_: Description) {}
