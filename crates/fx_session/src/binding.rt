//! Names that are bound to values.
ghost use Rattle.std.specs.Prelude.{◌≡◌, OnOk, OnErr};
ghost use Rattle.fx_expr.specs.Bindings.{bind};
ghost use Rattle.fx_expr.specs.Views.{tree_of};

use fx_base::NoMemory;
use fx_expr::{Env, Value, Word};
use std::alloc::Global;

/// Binds a name to a value. A refusal changes nothing.
pub fn bind_value(alloc: Global, env: &mut Env, name: &Word, value: Value) -> Result<(), NoMemory>
    ensures bound { OnOk result (env.new ≡ bind env.old name.now (tree_of value)) }
    ensures refused { OnErr result (env.new ≡ env.old) }
{
    match name.copy(alloc) {
        Ok(word) => env.add(alloc, (word, value)),
        Err(NoMemory) => {
            let_go(value);
            Err(NoMemory)
        }
    }
}

fn let_go(_: Value) {}
