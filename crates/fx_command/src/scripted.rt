//! The script that a text stands for.
ghost use Rattle.std.specs.Prelude.{◌≡◌, ◌≤◌, List, IfOk, IfErr};
ghost use Rattle.fx_base.specs.Limits.{txn_limit};
ghost use Rattle.fx_spec.specs.CommandTree.{CommandTree};
ghost use Rattle.fx_spec.specs.WellShaped.{IsScript};
ghost use Rattle.fx_command.specs.Scripted.{Scripts, IsUnscripted};

use crate::fault::SourceFault;
use fx_check::check_script;
use fx_source_parse::script::parse;
use fx_spec::Script;
use std::alloc::Global;

/// The script that a text stands for, after so many transactions, once its names and shapes are checked; else the first
/// cause for which the text is refused: its length, its tokens, its form, the number of transactions, its names and shapes.
pub fn script_of(alloc: Global, text: &[u8], before: u32) -> Result<Script, SourceFault>
    requires { before ≤ txn_limit }
    ensures read { IfOk result (λ script. Scripts text.now before script) }
    ensures only { IfOk result (λ script. (others : List (List CommandTree))
        → Scripts text.now before others → others ≡ script) }
    ensures shaped { IfOk result IsScript }
    ensures refused { IfErr result (IsUnscripted text.now before) }
{
    let txns = parse(alloc, text)?;
    let script = check_script(alloc, txns, before)?;
    Ok(script)
}
