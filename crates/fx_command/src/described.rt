//! The description that a text stands for.
ghost use Rattle.std.specs.Prelude.{◌≡◌, IfOk, IfErr};
ghost use Rattle.fx_spec.specs.SpecTree.{SpecTree};
ghost use Rattle.fx_command.specs.Described.{Describes, IsUndescribed};

use crate::fault::SourceFault;
use fx_check::check;
use fx_source_parse::spec::parse;
use fx_spec::Checked;
use std::alloc::Global;

/// The description that a text stands for, once its names and shapes are checked; else the first cause for which the text
/// is refused: its length, its tokens, its form, its names and shapes.
pub fn description_of(alloc: Global, text: &[u8]) -> Result<Checked, SourceFault>
    ensures read { IfOk result (λ spec. Describes text.now spec) }
    ensures only { IfOk result (λ spec. (other : SpecTree)
        → Describes text.now other → other ≡ spec) }
    ensures refused { IfErr result (IsUndescribed text.now) }
{
    let description = parse(alloc, text)?;
    let checked = check(alloc, description)?;
    Ok(checked)
}
