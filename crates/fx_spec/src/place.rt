ghost use Rattle.std.specs.Prelude.{◌≡◌};
ghost use Rattle.fx_spec.specs.Parts.{part_of, place_part};

use crate::description::Defs;
use crate::part::Part;
use crate::spec::Spec;
use fx_expr::Env;
use fx_store::Path;

/// A place in a described filestore: the description that is meant at a path, with the names that it sees, inside so many
/// calls of the definitions.
#[derive(Clone, Copy)]
pub struct Place<'a> {
    pub path: &'a Path,
    pub env: &'a Env,
    pub spec: &'a Spec,
    pub defs: &'a Defs,
    /// The number of calls that it is inside, as in [`Part`].
    pub level: u32,
}

impl<'a> Place<'a> {
    /// The description with its definitions.
    pub fn part(&self) -> Part<'a>
        ensures { part_of result ≡ place_part self.now }
    {
        Part {
            spec: self.spec,
            defs: self.defs,
            level: self.level,
        }
    }
}
