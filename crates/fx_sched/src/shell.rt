//! A shell between two of its steps.

use fx_expr::Values;
use fx_machine::Retries;
use fx_spec::End;
use fx_store::Changes;
use fx_view::Reads;

/// What a shell's transaction comes to by its plan: it was run ahead, over the shell's looks and the filestore after so many
/// entries.
#[derive(Drop)]
pub struct Plan {
    pub made: u64,
    pub changes: Changes,
    pub outputs: Values,
    pub end: End,
}

/// A shell: the number of its next transaction, what was read for it, and its attempts that had to start again. The first reads, so many, are looks; those after
/// them are read by the plan.
#[derive(Drop)]
pub struct Shell {
    pub next: u32,
    pub looked: u64,
    pub reads: Reads,
    pub plan: Option<Plan>,
    pub retries: Retries,
}
