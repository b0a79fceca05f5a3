use fx_expr::Values;
use fx_spec::End;
use fx_store::Changes;
use fx_view::Reads;

/// A transaction that was run against a log and is not settled yet: whose it is, by numbers from 0, what it read, what it
/// changes, what it printed, and how it ended.
#[derive(Drop)]
pub struct Attempt {
    pub shell: u32,
    pub txn: u32,
    pub reads: Reads,
    pub changes: Changes,
    pub outputs: Values,
    pub end: End,
}
