use fx_expr::Values;
use fx_spec::End;
use fx_store::Paths;

/// A settled transaction: whose it is, by numbers from 0, the paths that it changed, what it printed, and how it ended.
#[derive(Drop)]
pub struct Entry {
    pub shell: u32,
    pub txn: u32,
    pub changed: Paths,
    pub outputs: Values,
    pub end: End,
}

/// A transaction of a plan, by the number of its shell and its number in that shell's script.
#[derive(Debug, Clone, Copy, Drop)]
pub struct Pair {
    pub shell: u32,
    pub txn: u32,
}
