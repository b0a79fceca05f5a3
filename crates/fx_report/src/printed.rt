use fx_base::Listed;
use fx_expr::Values;
use fx_spec::End;

/// A transaction as the report tells it: whose it was, by numbers from 0, what it printed, and how it ended.
#[derive(Drop)]
pub struct PrintedEntry {
    pub shell: u32,
    pub txn: u32,
    pub outputs: Values,
    pub end: End,
}

/// A transaction that only looked: after how many entries of the run, what it printed, and how it ended.
#[derive(Drop)]
pub struct View {
    pub position: u64,
    pub outputs: Values,
    pub end: End,
}

/// Views, in the order in which they looked.
pub type Viewed = Listed<View>;

/// The entries of a run, in their order.
pub type PrintedEntries = Listed<PrintedEntry>;
