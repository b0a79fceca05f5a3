use fx_base::Listed;
use fx_store::Path;

/// An attempt that had to start again: whose it was, the number of the entry that stood in its way, and a path that it
/// had looked at and that this entry changed.
#[derive(Debug, Drop)]
pub struct Retry {
    pub shell: u32,
    pub txn: u32,
    pub entry: u64,
    pub path: Path,
}

/// Retries, in the order in which they are reported.
pub type Retries = Listed<Retry>;

/// Lets go of retries.
pub fn let_go(_: Retries) {}
