use fx_base::Listed;
use fx_store::Path;

/// One step of a shell: a look at a path, or the settling of its attempt.
#[derive(Debug, Drop)]
pub enum Event {
    /// The path was looked at when the log had so many entries.
    Look {
        shell: u32,
        path: Path,
        position: u64,
    },
    /// The attempt is this entry of the log now.
    Settled {
        shell: u32,
        entry: u64,
    },
    /// This entry of the log changed the path after the attempt had looked at it, and the attempt starts again.
    Conflict {
        shell: u32,
        entry: u64,
        path: Path,
    },
}

/// Events, in their order.
pub type Events = Listed<Event>;
