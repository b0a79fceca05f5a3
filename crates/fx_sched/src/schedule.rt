use fx_board::{Board, Events, Retries};

/// A whole run: its log, the attempts that had to start again, by shell, and its events in order. Contracts speak of it; a taker
/// keeps of the events what it needs.
#[derive(Drop)]
pub struct Traced {
    pub board: Board,
    pub retries: Retries,
    pub events: Events,
}
