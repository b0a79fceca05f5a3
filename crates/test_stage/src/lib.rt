//! The stage on which a case plays, a host, sinks and a disk in memory; statuses that are made of parts; and the program that is tried
//! there, once, with each call of the host or the disk failing in turn, with sinks of less room and of more, and by all schedules of
//! six steps.
#![tactic(auto)]

mod changes;
mod disks;
mod messages;
mod program;
mod runs;
mod schedules;
mod series;
mod stage;
mod statuses;
mod stops;

pub use disks::tell_disk;
pub use messages::tell_message;
pub use program::{OUT, Program, run_quietly};
pub use runs::tell_top;
pub use schedules::{tell_each, tell_schedules, tell_without};
pub use series::{tell_changes, tell_faults, tell_rooms};
pub use stage::Stage;
pub use stops::tell_stops;
