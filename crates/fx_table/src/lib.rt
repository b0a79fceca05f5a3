//! The table in which a folder keeps its links and which of its files are executable, as a text, and what it stands for
//! among files and directories.
#![tactic(auto)]

mod descent;
mod fault;
mod ground;
pub mod laws;
mod line;
mod lines;
mod linked;
mod links;
mod listing;
mod merging;
mod parent;
mod spelling;
mod table;

pub use descent::{Descent, Entry};
pub use fault::{FolderCause, LoadFault};
pub use line::{Mark, TableLine};
pub use lines::{Ground, Room, read_lines, table_place};
pub use linked::read_table;
pub use links::{TableText, write_table};
pub use listing::list_names;
pub use merging::merged;
pub use parent::Parent;
