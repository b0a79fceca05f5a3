//! Folders of a host as filestores, and filestores as folders.
#![tactic(auto)]

mod building;
mod fault;
mod joining;
pub mod laws;
pub mod limits;
mod loading;
mod pieces;
mod readying;
mod saving;
mod walking;

pub use fault::SaveFault;
pub use fx_table::{FolderCause, LoadFault, read_table, write_table};
pub use loading::load;
pub use pieces::{buffer, read_whole};
pub use readying::{Out, ready};
pub use saving::{make_folder, save, write_file};
