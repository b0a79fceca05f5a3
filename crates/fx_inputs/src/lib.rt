//! What a run reads of a host: the text of the description, that of the views where there are any, those of the scripts,
//! and the folder.
#![tactic(auto)]

mod ahead;
mod reading;
mod scripts;
mod sources;
mod views;

pub use reading::read_base;
pub use views::{Bases, VIEWS_WORD, read_bases};
