//! Laws of the definitions: of names and paths, of the trees that hosts show, of the words, of filestores, of folders
//! that are loaded and saved again, of edits, of stores, of moves and values, of two transactions and of orders, of the
//! tokens of trees, of what a printed report spells, and worked examples that the checker computes. Each law stands on
//! a function that does nothing, so that it is proved with the crate.
#![tactic(auto)]

pub mod edits;
pub mod filestores;
pub mod folders;
pub mod hosts;
pub mod limits;
pub mod moves;
pub mod names;
pub mod orders;
pub mod pairs;
pub mod paths;
pub mod reports;
pub mod retries;
pub mod scripts;
pub mod stores;
pub mod tokens;
pub mod tries;
pub mod values;
pub mod vectors;
pub mod words;
