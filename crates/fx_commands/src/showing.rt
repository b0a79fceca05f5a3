//! The command `show`: the value of a folder by a description.

mod command;
mod values;

pub use command::show;
pub use values::shown;
