//! What the commands of the program share: how they end, and the line on standard error that says so, whole texts that
//! they read, descriptions and scripts, read from their texts and checked, whether OUT can be written, and what they
//! save and print; the table of their statuses.
#![tactic(auto)]

mod described;
mod fault;
mod message;
mod print;
mod reading;
mod readying;
mod saving;
mod scripted;
mod source;
mod status;
mod texts;

pub use described::description_of;
pub use fault::SourceFault;
pub use message::Message;
pub use print::print_all;
pub use reading::{SPEC_WORD, read_description};
pub use readying::ready_out;
pub use saving::save_and_print;
pub use scripted::script_of;
pub use source::Source;
pub use status::{Status, TextFault};
pub use texts::read_text;
