//! Filestores: paths, and the files, directories and links that stand at them.
#![tactic(auto)]

mod bytes;
mod changes;
mod filestore;
pub mod laws;
pub mod limits;
mod link;
mod name;
mod names;
mod node;
mod order;
mod parts;
mod path;
mod paths;
pub mod spelling;

pub use bytes::{Bytes, LongText};
pub use changes::{Change, Changes};
pub use filestore::Filestore;
pub use link::LinkText;
pub use name::{Name, PathFault};
pub use names::{NameList, Names};
pub use node::{Landing, Node};
pub use parts::{after_slash, is_slash};
pub use path::{Path, PathIter};
pub use paths::Paths;
