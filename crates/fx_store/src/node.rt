//! Nodes of a filestore, and where a path leads.
ghost use Rattle.std.specs.Prelude.{◌≡◌, IfOk};

use crate::bytes::Bytes;
use crate::link::LinkText;
use crate::names::{NameList, Names};
use crate::path::Path;
use fx_base::NoMemory;
use std::alloc::{AllocError, Global};

/// What stands at a path: a file with its bytes and a flag, a directory with its names, or a link with its text.
#[derive(Debug, Drop)]
pub enum Node {
    /// With its bytes, and whether it is to be run.
    File { bytes: Bytes, exec: bool },
    Dir(Names),
    Link(LinkText),
}

impl Node {
    /// An equal node. It shares a directory's names, and a file's bytes where those are shared.
    pub fn copy(&self, alloc: Global) -> Result<Node, NoMemory>
        ensures { IfOk result (λ n. n ≡ self.now) }
    {
        match self {
            Node::File { bytes, exec } => Ok(Node::File {
                bytes: bytes.copy(alloc)?,
                exec: *exec,
            }),
            Node::Dir(names) => Ok(Node::Dir(names.copy(alloc)?)),
            Node::Link(text) => Ok(Node::Link(text.copy(alloc)?)),
        }
    }
}

impl Clone for Node {
    ghost is_clone = { λ x y. y ≡ x };

    fn clone(&self) -> Result<Node, AllocError> {
        match self {
            Node::File { bytes, exec } => Ok(Node::File {
                bytes: bytes.clone()?,
                exec: *exec,
            }),
            Node::Dir(names) => Ok(Node::Dir(names.clone()?)),
            Node::Link(text) => Ok(Node::Link(text.clone()?)),
        }
    }
}

/// Where a path leads once its links are followed.
#[derive(Debug, Drop)]
pub enum Landing {
    /// A node stands at this path.
    At(Path),
    /// This directory has no entry of the first of these names.
    Absent(Path, NameList),
    /// The way goes on through this path, which is no directory.
    Blocked(Path),
    TooManyLinks,
}
