//! Whether two nodes are the same.
ghost use Rattle.std.specs.Prelude.{◌≡◌, ◌↔◌, IsTrue};
ghost use Rattle.fx_store.specs.declared.node.Node.TheVariants.{File, Dir, Link};

use fx_store::{Bytes, LinkText, Names, Node};

/// Whether the same stands at two places, a node or none.
pub(crate) fn is_same(a: &Option<Node>, b: &Option<Node>) -> bool
    ensures { IsTrue result ↔ (a.now ≡ b.now) }
{
    match a {
        None => b.is_none(),
        Some(a) => match b {
            None => false,
            Some(b) => is_same_node(a, b),
        },
    }
}

fn is_same_node(a: &Node, b: &Node) -> bool
    ensures { IsTrue result ↔ (a.now ≡ b.now) }
{
    match a {
        Node::File { bytes, exec } => is_file(b, bytes, *exec),
        Node::Dir(names) => is_dir(b, names),
        Node::Link(text) => is_link(b, text),
    }
}

fn is_file(node: &Node, bytes: &Bytes, exec: bool) -> bool
    ensures { IsTrue result ↔ (File bytes.now exec ≡ node.now) }
{
    match node {
        Node::File {
            bytes: other,
            exec: flag,
        } => {
            if exec == *flag {
                bytes.as_slice() == other.as_slice()
            } else {
                false
            }
        }
        Node::Dir(_) => false,
        Node::Link(_) => false,
    }
}

fn is_dir(node: &Node, names: &Names) -> bool
    ensures { IsTrue result ↔ (Dir names.now ≡ node.now) }
{
    match node {
        Node::File { .. } => false,
        Node::Dir(other) => are_same_names(names, other),
        Node::Link(_) => false,
    }
}

fn is_link(node: &Node, text: &LinkText) -> bool
    ensures { IsTrue result ↔ (Link text.now ≡ node.now) }
{
    match node {
        Node::File { .. } => false,
        Node::Dir(_) => false,
        Node::Link(other) => text.as_slice() == other.as_slice(),
    }
}

fn are_same_names(a: &Names, b: &Names) -> bool
    ensures { IsTrue result ↔ (a.now ≡ b.now) }
{
    if a.len() != b.len() {
        return false;
    }
    let mut others = b.iter();
    for name in a.iter() {
        let Some(other) = others.next() else {
            return false;
        };
        if name != other {
            return false;
        }
    }
    others.next().is_none()
}
