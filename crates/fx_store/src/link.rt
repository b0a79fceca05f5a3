//! The text of a link.
ghost use Rattle.std.specs.Prelude.{◌≡◌, length, nat_lt, IfOk};
ghost use Rattle.fx_store.specs.Names.{IsLinkText, has_link_form, components};

use crate::limits::{MAX_LINK_BYTES, MAX_LINK_COMPONENTS};
use crate::name::PathFault;
use crate::parts::{after_slash, are_components, has_more_parts};
use fx_base::NoMemory;
use std::alloc::{AllocError, Global};
use std::marker::Model;

/// Where a link leads: `/`, or components with one `/` between each two and an optional leading `/`, in 1 to 4,096
/// bytes. A component is a name, `.` or `..`, and there are at most 64.
#[derive(Debug)]
pub struct LinkText {
    bytes: Vec<u8>,
}

/// It is written out, so that its parts are dropped in this crate alone.
impl Drop for LinkText {
    fn drop(self) {
        let LinkText { bytes: _bytes } = self;
    }
}

impl Model for LinkText {
    ghost use Rattle.std.specs.Prelude.{List, ℕ};
    ghost use Rattle.fx_store.specs.Names.{IsLinkText};

    ghost Value = { List ℕ };

    ghost view = { λ l. l.bytes.items };

    ghost invariant = { λ l. IsLinkText l.bytes.items };
}

impl LinkText {
    ghost use Rattle.fx_store.specs.Faults.{Answers, read_link};

    /// Reads a link text. It is `BadName` where the bytes have not its form, for any number of components, or are
    /// more than 4,096, and else `TooDeep` where it has more than 64 components.
    pub fn read(alloc: Global, text: &[u8]) -> Result<LinkText, PathFault>
        ensures { Answers result (read_link text.now) }
    {
        if !has_link_form(text) {
            return Err(PathFault::BadName);
        }
        if has_many_components(text) {
            return Err(PathFault::TooDeep);
        }
        Ok(LinkText {
            bytes: Vec::from_slice(alloc, text)?,
        })
    }

    /// The text, as a slice of its bytes.
    pub fn as_slice(&self) -> &[u8]
        ensures bytes { result.now ≡ self.now }
        ensures link { IsLinkText self.now }
    {
        self.bytes.as_slice()
    }

    /// An equal link text of its own.
    pub fn copy(&self, alloc: Global) -> Result<LinkText, NoMemory>
        ensures copied { IfOk result (λ l. l ≡ self.now) }
        ensures link { IsLinkText self.now }
    {
        Ok(LinkText {
            bytes: Vec::from_slice(alloc, &self.bytes)?,
        })
    }
}

fn has_link_form(text: &[u8]) -> bool
    ensures { result ≡ has_link_form text.now }
{
    if text.is_empty() {
        return false;
    }
    if text.len() > MAX_LINK_BYTES {
        return false;
    }
    let steps = after_slash(text);
    if steps.is_empty() {
        return true;
    }
    are_components(steps)
}

fn has_many_components(text: &[u8]) -> bool
    ensures { result ≡ nat_lt MAX_LINK_COMPONENTS (length (components text.now)) }
{
    let steps = after_slash(text);
    if steps.is_empty() {
        return false;
    }
    has_more_parts(steps, MAX_LINK_COMPONENTS)
}

impl Clone for LinkText {
    ghost is_clone = { λ x y. y ≡ x };

    fn clone(&self) -> Result<LinkText, AllocError> {
        Ok(LinkText {
            bytes: self.bytes.clone()?,
        })
    }
}
