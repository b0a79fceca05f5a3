//! Bytes that their copies may share: what a file holds, and what a text is.
ghost use Rattle.std.specs.Prelude.{◌≡◌, ◌≤◌, [], length, IfOk};
ghost use Rattle.std.specs.Vec.{vec_capacity};
ghost use Rattle.fx_base.specs.Contents.{held_bytes, taken_bytes, HasRoom, AreBytes};

use crate::{NoMemory, ShortText};
use std::alloc::{AllocError, Global};
use std::marker::Model;
use std::sync::Arc;

/// Bytes in their order, which contracts see as the list of them. A few lie in the value itself. From `share` on a copy shares
/// many and goes through none of them; it takes room for as many beside them, so that `take` never needs memory.
#[derive(Debug)]
pub struct Content {
    held: Held,
}

/// It is written out, so that its parts are dropped in this crate alone.
impl Drop for Content {
    fn drop(self) {
        let Content { held: _held } = self;
    }
}

/// A few bytes, bytes by themselves, or bytes that others may hold too, with room for a copy of them.
#[derive(Debug, Drop)]
enum Held {
    Few(ShortText),
    Own(Vec<u8>),
    Shared(Arc<Vec<u8>>, Vec<u8>),
}

/// The bytes of a content that is given up.
#[derive(Debug, Drop)]
pub enum Taken {
    /// So few that they lie in the value itself.
    Few(ShortText),
    Many(Vec<u8>),
}

/// The fewest bytes that are shared; fewer are copied as fast.
const FEWEST_SHARED: usize = 1024;

impl Model for Content {
    ghost use Rattle.std.specs.Prelude.{ℕ, List};
    ghost use Rattle.fx_base.specs.Contents.{held_bytes, HasRoom, AreBytes};

    ghost Value = { List ℕ };

    ghost view = { λ c. held_bytes c.held };

    ghost invariant = { λ c. AreBytes (held_bytes c.held) × HasRoom c.held };
}

impl Content {
    /// No bytes.
    pub fn new(alloc: Global) -> Content
        ensures { result ≡ [] }
    {
        Content::of(Vec::new(alloc))
    }

    /// These bytes, which are copied with each copy until they are shared.
    pub fn of(bytes: Vec<u8>) -> Content
        ensures { result ≡ bytes.items }
    {
        match ShortText::of(bytes.as_slice()) {
            Some(few) => Content {
                held: Held::Few(few),
            },
            None => Content {
                held: Held::Own(bytes),
            },
        }
    }

    /// A copy of these bytes.
    pub fn from_slice(alloc: Global, bytes: &[u8]) -> Result<Content, NoMemory>
        ensures { IfOk result (λ content. content ≡ bytes.now) }
    {
        match ShortText::of(bytes) {
            Some(few) => Ok(Content {
                held: Held::Few(few),
            }),
            None => Ok(Content {
                held: Held::Own(Vec::from_slice(alloc, bytes)?),
            }),
        }
    }

    /// The same bytes, which copies share from now on. Fewer than 1,024 are not shared, since they are copied as fast.
    pub fn share(self, alloc: Global) -> Result<Content, NoMemory>
        ensures { IfOk result (λ content. content ≡ self) }
    {
        let Content { held } = self;
        Ok(Content {
            held: shared(alloc, held)?,
        })
    }

    /// The number of bytes.
    pub fn len(&self) -> usize
        ensures { result ≡ length self.now }
    {
        self.as_slice().len()
    }

    /// The bytes, as a slice.
    pub fn as_slice(&self) -> &[u8]
        ensures value { result.now ≡ self.now }
        ensures bytes { AreBytes self.now }
    {
        match &self.held {
            Held::Few(bytes) => bytes.as_slice(),
            Held::Own(bytes) => bytes.as_slice(),
            Held::Shared(bytes, _) => bytes.as_slice(),
        }
    }

    /// The bytes by themselves. Many are copied only where another content shares them.
    pub fn take(self) -> Taken
        ensures { taken_bytes result ≡ self }
    {
        let Content { held } = self;
        match held {
            Held::Few(bytes) => Taken::Few(bytes),
            Held::Own(bytes) => Taken::Many(bytes),
            Held::Shared(bytes, spare) => Taken::Many(taken_out(bytes, spare)),
        }
    }

    /// The same bytes once more: shared, where these are shared, and else copied.
    pub fn copy(&self, alloc: Global) -> Result<Content, NoMemory>
        ensures { IfOk result (λ content. content ≡ self.now) }
    {
        Ok(Content {
            held: copied(alloc, &self.held)?,
        })
    }
}

fn shared(alloc: Global, held: Held) -> Result<Held, NoMemory>
    requires { HasRoom held }
    ensures bytes { IfOk result (λ other. held_bytes other ≡ held_bytes held) }
    ensures room { IfOk result HasRoom }
{
    match held {
        Held::Few(bytes) => Ok(Held::Few(bytes)),
        Held::Own(bytes) => {
            if bytes.len() < FEWEST_SHARED {
                return Ok(Held::Own(bytes));
            }
            let spare = Vec::with_capacity(alloc, bytes.len())?;
            Ok(Held::Shared(Arc::new(alloc, bytes)?, spare))
        }
        Held::Shared(bytes, spare) => Ok(Held::Shared(bytes, spare)),
    }
}

fn copied(alloc: Global, held: &Held) -> Result<Held, NoMemory>
    requires { HasRoom held.now }
    ensures bytes { IfOk result (λ other. held_bytes other ≡ held_bytes held.now) }
    ensures room { IfOk result HasRoom }
{
    match held {
        Held::Few(bytes) => Ok(Held::Few(bytes.copy())),
        Held::Own(bytes) => Ok(Held::Own(Vec::from_slice(alloc, bytes.as_slice())?)),
        Held::Shared(bytes, _) => {
            let spare = Vec::with_capacity(alloc, bytes.len())?;
            Ok(Held::Shared(bytes.clone()?, spare))
        }
    }
}

// The bytes themselves, where nobody else holds them, and else a copy in the spare room.
fn taken_out(bytes: Arc<Vec<u8>>, spare: Vec<u8>) -> Vec<u8>
    requires empty { spare.items ≡ [] }
    requires room { length bytes.value.items ≤ vec_capacity spare }
    ensures { result.items ≡ bytes.value.items }
{
    match Arc::try_unwrap(bytes) {
        Ok(bytes) => bytes,
        Err(shared) => {
            let mut copy = spare;
            match copy.extend_from_slice(shared.as_slice()) {
                Ok(()) => copy,
                Err(_) => unreachable!(),
            }
        }
    }
}

impl Clone for Content {
    ghost is_clone = { λ x y. y ≡ x };

    fn clone(&self) -> Result<Content, AllocError> {
        match &self.held {
            Held::Few(bytes) => Ok(Content {
                held: Held::Few(bytes.copy()),
            }),
            Held::Own(bytes) => Ok(Content {
                held: Held::Own(bytes.clone()?),
            }),
            Held::Shared(bytes, spare) => {
                let spare = Vec::with_capacity(spare.allocator().clone()?, bytes.len())?;
                Ok(Content {
                    held: Held::Shared(bytes.clone()?, spare),
                })
            }
        }
    }
}
