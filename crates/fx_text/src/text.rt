ghost use Rattle.std.specs.Prelude.{◌≡◌, ◌<◌, ◌++◌, [], Some, IfOk, IfSome, IfNone, length, nat_eq, refl};
ghost use Rattle.std.specs.Ordering.{nat_cmp};
ghost use Rattle.std.specs.Cmp.{partial_equiv_from_equiv};
ghost use Rattle.std.specs.Cmp.Lexicographic.{pointwise, slice_cmp, nat_list_eq_equiv, nat_list_cmp_total, texts_ties, texts_po};
ghost use Rattle.std.specs.Arc.{arc_slice_items};
ghost use Rattle.fx_text.specs.Bytes.{IsText};
ghost use Rattle.fx_text.specs.Letters.{held_bytes};

use fx_base::{Content, NoMemory, ShortText, Taken, compare_bytes, same_bytes};
use std::alloc::{AllocError, Global};
use std::cmp::Ordering;
use std::marker::Model;
use std::sync::ArcSlice;

/// The most bytes that a text may have.
pub const TEXT_LIMIT: usize = 1_048_576;

/// A text value: at most [`TEXT_LIMIT`] bytes of any kind, UTF-8 or not. Contracts see the list of its bytes.
/// A few bytes lie in the value itself, so that a copy takes no memory; a copy of one that was made from shared bytes shares
/// them.
#[derive(Debug)]
pub struct Text {
    held: Held,
}

/// It is written out, so that its parts are dropped in this crate alone.
impl Drop for Text {
    fn drop(self) {
        let Text { held: _held } = self;
    }
}

/// A few bytes, bytes by themselves, or bytes that others may hold too.
#[derive(Debug, Drop)]
enum Held {
    Few(ShortText),
    Own(Vec<u8>),
    Shared(ArcSlice<u8>),
}

impl Model for Text {
    ghost use Rattle.std.specs.Prelude.{List, ℕ};
    ghost use Rattle.fx_text.specs.Bytes.{IsText};
    ghost use Rattle.fx_text.specs.Letters.{held_bytes};

    ghost Value = { List ℕ };

    ghost view = { λ t. held_bytes t.held };

    ghost invariant = { λ t. IsText (held_bytes t.held) };
}

impl Text {
    /// The empty text.
    pub fn new(alloc: Global) -> Text
        ensures { result ≡ [] }
    {
        Text {
            held: Held::Own(Vec::new(alloc)),
        }
    }

    /// The text of these bytes; the caller keeps the limit.
    pub fn from_vec(v: Vec<u8>) -> Text
        requires { IsText v.items }
        ensures { result ≡ v.items }
    {
        match ShortText::of(v.as_slice()) {
            Some(few) => Text {
                held: Held::Few(few),
            },
            None => Text { held: Held::Own(v) },
        }
    }

    /// The text of a copy of these bytes; the caller keeps the limit.
    pub fn from_slice(alloc: Global, bytes: &[u8]) -> Result<Text, NoMemory>
        requires { IsText bytes.now }
        ensures { IfOk result (λ text. text ≡ bytes.now) }
    {
        match Text::few(bytes) {
            Some(text) => Ok(text),
            None => Ok(Text {
                held: Held::Own(Vec::from_slice(alloc, bytes)?),
            }),
        }
    }

    /// The text of a copy of these bytes, which takes no memory; None exactly where they are more than 30.
    pub fn few(bytes: &[u8]) -> Option<Text>
        ensures some { IfSome result (λ text. text ≡ bytes.now) }
        ensures none { IfNone result (30 < length bytes.now) }
    {
        let few = ShortText::of(bytes)?;
        prove!(few.as_slice().len() <= TEXT_LIMIT);
        Some(Text {
            held: Held::Few(few),
        })
    }

    /// The text of the bytes of a content, which takes no memory; the caller keeps the limit.
    pub fn from_content(content: Content) -> Text
        requires { IsText content }
        ensures { result ≡ content }
    {
        match content.take() {
            Taken::Few(few) => Text {
                held: Held::Few(few),
            },
            Taken::Many(bytes) => Text::from_vec(bytes),
        }
    }

    /// The text of these bytes, which it shares; the caller keeps the limit.
    pub fn from_shared(bytes: ArcSlice<u8>) -> Text
        requires { IsText (arc_slice_items bytes) }
        ensures { result ≡ arc_slice_items bytes }
    {
        Text {
            held: Held::Shared(bytes),
        }
    }

    /// The bytes, as a slice.
    pub fn as_slice(&self) -> &[u8]
        ensures value { result.now ≡ self.now }
        ensures limit { IsText self.now }
    {
        match &self.held {
            Held::Few(bytes) => bytes.as_slice(),
            Held::Own(bytes) => bytes.as_slice(),
            Held::Shared(bytes) => bytes.as_slice(),
        }
    }

    /// The bytes by themselves.
    pub fn to_vec(&self, alloc: Global) -> Result<Vec<u8>, NoMemory>
        ensures value { IfOk result (λ bytes. bytes.items ≡ self.now) }
        ensures limit { IsText self.now }
    {
        Ok(Vec::from_slice(alloc, self.as_slice())?)
    }

    /// An equal text: where the bytes are shared it shares them, and else it has its own.
    pub fn copy(&self, alloc: Global) -> Result<Text, NoMemory>
        ensures { IfOk result (λ text. text ≡ self.now) }
    {
        Ok(Text {
            held: copied(alloc, &self.held)?,
        })
    }

    /// The text of these bytes and of others after them; the caller keeps the limit.
    pub fn joined(alloc: Global, first: &[u8], second: &[u8]) -> Result<Text, NoMemory>
        requires { IsText (first.now ++ second.now) }
        ensures { IfOk result (λ text. text ≡ first.now ++ second.now) }
    {
        let mut bytes = Vec::with_capacity(alloc, first.len() + second.len())?;
        bytes.extend_from_slice(first)?;
        bytes.extend_from_slice(second)?;
        Ok(Text::from_vec(bytes))
    }

    /// The number of bytes.
    pub fn len(&self) -> u64
        ensures value { result ≡ length self.now }
        ensures limit { IsText self.now }
    {
        self.as_slice().len() as u64
    }
}

fn copied(alloc: Global, held: &Held) -> Result<Held, NoMemory>
    ensures { IfOk result (λ other. held_bytes other ≡ held_bytes held.now) }
{
    match held {
        Held::Few(bytes) => Ok(Held::Few(bytes.copy())),
        Held::Own(bytes) => Ok(Held::Own(Vec::from_slice(alloc, bytes.as_slice())?)),
        Held::Shared(bytes) => Ok(Held::Shared(bytes.clone()?)),
    }
}

impl Clone for Text {
    ghost is_clone = { λ x y. y ≡ x };

    fn clone(&self) -> Result<Text, AllocError> {
        match &self.held {
            Held::Few(bytes) => Ok(Text {
                held: Held::Few(bytes.copy()),
            }),
            Held::Own(bytes) => Ok(Text {
                held: Held::Own(bytes.clone()?),
            }),
            Held::Shared(bytes) => Ok(Text {
                held: Held::Shared(bytes.clone()?),
            }),
        }
    }
}

impl PartialEq for Text {
    ghost eq = { pointwise nat_eq };

    ghost laws = { partial_equiv_from_equiv nat_list_eq_equiv };

    fn eq(&self, other: &Text) -> bool {
        same_bytes(self.as_slice(), other.as_slice())
    }
}

impl Eq for Text {
    ghost laws = { nat_list_eq_equiv };
}

impl PartialOrd for Text {
    ghost partial_cmp = { λ x y. Some (slice_cmp nat_cmp x y) };

    ghost laws = { texts_po };

    fn partial_cmp(&self, other: &Text) -> Option<Ordering> {
        Some(self.cmp(other))
    }
}

impl Ord for Text {
    ghost cmp = { slice_cmp nat_cmp };

    ghost total = { nat_list_cmp_total };

    ghost matches_partial_cmp = { λ x y. refl };

    ghost matches_eq = { texts_ties };

    fn cmp(&self, other: &Text) -> Ordering {
        compare_bytes(self.as_slice(), other.as_slice())
    }
}
