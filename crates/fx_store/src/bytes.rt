//! Lists of bytes, with the limit of a file's content and without a limit.
ghost use Rattle.std.specs.Prelude.{◌≡◌, ◌≤◌, [], length, IfOk};
ghost use Rattle.fx_store.specs.Names.{IsContent};
ghost use Rattle.fx_store.specs.declared.limits.TheConstants.{MAX_FILE_BYTES};

use crate::limits::MAX_FILE_BYTES;
use fx_base::{Content, NoMemory};
use fx_text::Text;
use std::alloc::{AllocError, Global};
use std::marker::Model;

/// What a file holds: at most [`MAX_FILE_BYTES`] bytes. A copy of what `share` gave goes through no byte.
#[derive(Debug)]
pub struct Bytes {
    content: Content,
}

/// It is written out, so that its parts are dropped in this crate alone.
impl Drop for Bytes {
    fn drop(self) {
        let Bytes { content: _content } = self;
    }
}

impl Model for Bytes {
    ghost use Rattle.std.specs.Prelude.{ℕ, List};
    ghost use Rattle.fx_store.specs.Names.{IsContent};

    ghost Value = { List ℕ };

    ghost view = { λ b. b.content };

    ghost invariant = { λ b. IsContent b.content };
}

impl Bytes {
    /// No bytes.
    pub fn new(alloc: Global) -> Bytes
        ensures { result ≡ [] }
    {
        Bytes::from_vec(Vec::new(alloc))
    }

    /// These bytes; the caller keeps the limit.
    pub fn from_vec(v: Vec<u8>) -> Bytes
        requires { length v.items ≤ MAX_FILE_BYTES }
        ensures { result ≡ v.items }
    {
        Bytes {
            content: Content::of(v),
        }
    }

    /// The same bytes, which copies share from now on, where there are enough of them.
    pub fn share(self, alloc: Global) -> Result<Bytes, NoMemory>
        ensures { IfOk result (λ b. b ≡ self) }
    {
        let Bytes { content } = self;
        Ok(Bytes {
            content: content.share(alloc)?,
        })
    }

    /// The number of bytes.
    pub fn len(&self) -> u64
        ensures { result ≡ length self.now }
    {
        self.content.len() as u64
    }

    /// The bytes, as a slice.
    pub fn as_slice(&self) -> &[u8]
        ensures bytes { result.now ≡ self.now }
        ensures content { IsContent self.now }
    {
        self.content.as_slice()
    }

    /// A copy of these bytes; the caller keeps the limit.
    pub fn from_slice(alloc: Global, bytes: &[u8]) -> Result<Bytes, NoMemory>
        requires { length bytes.now ≤ MAX_FILE_BYTES }
        ensures { IfOk result (λ b. b ≡ bytes.now) }
    {
        Ok(Bytes {
            content: Content::from_slice(alloc, bytes)?,
        })
    }

    /// The bytes as a text, which takes no memory. Many are copied only where other bytes share them.
    pub fn into_text(self) -> Text
        ensures bytes { result ≡ self }
        ensures content { IsContent self }
    {
        let Bytes { content } = self;
        Text::from_content(content)
    }

    /// The same bytes once more: shared, where these are shared, and else copied.
    pub fn copy(&self, alloc: Global) -> Result<Bytes, NoMemory>
        ensures { IfOk result (λ b. b ≡ self.now) }
    {
        Ok(Bytes {
            content: self.content.copy(alloc)?,
        })
    }
}

impl Clone for Bytes {
    ghost is_clone = { λ x y. y ≡ x };

    fn clone(&self) -> Result<Bytes, AllocError> {
        Ok(Bytes {
            content: self.content.clone()?,
        })
    }
}

/// Bytes of any number, as a whole printed report.
#[derive(Debug)]
pub struct LongText {
    bytes: Vec<u8>,
}

/// It is written out, so that its parts are dropped in this crate alone.
impl Drop for LongText {
    fn drop(self) {
        let LongText { bytes: _bytes } = self;
    }
}

impl Model for LongText {
    ghost use Rattle.std.specs.Prelude.{List, ℕ};

    ghost Value = { List ℕ };

    ghost view = { λ b. b.bytes.items };
}

impl LongText {
    /// These bytes.
    pub fn from_vec(v: Vec<u8>) -> LongText
        ensures { result ≡ v.items }
    {
        LongText { bytes: v }
    }

    /// The number of bytes.
    pub fn len(&self) -> u64
        ensures { result ≡ length self.now }
    {
        self.bytes.len() as u64
    }

    /// The bytes, as a slice.
    pub fn as_slice(&self) -> &[u8]
        ensures { result.now ≡ self.now }
    {
        self.bytes.as_slice()
    }

    /// The bytes by themselves.
    pub fn into_vec(self) -> Vec<u8>
        ensures { result.items ≡ self }
    {
        let LongText { bytes } = self;
        bytes
    }
}
