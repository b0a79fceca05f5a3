ghost use Rattle.std.specs.Prelude.{◌≡◌, IfOk, nat_eq, slice_range};
ghost use Rattle.std.specs.Arc.{arc_slice_items};
ghost use Rattle.std.specs.Cmp.{partial_equiv_from_equiv};
ghost use Rattle.std.specs.Cmp.Lexicographic.{pointwise, nat_list_eq_equiv};
ghost use Rattle.fx_expr.specs.Bytes.{IsWord, IsWordAt};

use fx_base::NoMemory;
use std::alloc::Global;
use std::fmt;
use std::marker::Model;
use std::sync::ArcSlice;

/// The most bytes that a word may have.
pub const WORD_LIMIT: usize = 64;

/// A word of the language: a letter of ASCII or `_`, then letters, digits or `_`, at most [`WORD_LIMIT`] bytes in all.
/// Contracts see the list of its bytes. It is cut out of a text, whose bytes it shares with all copies and all other
/// words of that text. So none of these takes memory of its own, and each keeps the whole text.
pub struct Word {
    text: ArcSlice<u8>,
    start: usize,
    stop: usize,
}

/// It is written out, so that its parts are dropped in this crate alone.
impl Drop for Word {
    fn drop(self) {
        let Word {
            text: _text,
            start: _,
            stop: _,
        } = self;
    }
}

impl Model for Word {
    ghost use Rattle.std.specs.Prelude.{List, ℕ, slice_range};
    ghost use Rattle.std.specs.Arc.{arc_slice_items};
    ghost use Rattle.fx_expr.specs.Bytes.{IsWordAt};

    ghost Value = { List ℕ };

    ghost view = { λ w. slice_range (arc_slice_items w.text) w.start w.stop };

    ghost invariant = { λ w. IsWordAt (arc_slice_items w.text) w.start w.stop };
}

impl Word {
    /// The word of these bytes, which the caller has tested.
    pub fn from_vec(v: Vec<u8>) -> Result<Word, NoMemory>
        requires { IsWord v.items }
        ensures { IfOk result (λ word. word ≡ v.items) }
    {
        let stop = v.len();
        Ok(Word {
            text: ArcSlice::from_vec(v)?,
            start: 0,
            stop,
        })
    }

    /// The word that stands in a text from `start` up to `stop`, which the caller has tested. It shares the bytes of
    /// the text.
    pub fn cut(text: &ArcSlice<u8>, start: usize, stop: usize) -> Result<Word, NoMemory>
        requires { IsWordAt (arc_slice_items text.now) start stop }
        ensures { IfOk result (λ word. word ≡ slice_range (arc_slice_items text.now) start stop) }
    {
        Ok(Word {
            text: text.clone()?,
            start,
            stop,
        })
    }

    /// The word, as a slice of its bytes.
    pub fn as_slice(&self) -> &[u8]
        ensures value { result.now ≡ self.now }
        ensures word { IsWord self.now }
    {
        &self.text.as_slice()[self.start..self.stop]
    }

    /// An equal word, which shares its bytes with this one.
    pub fn copy(&self, _alloc: Global) -> Result<Word, NoMemory>
        ensures { IfOk result (λ word. word ≡ self.now) }
    {
        Ok(Word {
            text: self.text.clone()?,
            start: self.start,
            stop: self.stop,
        })
    }
}

/// It shows the bytes of the word, and not those of the text around it.
impl fmt::Debug for Word {
    fn fmt<W: fmt::Write>(&self, f: &mut fmt::Formatter<W>) -> fmt::Result {
        f.debug_list().slice(self.as_slice()).finish()
    }
}

impl PartialEq for Word {
    ghost eq = { pointwise nat_eq };

    ghost laws = { partial_equiv_from_equiv nat_list_eq_equiv };

    fn eq(&self, other: &Word) -> bool {
        self.as_slice() == other.as_slice()
    }
}

impl Eq for Word {
    ghost laws = { nat_list_eq_equiv };
}
