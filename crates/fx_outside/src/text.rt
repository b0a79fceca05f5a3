//! Texts of the command line and of host paths.
ghost use Rattle.std.specs.Prelude.{◌≡◌, ◌++◌, [], ◌∷◌, length, slice_get, option_copied, string_bytes, IfOk, OnOk, OnErr};
ghost use Rattle.std.specs.Slice.Iter.{iter_rest};
ghost use Rattle.fx_outside.specs.Path.{is_fit};

use crate::parts::is_fit;
use fx_base::NoMemory;
use std::alloc::Global;
use std::cmp::Ordering;
use std::convert::AsStr;
use std::marker::Model;
use std::slice;

/// A text of the command line, or a host path: the word as it was given, then `/` and a name per level below it.
#[derive(Debug)]
pub struct HostText {
    text: String,
}

/// It is written out, so that its parts are dropped in this crate alone.
impl Drop for HostText {
    fn drop(self) {
        let HostText { text: _text } = self;
    }
}

impl Model for HostText {
    ghost use Rattle.std.specs.Prelude.{List, ℕ, string_bytes};

    ghost Value = { List ℕ };

    ghost view = { λ t. string_bytes t.text };
}

impl HostText {
    /// The text of a string, which may be any.
    pub fn from_string(text: String) -> HostText
        ensures { result ≡ string_bytes text }
    {
        HostText { text }
    }

    /// The text as a string.
    pub fn as_str(&self) -> &str
        ensures { result.now ≡ self.now }
    {
        self.text.as_str()
    }

    /// Whether each part of a host path between its slashes can name an entry: none is empty, `.` or `..`.
    pub fn is_fit(&self) -> bool
        ensures { result ≡ is_fit self.now }
    {
        is_fit(self.text.as_str())
    }

    /// An equal text.
    pub fn copy(&self, alloc: Global) -> Result<HostText, NoMemory>
        ensures { IfOk result (λ text. text ≡ self.now) }
    {
        let text = String::from_str(alloc, self.text.as_str())?;
        Ok(HostText { text })
    }
}

impl AsStr for HostText {
    ghost text = { λ t. t };

    fn as_str(&self) -> &str {
        self.text.as_str()
    }
}

impl PartialEq for HostText {
    ghost use Rattle.std.specs.Ordering.{eq_by_cmp, nat_cmp};
    ghost use Rattle.std.specs.Cmp.{partial_equiv_from_equiv, eq_by_cmp_equiv};
    ghost use Rattle.std.specs.Cmp.Lexicographic.{slice_cmp, nat_list_cmp_total};

    ghost eq = { eq_by_cmp (slice_cmp nat_cmp) };

    ghost laws = { partial_equiv_from_equiv (eq_by_cmp_equiv nat_list_cmp_total) };

    fn eq(&self, other: &HostText) -> bool {
        self.cmp(other) == Ordering::Equal
    }
}

impl Eq for HostText {
    ghost use Rattle.std.specs.Cmp.{eq_by_cmp_equiv};
    ghost use Rattle.std.specs.Cmp.Lexicographic.{nat_list_cmp_total};

    ghost laws = { eq_by_cmp_equiv nat_list_cmp_total };
}

impl PartialOrd for HostText {
    ghost use Rattle.std.specs.Prelude.{Some};
    ghost use Rattle.std.specs.Ordering.{as_partial_cmp, nat_cmp};
    ghost use Rattle.std.specs.Cmp.{partial_order_from_total};
    ghost use Rattle.std.specs.Cmp.Lexicographic.{slice_cmp, nat_list_cmp_total};

    ghost partial_cmp = { as_partial_cmp (slice_cmp nat_cmp) };

    ghost laws = { partial_order_from_total nat_list_cmp_total };

    fn partial_cmp(&self, other: &HostText) -> Option<Ordering> {
        Some(self.cmp(other))
    }
}

/// Texts are ordered by their bytes.
impl Ord for HostText {
    ghost use Rattle.std.specs.Prelude.{refl};
    ghost use Rattle.std.specs.Ordering.{nat_cmp};
    ghost use Rattle.std.specs.Cmp.Lexicographic.{slice_cmp, nat_list_cmp_total};

    ghost cmp = { slice_cmp nat_cmp };

    ghost total = { nat_list_cmp_total };

    ghost matches_partial_cmp = { λ _ _. refl };

    ghost matches_eq = { λ _ _. refl };

    fn cmp(&self, other: &HostText) -> Ordering {
        self.text.as_str().cmp(other.text.as_str())
    }
}

/// The words of a command line.
#[derive(Debug)]
pub struct Words {
    items: Vec<HostText>,
}

/// It is written out, so that its parts are dropped in this crate alone.
impl Drop for Words {
    fn drop(self) {
        let Words { items: _items } = self;
    }
}

impl Model for Words {
    ghost use Rattle.std.specs.Prelude.{List, ℕ};

    ghost Value = { List (List ℕ) };

    ghost view = { λ w. w.items.items };
}

impl Words {
    /// No words.
    pub fn new(alloc: Global) -> Words
        ensures { result ≡ [] }
    {
        Words {
            items: Vec::new(alloc),
        }
    }

    /// The number of words.
    pub fn len(&self) -> u64
        ensures { result ≡ length self.now }
    {
        self.items.len() as u64
    }

    /// The word at `i`, from 0; None exactly from `len` on.
    pub fn at(&self, i: u64) -> Option<&HostText>
        ensures { option_copied result ≡ slice_get self.now i }
    {
        self.items.get(i as usize)
    }

    /// The words, from the first.
    pub fn iter(&self) -> slice::Iter<'_, HostText>
        ensures rest { iter_rest result ≡ self.now }
        ensures len { length (iter_rest result) ≡ length self.now }
    {
        self.items.iter()
    }

    /// Adds a word at the end. A refusal changes nothing.
    pub fn add(&mut self, _alloc: Global, item: HostText) -> Result<(), NoMemory>
        ensures added { OnOk result (self.new ≡ self.old ++ item ∷ []) }
        ensures same { OnErr result (self.new ≡ self.old) }
    {
        self.items.push(item)?;
        Ok(())
    }
}
