//! Host paths as lists of parts.
ghost use Rattle.std.specs.Prelude.{◌≡◌, ◌==◌, map, IfOk, length, option_copied};
ghost use Rattle.std.specs.List.{list_all};
ghost use Rattle.fx_outside.specs.Path.{parts, parts_cmp, is_fit, is_fit_part, fit_parts, above, name_in};

use crate::HostText;
use fx_base::NoMemory;
use std::alloc::{AllocError, Global};
use std::cmp::Ordering;
use std::marker::Model;

/// The parts of a path between its slashes. A folder is less than all that stands in it.
#[derive(Debug)]
pub struct Parts {
    names: Vec<HostText>,
}

/// It is written out, so that its parts are dropped in this crate alone.
impl Drop for Parts {
    fn drop(self) {
        let Parts { names: _names } = self;
    }
}

impl Model for Parts {
    ghost use Rattle.std.specs.Prelude.{List, ℕ};

    ghost Value = { List (List ℕ) };

    ghost view = { λ p. p.names.items };
}

impl Parts {
    /// The parts of a path, if each of them can name an entry.
    pub fn read(alloc: Global, path: &HostText) -> Result<Option<Parts>, NoMemory>
        ensures { IfOk result (λ found. found ≡ fit_parts path.now) }
    {
        if !path.is_fit() {
            return Ok(None);
        }
        let pieces = pieces(alloc, path.as_str())?;
        let names = texts(alloc, &pieces)?;
        Ok(Some(Parts { names }))
    }

    /// Whether there are no parts, so that these are those of the tree's root.
    pub fn is_root(&self) -> bool
        ensures { result ≡ (length self.now == 0) }
    {
        self.names.is_empty()
    }

    /// The last part, if the others are those of a folder.
    pub fn name_in(&self, folder: &Parts) -> Option<&HostText>
        ensures { option_copied result ≡ name_in folder.now self.now }
    {
        let name = self.names.last()?;
        let around = &self.names[..self.names.len() - 1];
        if around == folder.names.as_slice() {
            Some(name)
        } else {
            None
        }
    }

    /// The parts of the folder around.
    pub fn above(&self, alloc: Global) -> Result<Parts, NoMemory>
        ensures { IfOk result (λ around. around ≡ above self.now) }
    {
        let kept = self.names.len().saturating_sub(1);
        let names = copies(alloc, &self.names[..kept])?;
        Ok(Parts { names })
    }
}

fn pieces(alloc: Global, path: &str) -> Result<Vec<&str>, AllocError>
    ensures { IfOk result (λ pieces. map (λ p. p.now) pieces.items ≡ parts path.now) }
{
    path.split('/').collect(alloc)
}

/// Whether a part can name an entry.
fn is_fit_part(part: &[u8]) -> bool
    ensures { result ≡ is_fit_part part.now }
{
    match part {
        [] => false,
        [b'.'] => false,
        [b'.', b'.'] => false,
        _ => true,
    }
}

fn is_slash(byte: &u8) -> bool
    ensures { result ≡ (byte.now == 47) }
{
    *byte == b'/'
}

/// Whether each part of a path can name an entry.
pub(crate) fn is_fit(path: &str) -> bool
    ensures { result ≡ is_fit path.now }
{
    path.as_bytes()
        .split(|byte| is_slash(byte))
        .all(|part| is_fit_part(part))
}

fn texts(alloc: Global, pieces: &[&str]) -> Result<Vec<HostText>, NoMemory>
    ensures { IfOk result (λ texts. texts.items ≡ map (λ p. p.now) pieces.now) }
{
    let mut texts = Vec::new(alloc);
    for piece in pieces {
        let text = String::from_str(alloc, piece)?;
        texts.push(HostText::from_string(text))?;
    }
    Ok(texts)
}

fn copies(alloc: Global, names: &[HostText]) -> Result<Vec<HostText>, NoMemory>
    ensures { IfOk result (λ copies. copies.items ≡ names.now) }
{
    let mut copies = Vec::new(alloc);
    for name in names {
        copies.push(name.copy(alloc)?)?;
    }
    Ok(copies)
}

impl PartialEq for Parts {
    ghost use Rattle.std.specs.Ordering.{eq_by_cmp, nat_cmp};
    ghost use Rattle.std.specs.Cmp.{partial_equiv_from_equiv, eq_by_cmp_equiv};
    ghost use Rattle.std.specs.Cmp.Lexicographic.{lists_total, nat_list_cmp_total};
    ghost use Rattle.fx_outside.specs.Path.{parts_cmp};

    ghost eq = { eq_by_cmp parts_cmp };

    ghost laws = { partial_equiv_from_equiv (eq_by_cmp_equiv (lists_total nat_list_cmp_total)) };

    fn eq(&self, other: &Parts) -> bool {
        self.cmp(other) == Ordering::Equal
    }
}

impl Eq for Parts {
    ghost use Rattle.std.specs.Cmp.{eq_by_cmp_equiv};
    ghost use Rattle.std.specs.Cmp.Lexicographic.{lists_total, nat_list_cmp_total};

    ghost laws = { eq_by_cmp_equiv (lists_total nat_list_cmp_total) };
}

impl PartialOrd for Parts {
    ghost use Rattle.std.specs.Ordering.{as_partial_cmp};
    ghost use Rattle.std.specs.Cmp.{partial_order_from_total};
    ghost use Rattle.std.specs.Cmp.Lexicographic.{lists_total, nat_list_cmp_total};
    ghost use Rattle.fx_outside.specs.Path.{parts_cmp};

    ghost partial_cmp = { as_partial_cmp parts_cmp };

    ghost laws = { partial_order_from_total (lists_total nat_list_cmp_total) };

    fn partial_cmp(&self, other: &Parts) -> Option<Ordering> {
        Some(self.cmp(other))
    }
}

impl Ord for Parts {
    ghost use Rattle.std.specs.Prelude.{refl};
    ghost use Rattle.std.specs.Cmp.Lexicographic.{lists_total, nat_list_cmp_total};
    ghost use Rattle.fx_outside.specs.Path.{parts_cmp};

    ghost cmp = { parts_cmp };

    ghost total = { lists_total nat_list_cmp_total };

    ghost matches_partial_cmp = { λ _ _. refl };

    ghost matches_eq = { λ _ _. refl };

    fn cmp(&self, other: &Parts) -> Ordering {
        self.names.cmp(&other.names)
    }
}
