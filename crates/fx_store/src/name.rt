//! Names of entries, and why the bytes of a name, a path or a link text are refused.
ghost use Rattle.std.specs.Prelude.{◌≡◌, ℕ, List, [], ◌∷◌, IfOk, bytes_eq, refl};
ghost use Rattle.std.specs.Cmp.{partial_equiv_from_equiv};
ghost use Rattle.std.specs.Cmp.Lexicographic.{nat_list_eq_equiv, texts_po, texts_ties};
ghost use Rattle.std.specs.Ordering.{as_partial_cmp};
ghost use Rattle.std.specs.Str.{is_utf8};
ghost use Rattle.std.proofs.Common.{ap};
ghost use Rattle.fx_store.specs.Names.{is_name, is_reserved, IsName, name_cmp};
ghost use Rattle.fx_store.specs.Held.{held_bytes};
ghost use Rattle.fx_store.specs.Orders.{name_total, name_eq_same};

use crate::limits::MAX_NAME_BYTES;
use fx_base::{NoMemory, Short, compare_bytes, same_bytes};
use fx_text::Text;
use std::alloc::{AllocError, AllocFailed, Global};
use std::cmp::Ordering;
use std::hash::{Hash, Hasher};
use std::marker::Model;
use std::sync::ArcSlice;

/// Why a name, a path or a link text was not read or made.
#[derive(Clone, Copy, Debug, PartialEq, Eq)]
pub enum PathFault {
    BadName,
    TooDeep,
    NoMemory,
}

impl From<AllocError> for PathFault {
    ghost use Rattle.std.specs.Prelude.{◌≡◌};
    ghost use Rattle.fx_store.specs.declared.name.PathFault.TheVariants.{NoMemory};

    ghost from_gives = { λ _ fault. fault ≡ NoMemory };

    fn from(_: AllocError) -> PathFault {
        PathFault::NoMemory
    }
}

impl<T: Drop> From<AllocFailed<T>> for PathFault {
    ghost use Rattle.std.specs.Prelude.{◌≡◌};
    ghost use Rattle.fx_store.specs.declared.name.PathFault.TheVariants.{NoMemory};

    ghost from_gives = { λ _ fault. fault ≡ NoMemory };

    fn from(_: AllocFailed<T>) -> PathFault {
        PathFault::NoMemory
    }
}

impl From<NoMemory> for PathFault {
    ghost use Rattle.std.specs.Prelude.{◌≡◌};
    ghost use Rattle.fx_store.specs.declared.name.PathFault.TheVariants.{NoMemory};

    ghost from_gives = { λ _ fault. fault ≡ NoMemory };

    fn from(_: NoMemory) -> PathFault {
        PathFault::NoMemory
    }
}

/// The name of an entry of a directory: UTF-8 of 1 to 255 bytes without `/` and NUL, and not `.`, `..` or
/// `.forest-links`. Names are ordered by bytes. A copy takes no memory: a few bytes lie in the value itself, and more are
/// shared.
#[derive(Debug)]
pub struct Name {
    held: Held,
}

/// It is written out, so that its parts are dropped in this crate alone.
impl Drop for Name {
    fn drop(self) {
        let Name { held: _held } = self;
    }
}

/// A few bytes, or bytes that others may hold too.
#[derive(Debug, Drop)]
enum Held {
    Few(Short<14>),
    Shared(ArcSlice<u8>),
}

impl Model for Name {
    ghost use Rattle.std.specs.Prelude.{List, ℕ};
    ghost use Rattle.fx_store.specs.Names.{IsName};
    ghost use Rattle.fx_store.specs.Held.{held_bytes};

    ghost Value = { List ℕ };

    ghost view = { λ n. held_bytes n.held };

    ghost invariant = { λ n. IsName (held_bytes n.held) };
}

impl Name {
    ghost use Rattle.fx_store.specs.Faults.{Answers, read_name};

    /// Reads a name: `BadName` where the bytes are none.
    pub fn read(alloc: Global, bytes: &[u8]) -> Result<Name, PathFault>
        ensures { Answers result (read_name bytes.now) }
    {
        if !is_name(bytes) {
            return Err(PathFault::BadName);
        }
        Ok(Name::of(alloc, bytes)?)
    }

    /// The name that the bytes are, for bytes that were tested.
    pub(crate) fn of(alloc: Global, bytes: &[u8]) -> Result<Name, NoMemory>
        requires { IsName bytes.now }
        ensures { IfOk result (λ n. n ≡ bytes.now) }
    {
        match Short::of(bytes) {
            Some(few) => Ok(Name {
                held: Held::Few(few),
            }),
            None => Ok(Name {
                held: Held::Shared(ArcSlice::from_slice(alloc, bytes)?),
            }),
        }
    }

    /// The name, as a slice of its bytes.
    pub fn as_slice(&self) -> &[u8]
        ensures bytes { result.now ≡ self.now }
        ensures name { IsName self.now }
    {
        match &self.held {
            Held::Few(bytes) => bytes.as_slice(),
            Held::Shared(bytes) => bytes.as_slice(),
        }
    }

    /// The name as a text, which takes no memory.
    #[tactic(auto, using(crate::proofs::PathLists::short_name))]
    pub fn text(&self) -> Result<Text, NoMemory>
        ensures { IfOk result (λ text. text ≡ self.now) }
    {
        match &self.held {
            Held::Few(bytes) => match Text::few(bytes.as_slice()) {
                Some(text) => Ok(text),
                None => unreachable!(),
            },
            Held::Shared(bytes) => Ok(Text::from_shared(bytes.clone()?)),
        }
    }

    /// An equal name, which takes no memory.
    pub fn copy(&self, _alloc: Global) -> Result<Name, NoMemory>
        ensures copied { IfOk result (λ n. n ≡ self.now) }
        ensures name { IsName self.now }
    {
        Ok(Name {
            held: copied(&self.held)?,
        })
    }
}

fn copied(held: &Held) -> Result<Held, AllocError>
    ensures { IfOk result (λ other. held_bytes other ≡ held_bytes held.now) }
{
    match held {
        Held::Few(bytes) => Ok(Held::Few(bytes.copy())),
        Held::Shared(bytes) => Ok(Held::Shared(bytes.clone()?)),
    }
}

/// Whether the bytes are a name.
#[tactic(auto, using(std::proofs::lemmas::Bool::Decides::nat_tests), unfolding(crate::specs::Names::is_name))]
pub fn is_name(bytes: &[u8]) -> bool
    ensures { result ≡ is_name bytes.now }
{
    if bytes.is_empty() {
        return false;
    }
    if bytes.len() > MAX_NAME_BYTES {
        return false;
    }
    if bytes.contains(&b'/') {
        return false;
    }
    if bytes.contains(&0) {
        return false;
    }
    if is_reserved(bytes) {
        return false;
    }
    is_text(bytes)
}

fn is_reserved(bytes: &[u8]) -> bool
    ensures { result ≡ is_reserved bytes.now }
{
    bytes == b".".as_slice() || bytes == b"..".as_slice() || bytes == b".forest-links".as_slice()
}

fn is_text(bytes: &[u8]) -> bool
    ensures { result ≡ is_utf8 bytes.now }
{
    str::from_utf8(bytes).is_ok()
}

impl Clone for Name {
    ghost is_clone = { λ x y. y ≡ x };

    fn clone(&self) -> Result<Name, AllocError> {
        Ok(Name {
            held: copied(&self.held)?,
        })
    }
}

impl PartialEq for Name {
    ghost eq = { bytes_eq };

    ghost laws = { partial_equiv_from_equiv nat_list_eq_equiv };

    fn eq(&self, other: &Name) -> bool {
        same_bytes(self.as_slice(), other.as_slice())
    }
}

impl Eq for Name {
    ghost laws = { nat_list_eq_equiv };
}

impl PartialOrd for Name {
    ghost partial_cmp = { as_partial_cmp name_cmp };

    ghost laws = { texts_po };

    fn partial_cmp(&self, other: &Name) -> Option<Ordering> {
        Some(self.cmp(other))
    }
}

impl Ord for Name {
    ghost cmp = { name_cmp };

    ghost total = { name_total };

    ghost matches_partial_cmp = { λ _ _. refl };

    ghost matches_eq = { texts_ties };

    fn cmp(&self, other: &Name) -> Ordering {
        compare_bytes(self.as_slice(), other.as_slice())
    }
}

impl Hash for Name {
    ghost hash_input = { λ n. n ∷ [] };

    ghost respects_eq = { λ x y e. ap (λ n. n ∷ []) (name_eq_same x y e) };

    fn hash<H: Hasher>(&self, state: &mut H) {
        state.write(self.as_slice());
    }
}
