//! Directories that a walk goes through, with their names as texts.
ghost use Rattle.std.specs.Prelude.{◌≡◌, ◌<◌, ◌++◌, ◌∷◌, [], length, IfOk, OnOk, string_bytes};
ghost use Rattle.fx_outside.specs.Path.{Parts};
ghost use Rattle.fx_store.specs.Names.{IsPath};
ghost use Rattle.fx_table.specs.Places.{place_of, StandsIn};

use fx_base::NoMemory;
use fx_outside::HostText;
use fx_store::Path;
use std::alloc::{AllocError, Global};
use std::marker::Model;
use std::sync::Arc;

/// A directory of a filestore, or a folder below one that is loaded. A copy shares its path and its text, and takes no
/// memory for them.
#[derive(Debug)]
pub struct Parent {
    spelled: Arc<Spelled>,
}

/// It is written out, so that its parts are dropped in this crate alone.
impl Drop for Parent {
    fn drop(self) {
        let Parent { spelled: _spelled } = self;
    }
}

/// A path, and its names as a text with `/` behind each.
#[derive(Debug, Drop)]
pub struct Spelled {
    path: Path,
    front: String,
}

impl Model for Parent {
    ghost use Rattle.std.specs.Prelude.{◌≡◌, ◌++◌, ◌∷◌, [], List, ℕ, string_bytes};
    ghost use Rattle.fx_table.specs.Places.{place_of};

    ghost Value = { List (List ℕ) };

    ghost view = { λ p. p.spelled.value.path };

    ghost invariant = { λ p.
        47 ∷ string_bytes p.spelled.value.front ≡ place_of p.spelled.value.path ++ 47 ∷ [] };
}

impl Parent {
    /// The root, or the folder itself.
    pub fn root(alloc: Global) -> Result<Parent, NoMemory>
        ensures { IfOk result (λ parent. parent ≡ []) }
    {
        Parent::of(alloc, &Path::root(alloc), String::new(alloc))
    }

    /// The folder at a path, whose text this is.
    pub fn new(alloc: Global, path: &Path, text: &HostText) -> Result<Parent, NoMemory>
        requires { 47 ∷ text.now ≡ place_of path.now }
        ensures { IfOk result (λ parent. parent ≡ path.now) }
    {
        let mut front = String::from_str(alloc, text.as_str())?;
        front.push('/')?;
        Parent::of(alloc, path, front)
    }

    /// The directory at a path that has one name more than that of this one.
    pub fn child(&self, alloc: Global, path: &Path) -> Result<Parent, NoMemory>
        requires { StandsIn self.now path.now }
        ensures { IfOk result (λ parent. parent ≡ path.now) }
    {
        let mut front = both(alloc, self.spelled.front.as_str(), last_name(path))?;
        front.push('/')?;
        Parent::of(alloc, path, front)
    }

    fn of(alloc: Global, path: &Path, front: String) -> Result<Parent, NoMemory>
        requires { 47 ∷ string_bytes front ≡ place_of path.now ++ 47 ∷ [] }
        ensures { IfOk result (λ parent. parent ≡ path.now) }
    {
        let path = path.gathered(alloc)?;
        Ok(Parent {
            spelled: Arc::new(alloc, Spelled { path, front })?,
        })
    }

    /// Its path.
    pub fn path(&self) -> &Path
        ensures { result.now ≡ self.now }
    {
        &self.spelled.path
    }

    /// Where an entry of the folder stands, with `/` between each two names.
    pub fn text_of(&self, alloc: Global, name: &HostText) -> Result<HostText, AllocError>
        ensures { IfOk result (λ text. 47 ∷ text ≡ place_of (self.now ++ name.now ∷ [])) }
    {
        let text = both(alloc, self.spelled.front.as_str(), name.as_str())?;
        Ok(HostText::from_string(text))
    }

    /// The host path of an entry of the directory, if the filestore stands as this folder.
    pub fn place_below(
        &self,
        alloc: Global,
        folder: &HostText,
        path: &Path,
    ) -> Result<HostText, NoMemory>
        requires { StandsIn self.now path.now }
        ensures place { IfOk result (λ place. place ≡ folder.now ++ place_of path.now) }
        ensures path { OnOk result (IsPath path.now) }
    {
        let folder = folder.as_str();
        let front = self.spelled.front.as_str();
        let name = last_name(path);
        let room = folder
            .len()
            .saturating_add(front.len())
            .saturating_add(name.len());
        let mut place = String::with_capacity(alloc, room.saturating_add(1))?;
        place.push_str(folder)?;
        place.push_str("/")?;
        place.push_str(front)?;
        place.push_str(name)?;
        Ok(HostText::from_string(place))
    }

    /// An equal one.
    pub fn copy(&self) -> Result<Parent, NoMemory>
        ensures { IfOk result (λ parent. parent ≡ self.now) }
    {
        Ok(Parent {
            spelled: self.spelled.clone()?,
        })
    }
}

/// The last name of a path other than the root's, as a text.
fn last_name(path: &Path) -> &str
    requires { 0 < length path.now }
    ensures name { (parent : Parts) → StandsIn parent path.now
        → path.now ≡ parent ++ result.now ∷ [] }
    ensures path { IsPath path.now }
{
    let Some(name) = path.last() else {
        unreachable!()
    };
    match str::from_utf8(name.as_slice()) {
        Ok(text) => text,
        Err(_) => unreachable!(),
    }
}

/// One text behind another.
fn both(alloc: Global, first: &str, second: &str) -> Result<String, AllocError>
    ensures { IfOk result (λ text. string_bytes text ≡ first.now ++ second.now) }
{
    let mut text = String::with_capacity(alloc, first.len().saturating_add(second.len()))?;
    text.push_str(first)?;
    text.push_str(second)?;
    Ok(text)
}
