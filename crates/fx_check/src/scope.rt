//! The names that are bound around a part, with their shapes.
ghost use Rattle.std.specs.Prelude.{◌≡◌, [], length, map, take};
ghost use Rattle.std.specs.Option.{option_map};
ghost use Rattle.fx_expr.specs.Bindings.{bound};
ghost use Rattle.fx_expr.specs.Views.{shape_tree};
ghost use Rattle.fx_check.specs.Checked.{with_name};
ghost use Rattle.fx_check.specs.Gives.{Gives};
ghost use Rattle.fx_check.specs.Scopes.{entry_shape, IsTakenOff};
ghost use Rattle.fx_check.specs.Shaped.{named};

use crate::fault::CheckFault;
use fx_expr::{Shape, Word};
use std::alloc::Global;
use std::marker::Model;

/// The bound names, the newest last. Contracts see the list of the names with the trees of their shapes.
#[derive(Drop)]
pub(crate) struct Scope {
    bindings: Vec<(Word, Shape)>,
}

impl Model for Scope {
    ghost use Rattle.std.specs.Prelude.{List, ℕ, map};
    ghost use Rattle.fx_expr.specs.ShapeTree.{ShapeTree};

    ghost Value = { List (List ℕ × ShapeTree) };

    ghost use Rattle.fx_check.specs.Scopes.{coded_scope};

    ghost coded = { coded_scope };

    ghost use Rattle.fx_check.specs.Scopes.{entry_shape};

    ghost view = { λ s. map entry_shape s.bindings.items };
}

impl Scope {
    pub(crate) fn new(alloc: Global) -> Scope
        ensures { result ≡ [] }
    {
        Scope {
            bindings: Vec::new(alloc),
        }
    }

    fn get(&self, word: &Word) -> Option<&Shape>
        ensures { option_map (λ shape. shape_tree shape.now) result ≡ bound self.now word.now }
    {
        newest(self.bindings.as_slice(), word)
    }

    /// The shape of a name, or that it is not bound.
    pub(crate) fn shape(&self, alloc: Global, word: &Word) -> Result<Shape, CheckFault>
        ensures { Gives shape_tree result (named word.now (bound self.now word.now)) }
    {
        match self.get(word) {
            Some(shape) => Ok(shape.copy(alloc)?),
            None => Err(CheckFault::Unknown(word.copy(alloc)?)),
        }
    }

    /// Binds a name that is not bound yet.
    pub(crate) fn bind(
        &mut self,
        alloc: Global,
        word: &Word,
        shape: Shape,
    ) -> Result<(), CheckFault>
        ensures { Gives (λ _. self.new) result (with_name self.old word.now (shape_tree shape)) }
    {
        if self.get(word).is_some() {
            let_go(Some(shape));
            return Err(CheckFault::Repeated(word.copy(alloc)?));
        }
        self.bindings.push((word.copy(alloc)?, shape))?;
        Ok(())
    }

    pub(crate) fn len(&self) -> usize
        ensures { result ≡ length self.now }
    {
        self.bindings.len()
    }

    /// Forgets all names but the oldest.
    pub(crate) fn cut(&mut self, len: usize)
        ensures { self.new ≡ take len self.old }
    {
        self.bindings.truncate(len);
    }

    /// Takes off the newest name.
    pub(crate) fn unbind(&mut self) -> Option<Shape>
        ensures { IsTakenOff (option_map shape_tree result) self.old self.new }
    {
        let (_, shape) = self.bindings.pop()?;
        Some(shape)
    }
}

fn newest<'a>(bindings: &'a [(Word, Shape)], word: &Word) -> Option<&'a Shape>
    ensures { option_map (λ shape. shape_tree shape.now) result
        ≡ bound (map entry_shape bindings.now) word.now }
{
    let mut i = bindings.len();
    while i > 0 {
        i -= 1;
        let binding = &bindings[i];
        if binding.0 == *word {
            return Some(&binding.1);
        }
    }
    None
}

pub(crate) fn let_go(_: Option<Shape>) {}
