ghost use Rattle.std.specs.Prelude.{◌≡◌, ◌++◌, [], ◌∷◌, IfOk, OnOk, OnErr, length, slice_get, map};
ghost use Rattle.std.specs.Slice.Iter.{iter_rest};
ghost use Rattle.std.specs.Option.{option_map};
ghost use Rattle.fx_spec.specs.Views.{command_tree};

use fx_base::NoMemory;
use fx_expr::{Expr, Shape, Word};
use std::alloc::Global;
use std::marker::Model;
use std::slice;

/// A move of a transaction's position, or an edit at it.
#[derive(Debug, Drop)]
pub enum Act {
    Into,
    To(Expr),
    Next,
    Prev,
    Out,
    Down,
    Up,
    Top,
    Store(Expr),
    Create,
    Remove,
}

/// A command of a transaction.
#[derive(Drop)]
#[cycle(command)]
pub enum Command {
    Do(Act),
    /// The act, with 0 or the number of its refusal bound to the word.
    Attempt(Word, Act),
    Bind(Word, Expr),
    /// A new value for a word that is bound already.
    Assign(Word, Expr),
    Fetch(Word, Shape),
    Whole(Word, Shape),
    Validate(Word),
    Print(Expr),
    Branch(Expr, Commands, Commands),
    /// The block once for each element of a set, in ascending order.
    Each(Word, Expr, Commands),
    Abort,
}

/// A list of commands. Contracts see the list of their trees.
#[derive(Drop)]
#[cycle(command)]
pub struct Commands {
    items: Vec<Command>,
}

impl Model for Commands {
    ghost use Rattle.std.specs.Prelude.{List};
    ghost use Rattle.fx_spec.specs.CommandTree.{CommandTree, commands_size};
    ghost use Rattle.fx_spec.specs.Codes.{coded_commands};

    ghost Value = { List CommandTree };

    ghost coded = { coded_commands };

    ghost use Rattle.std.specs.Prelude.{map};
    ghost use Rattle.fx_spec.specs.Views.{command_tree};

    ghost view = { λ c. map command_tree c.items.items };

    ghost size = { commands_size };

    ghost use Rattle.fx_spec.specs.Falls.{falls};

    ghost size_decreases = { λ a h. falls a.items.items };
}

impl Commands {
    /// No commands.
    pub fn new(alloc: Global) -> Commands
        ensures { result ≡ [] }
    {
        Commands {
            items: Vec::new(alloc),
        }
    }

    /// No commands yet, with room for so many.
    pub fn with_room(alloc: Global, room: usize) -> Result<Commands, NoMemory>
        ensures { IfOk result (λ commands. commands ≡ []) }
    {
        Ok(Commands {
            items: Vec::with_capacity(alloc, room)?,
        })
    }

    /// The same commands, in exactly the room that they need.
    pub fn fitted(self, alloc: Global) -> Result<Commands, NoMemory>
        ensures { IfOk result (λ commands. commands ≡ self) }
    {
        let Commands { mut items } = self;
        let mut exact = Vec::with_capacity(alloc, items.len())?;
        exact.append(&mut items)?;
        Ok(Commands { items: exact })
    }

    /// The number of commands.
    pub fn len(&self) -> u64
        ensures { result ≡ length self.now }
    {
        self.items.len() as u64
    }

    /// The command at `i`; None exactly from `len` on.
    pub fn at(&self, i: u64) -> Option<&Command>
        ensures { option_map (λ c. command_tree c.now) result ≡ slice_get self.now i }
    {
        self.items.get(i as usize)
    }

    /// The commands, from the first.
    pub fn iter(&self) -> slice::Iter<'_, Command>
        ensures rest { map command_tree (iter_rest result) ≡ self.now }
        ensures len { length (iter_rest result) ≡ length self.now }
    {
        self.items.iter()
    }

    /// Adds a command at the end. A refusal changes nothing.
    pub fn add(&mut self, _alloc: Global, item: Command) -> Result<(), NoMemory>
        ensures ok { OnOk result (self.new ≡ self.old ++ command_tree item ∷ []) }
        ensures err { OnErr result (self.new ≡ self.old) }
    {
        self.items.push(item)?;
        Ok(())
    }
}
