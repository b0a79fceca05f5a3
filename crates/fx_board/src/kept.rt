//! The log as a value that seats pass on by turns.
use crate::board::Board;
use fx_spec::Base;
use fx_turn::Kept;
use std::marker::Model;

/// What a log was begun from, as contracts see it. No value of it is made.
pub struct Ground {
    base: Base,
}

impl Model for Ground {
    ghost use Rattle.fx_spec.specs.Order.{BaseTree};
    ghost use Rattle.fx_board.specs.Log.{base_code};

    ghost Value = { BaseTree };

    ghost coded = { base_code };

    ghost use Rattle.fx_spec.specs.Bases.{base_tree};

    ghost view = { λ g. base_tree g.base };
}

/// The history is the order: an entry is the number of its shell, and that of its transaction in the shell's script.
impl Kept for Board {
    type Origin = Ground;

    type Item = (u32, u32);

    ghost base = { λ b. b.base };

    ghost history = { λ b. b.order };

    ghost shell = { λ turn. turn.0 };

    fn length(&self) -> u64 {
        self.len()
    }
}
