//! The draws of a number.
ghost use Rattle.std.specs.Prelude.{◌≡◌, ◌<◌, ◌+◌};
ghost use Rattle.fx_gen.specs.Draws.{Drawn, next, draw, draws_after};

use std::marker::Model;

/// How often at most a number is drawn from.
pub(crate) const MOST_DRAWS: u32 = 10_000;

/// The draws of a number, of which some have been made.
#[derive(Drop)]
pub(crate) struct Draws {
    number: u32,
    made: u32,
    state: u32,
}

impl Model for Draws {
    ghost use Rattle.std.specs.Prelude.{◌≡◌};
    ghost use Rattle.fx_gen.specs.Draws.{Drawn, drawn_code, state_after};

    ghost Value = { Drawn };

    ghost coded = { drawn_code };

    ghost view = { λ d. record { number = d.number; made = d.made } };

    ghost invariant = { λ d. d.state ≡ state_after d.number d.made };
}

impl Draws {
    #[tactic(auto, unfolding(crate::specs::Draws::state_after))]
    pub(crate) fn new(number: u32) -> Draws
        ensures { result ≡ record { number = number; made = 0 } }
    {
        Draws {
            number,
            made: 0,
            state: number,
        }
    }

    #[tactic(auto, unfolding(crate::specs::Draws::draw, crate::specs::Draws::state_after))]
    /// The next draw of a number below another.
    pub(crate) fn draw(&mut self, below: u32) -> u32
        requires some { 0 < below }
        requires few { self.old.made < MOST_DRAWS }
        ensures drawn { result ≡ draw self.old.number self.old.made below }
        ensures less { result < below }
        ensures made { self.new ≡ draws_after 1 self.old }
    {
        self.state = next(self.state);
        self.made += 1;
        self.state / 65_536 % below
    }
}

#[tactic(auto, unfolding(crate::specs::Draws::next))]
fn next(state: u32) -> u32
    ensures { result ≡ next state }
{
    ((u64::from(state) * 1_664_525 + 1_013_904_223) % 4_294_967_296) as u32
}
