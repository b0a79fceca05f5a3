//! The passes of a crew: one for each shell.
ghost use Rattle.std.specs.Prelude.{◌≡◌, IfOk, OnOk, length};
ghost use Rattle.fx_turn.specs.Seats.{view};
ghost use Rattle.fx_shared.specs.Crews.{base_of};
ghost use Rattle.fx_shared.specs.Shared.{AreFresh, IsMakerOf};

use crate::crew::Crew;
use crate::logged::Logged;
use fx_base::NoMemory;
use fx_turn::Seat;

/// A pass for each shell, in order.
pub fn passes_of<R, G, T: Logged>(
    crew: &Crew<'_, R, G, T>,
    maker: &mut Seat<T>,
) -> Result<Vec<Seat<T>>, NoMemory>
    requires maker { IsMakerOf (base_of crew.now) crew.now.shares.now maker.old }
    requires none { (view maker.old).splits ≡ 0 }
    ensures maker { IsMakerOf (base_of crew.now) crew.now.shares.now maker.new }
    ensures splits { OnOk result ((view maker.new).splits ≡ length (base_of crew.now).plan) }
    ensures joined { (view maker.new).joined ≡ (view maker.old).joined }
    ensures all { IfOk result (λ passes. length passes.items ≡ length (base_of crew.now).plan) }
    ensures fresh { IfOk result (λ passes.
        AreFresh (base_of crew.now) crew.now.shares.now passes.items) }
{
    let mut passes = Vec::new(crew.alloc);
    for _shell in 0..crew.base.plan.len() {
        passes.push(crew.shares.pass(maker))?;
    }
    Ok(passes)
}
