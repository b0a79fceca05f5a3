ghost use Rattle.std.specs.Prelude.{◌≡◌};
ghost use Rattle.fx_lex.specs.Marks.{mark_of_two};

use crate::token::Mark;

/// The mark of this byte twice.
pub(crate) fn mark_of_two(b: u8) -> Option<Mark>
    ensures { result ≡ mark_of_two b }
{
    match b {
        b':' => Some(Mark::ColonColon),
        b'=' => Some(Mark::EqualEqual),
        b'+' => Some(Mark::PlusPlus),
        _ => None,
    }
}
