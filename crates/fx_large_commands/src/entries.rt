//! How many transactions of a log were done.
ghost use Rattle.std.specs.Prelude.{◌≡◌};
ghost use Rattle.fx_large_commands.specs.Summary.{is_done, done_of};

use fx_board::Board;
use fx_spec::End;

fn is_done(end: &End) -> bool
    ensures { result ≡ is_done end.now }
{
    match end {
        End::Done => true,
        End::Stopped {
            command: _,
            refusal: _,
        } => false,
        End::Aborted => false,
    }
}

/// How many transactions were done.
pub(crate) fn done(board: &Board) -> u64
    ensures { result ≡ done_of board.now.base board.now.order }
{
    let mut done = 0;
    for i in 0..board.len() {
        match board.entry(i) {
            Some(entry) => done += u64::from(is_done(&entry.end)),
            None => unreachable!(),
        }
    }
    done
}
