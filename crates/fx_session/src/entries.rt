//! Whether an entry exists.
ghost use Rattle.std.specs.Prelude.{◌≡◌};
ghost use Rattle.fx_spec.specs.Describe as describe;
ghost use Rattle.fx_session.specs.Implements.{Implements};

use crate::session::Session;
use fx_store::{Landing, Path};
use fx_view::{Reader, Stop};
use std::sync::ledger::Ledger;

/// Whether the entry exists: its path lands at one, a last link not followed.
pub fn exists<R: Reader, L: Ledger>(
    session: &mut Session<'_, R, L>,
    path: &Path,
) -> Result<bool, Stop>
    ensures follows { Implements R.meaning (λ b. b) session.old session.new
        (describe.exists path.now) result }
{
    let landing = session.resolve(path, false)?;
    Ok(is_at(&landing))
}

fn is_at(landing: &Landing) -> bool
    ensures { result ≡ describe.is_at landing.now }
{
    match landing {
        Landing::At(_) => true,
        Landing::Absent(_, _) | Landing::Blocked(_) | Landing::TooManyLinks => false,
    }
}
