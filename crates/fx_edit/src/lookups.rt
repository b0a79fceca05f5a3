//! What a node lists.
ghost use Rattle.std.specs.Prelude.{◌≡◌};
ghost use Rattle.fx_store.specs.Rule as rule;
ghost use Rattle.fx_spec.specs.Edit.{names_of};
ghost use Rattle.fx_session.specs.Implements.{Implements};
ghost use Rattle.fx_edit.specs.Rules as parts;

use fx_session::Session;
use fx_store::{Names, Node, Path};
use fx_view::{Reader, Stop};
use std::alloc::Global;
use std::sync::ledger::Ledger;

/// The names below a path; `None` where nothing is there.
pub(crate) fn listing<R: Reader, L: Ledger>(
    session: &mut Session<'_, R, L>,
    path: &Path,
) -> Result<Option<Names>, Stop>
    ensures follows { Implements R.meaning (λ n. n) session.old session.new
        (rule.Look path.now (λ node. rule.Answer (parts.listing node))) result }
{
    let node = session.look(path)?;
    Ok(listed(session.alloc, node))
}

/// The names that a directory at a path lists; none where there is no directory.
pub(crate) fn names_at<R: Reader, L: Ledger>(
    session: &mut Session<'_, R, L>,
    path: &Path,
) -> Result<Names, Stop>
    ensures follows { Implements R.meaning (λ n. n) session.old session.new
        (rule.Look path.now (λ node. rule.Answer (names_of node))) result }
{
    let node = session.look(path)?;
    Ok(names_in(session.alloc, node))
}

fn listed(alloc: Global, node: Option<Node>) -> Option<Names>
    ensures { result ≡ parts.listing node }
{
    match node {
        Some(Node::Dir(names)) => Some(names),
        Some(Node::File { .. }) => Some(Names::new(alloc)),
        Some(Node::Link(_)) => Some(Names::new(alloc)),
        None => None,
    }
}

pub(crate) fn names_in(alloc: Global, node: Option<Node>) -> Names
    ensures { result ≡ names_of node }
{
    match node {
        Some(Node::Dir(names)) => names,
        Some(Node::File { .. }) => Names::new(alloc),
        Some(Node::Link(_)) => Names::new(alloc),
        None => Names::new(alloc),
    }
}
