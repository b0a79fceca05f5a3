//! Whether the ends of two transactions are equal.
ghost use Rattle.std.specs.Prelude.{◌≡◌, ◌↔◌, IsTrue};
ghost use Rattle.fx_spec.specs.declared.refusal.Refusal.TheVariants as refused;
ghost use Rattle.fx_spec.specs.declared.refusal.End.TheVariants as ended;

use fx_expr::ExprFault;
use fx_spec::{End, Refusal};
use fx_store::Path;

fn is_blocked(refusal: &Refusal, path: &Path) -> bool
    ensures { IsTrue result ↔ (refused.Blocked path.now ≡ refusal.now) }
{
    match refusal {
        Refusal::Blocked(other) => path == other,
        _ => false,
    }
}

fn is_fault(refusal: &Refusal, fault: ExprFault) -> bool
    ensures { IsTrue result ↔ (refused.Expr fault ≡ refusal.now) }
{
    match refusal {
        Refusal::Expr(other) => fault == *other,
        _ => false,
    }
}

/// Whether the refusals are equal.
fn is_same_refusal(a: &Refusal, b: &Refusal) -> bool
    ensures { IsTrue result ↔ (a.now ≡ b.now) }
{
    match a {
        Refusal::Blocked(path) => is_blocked(b, path),
        Refusal::Expr(fault) => is_fault(b, *fault),
        _ => a.number() == b.number(),
    }
}

/// Whether the ends are equal.
pub(crate) fn is_same_end(a: &End, b: &End) -> bool
    ensures { IsTrue result ↔ (a.now ≡ b.now) }
{
    match a {
        End::Done => is_done(b),
        End::Stopped { command, refusal } => is_stopped(b, *command, refusal),
        End::Aborted => is_aborted(b),
    }
}

fn is_done(end: &End) -> bool
    ensures { IsTrue result ↔ (ended.Done ≡ end.now) }
{
    match end {
        End::Done => true,
        End::Stopped { .. } => false,
        End::Aborted => false,
    }
}

fn is_aborted(end: &End) -> bool
    ensures { IsTrue result ↔ (ended.Aborted ≡ end.now) }
{
    match end {
        End::Done => false,
        End::Stopped { .. } => false,
        End::Aborted => true,
    }
}

fn is_stopped(end: &End, number: u32, why: &Refusal) -> bool
    ensures { IsTrue result ↔ (ended.Stopped number why.now ≡ end.now) }
{
    match end {
        End::Done => false,
        End::Stopped { command, refusal } => number == *command && is_same_refusal(why, refusal),
        End::Aborted => false,
    }
}
