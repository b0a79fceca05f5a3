//! Writing a whole output to a sink.
ghost use Rattle.std.specs.Prelude.{◌≡◌, ◌++◌, ◌≤◌, ℕ, Some, OnOk, IfSome, take, drop, length};
ghost use Rattle.fx_outside.specs.Sink.{HasFault};

use fx_outside::{Sink, SinkFailed};

/// The bytes after the first `count`.
fn after(bytes: &[u8], count: usize) -> &[u8]
    requires { count ≤ length bytes.now }
    ensures { result.now ≡ drop count bytes.now }
{
    &bytes[count..]
}

/// Writes all the bytes. After a refusal a front of them is written.
pub fn print_all<S: Sink>(out: &mut S, bytes: &[u8]) -> Result<(), SinkFailed>
    ensures written { OnOk result (IfSome (S.view out.old).written (λ w.
        (S.view out.new).written ≡ Some (w ++ bytes.now))) }
    ensures front { IfSome (S.view out.old).written (λ w.
        (n : ℕ) × ((S.view out.new).written ≡ Some (w ++ take n bytes.now))) }
    ensures cause { HasFault (S.view out.old) (S.view out.new) result }
{
    let mut rest = bytes;
    'writing: while !rest.is_empty() {
        let count = out.write(rest)?;
        rest = after(rest, count);
    }
    Ok(())
}
