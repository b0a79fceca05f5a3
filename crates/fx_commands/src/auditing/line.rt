//! The line that tells a verdict.
ghost use Rattle.std.specs.Prelude.{◌≡◌, ◌++◌, IfOk, OnOk};
ghost use Rattle.std.specs.Fmt.{decimal};
ghost use Rattle.fx_report.specs.Report.{line};
ghost use Rattle.fx_audit.specs.declared.verdict.Verdict.TheVariants as said;
ghost use Rattle.fx_commands.specs.Audits.Lines as lines;

use fx_audit::Verdict;
use fx_base::NoMemory;
use std::alloc::Global;

/// Adds words, and the number after them.
fn add_field(out: &mut Vec<u8>, words: &[u8], number: u64) -> Result<(), NoMemory>
    ensures { OnOk result (out.new.items ≡ out.old.items ++ words.now ++ decimal number) }
{
    let digits = number.to_string(*out.allocator())?;
    out.extend_from_slice(words)?;
    out.extend_from_slice(digits.as_bytes())?;
    Ok(())
}

/// The line of words and one number.
fn line_of(alloc: Global, words: &[u8], number: u64) -> Result<Vec<u8>, NoMemory>
    ensures { IfOk result (λ text. text.items ≡ line (words.now ++ decimal number)) }
{
    let mut text = Vec::new(alloc);
    add_field(&mut text, words, number)?;
    text.extend_from_slice(b"\n")?;
    Ok(text)
}

fn yes_line(alloc: Global) -> Result<Vec<u8>, NoMemory>
    ensures { IfOk result (λ text. text.items ≡ lines.verdict_line said.Yes) }
{
    let mut text = Vec::new(alloc);
    text.extend_from_slice(b"audit yes\n")?;
    Ok(text)
}

fn missing_line(alloc: Global, shell: u32, txn: u32) -> Result<Vec<u8>, NoMemory>
    ensures { IfOk result (λ text. text.items ≡ lines.verdict_line (said.Missing shell txn)) }
{
    let mut text = Vec::new(alloc);
    add_field(&mut text, b"audit no Missing ", u64::from(shell))?;
    add_field(&mut text, b" ", u64::from(txn))?;
    text.extend_from_slice(b"\n")?;
    Ok(text)
}

/// The line that tells a verdict.
pub(crate) fn verdict_line(alloc: Global, verdict: Verdict) -> Result<Vec<u8>, NoMemory>
    ensures { IfOk result (λ text. text.items ≡ lines.verdict_line verdict) }
{
    match verdict {
        Verdict::Yes => yes_line(alloc),
        Verdict::BadLine(number) => line_of(alloc, b"audit no BadLine ", number),
        Verdict::Order(entry) => line_of(alloc, b"audit no Order ", entry),
        Verdict::Answer(entry) => line_of(alloc, b"audit no Answer ", entry),
        Verdict::Missing { shell, txn } => missing_line(alloc, shell, txn),
        Verdict::Retry(number) => line_of(alloc, b"audit no Retry ", number),
    }
}
