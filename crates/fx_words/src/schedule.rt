//! Schedules of shells.
ghost use Rattle.std.specs.Prelude.{◌≡◌, ◌≤◌, true, Some, IfOk, is_some};
ghost use Rattle.std.specs.List.{list_all, slice_split};
ghost use Rattle.fx_base.specs.Limits.{shell_limit};
ghost use Rattle.fx_words.specs.Job as job;
ghost use Rattle.fx_words.specs.Job.{is_comma};

use crate::decimal::shell_named;
use fx_base::NoMemory;
use std::alloc::Global;

fn is_comma(byte: &u8) -> bool
    ensures { result ≡ is_comma byte.now }
{
    *byte == b','
}

fn names_shell(count: u32, text: &[u8]) -> bool
    requires { count ≤ shell_limit }
    ensures { result ≡ is_some (job.decimal_number count text.now) }
{
    shell_named(count, text).is_some()
}

/// Whether each part between commas names a shell.
fn are_shells(count: u32, text: &[u8]) -> bool
    requires { count ≤ shell_limit }
    ensures { result ≡ list_all (λ part. is_some (job.decimal_number count part))
        (slice_split is_comma text.now) }
{
    text.split(|b| is_comma(b))
        .all(|part| names_shell(count, part))
}

/// Whether a text is a schedule of so many shells.
pub(crate) fn is_schedule(count: u32, text: &[u8]) -> bool
    requires { count ≤ shell_limit }
    ensures { result ≡ is_some (job.schedule_of count text.now) }
{
    if text == b"none".as_slice() {
        return true;
    }
    are_shells(count, text)
}

/// The shells that the parts between commas name.
fn shells_of(alloc: Global, count: u32, text: &[u8]) -> Result<Vec<u32>, NoMemory>
    requires count { count ≤ shell_limit }
    requires shells { list_all (λ part. is_some (job.decimal_number count part))
        (slice_split is_comma text.now) ≡ true }
    ensures { IfOk result
        (λ shells. job.shells_named count (slice_split is_comma text.now) ≡ Some shells.items) }
{
    let mut shells = Vec::new(alloc);
    for part in text.split(|b| is_comma(b)) {
        match shell_named(count, part) {
            Some(shell) => shells.push(shell)?,
            None => unreachable!(),
        }
    }
    Ok(shells)
}

/// The shells of a schedule, in order.
pub(crate) fn read_schedule(alloc: Global, count: u32, text: &[u8]) -> Result<Vec<u32>, NoMemory>
    requires count { count ≤ shell_limit }
    requires schedule { is_some (job.schedule_of count text.now) ≡ true }
    ensures { IfOk result (λ shells. job.schedule_of count text.now ≡ Some shells.items) }
{
    if text == b"none".as_slice() {
        return Ok(Vec::new(alloc));
    }
    let shells = shells_of(alloc, count, text)?;
    Ok(shells)
}
