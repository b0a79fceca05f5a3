//! The parts of a line.
ghost use Rattle.std.specs.Prelude.{◌≡◌, IfOk, IfSome};
ghost use Rattle.std.specs.Option.{option_map};
ghost use Rattle.fx_store.specs.Faults.{read_path};
ghost use Rattle.fx_store.specs.Names.{IsPath};
ghost use Rattle.fx_read_report.specs.Form.{IsFormEnd, IsFormRefusal};
ghost use Rattle.fx_read_report.specs.Limits.{path_or_none, strict};
ghost use Rattle.fx_read_report.specs.Reads.{blocked_at, end_at, fault_at, field_at, last_at, path_at, plain_of, refusal_at, small_at, stop_at};

use crate::numbers::{after, leading_number};
use crate::quotes::unquoted;
use fx_base::NoMemory;
use fx_expr::ExprFault;
use fx_spec::{End, Refusal};
use fx_store::{Path, PathFault};
use std::alloc::Global;

/// The number behind words, and what stands behind it.
#[tactic(auto, unfolding(crate::specs::Reads::field_at))]
pub(crate) fn field<'a>(bytes: &'a [u8], words: &[u8]) -> Option<(u64, &'a [u8])>
    ensures { option_map (λ r. (r.0, r.1.now)) result ≡ field_at words.now bytes.now }
{
    match after(bytes, words) {
        Some(digits) => leading_number(digits),
        None => None,
    }
}

/// The number of 32 bits behind words, and what stands behind it.
#[tactic(auto, unfolding(crate::specs::Reads::small_at))]
pub(crate) fn small_field<'a>(bytes: &'a [u8], words: &[u8]) -> Option<(u32, &'a [u8])>
    ensures { option_map (λ r. (r.0, r.1.now)) result ≡ small_at words.now bytes.now }
{
    match field(bytes, words) {
        Some((number, rest)) => {
            if number < 0x1_0000_0000 {
                Some((number as u32, rest))
            } else {
                None
            }
        }
        None => None,
    }
}

/// The number behind words, with nothing behind it.
#[tactic(auto, unfolding(crate::specs::Reads::last_at))]
pub(crate) fn last_field(bytes: &[u8], words: &[u8]) -> Option<u64>
    ensures { result ≡ last_at words.now bytes.now }
{
    match field(bytes, words) {
        Some((number, [])) => Some(number),
        Some((_, [_, ..])) => None,
        None => None,
    }
}

/// The path of a quote, with nothing behind it.
#[tactic(auto, unfolding(crate::specs::Reads::path_at))]
pub(crate) fn quoted_path(alloc: Global, bytes: &[u8]) -> Result<Option<Path>, NoMemory>
    ensures read { IfOk result (λ path. path ≡ path_at strict bytes.now) }
    ensures fit { IfOk result (λ path. IfSome path IsPath) }
{
    match unquoted(alloc, bytes)? {
        Some((text, [])) => path_of(alloc, &text),
        Some((_, [_, ..])) => Ok(None),
        None => Ok(None),
    }
}

fn path_of(alloc: Global, text: &[u8]) -> Result<Option<Path>, NoMemory>
    ensures read { IfOk result (λ path. path ≡ path_or_none (read_path text.now)) }
    ensures fit { IfOk result (λ path. IfSome path IsPath) }
{
    match Path::read(alloc, text) {
        Ok(path) => Ok(Some(path)),
        Err(PathFault::NoMemory) => Err(NoMemory),
        Err(PathFault::BadName) => Ok(None),
        Err(PathFault::TooDeep) => Ok(None),
    }
}

fn plain_of(number: u64) -> Option<Refusal>
    ensures read { result ≡ plain_of number }
    ensures fit { IfSome result IsFormRefusal }
{
    match number {
        1 => Some(Refusal::NoStep),
        2 => Some(Refusal::NoElement),
        3 => Some(Refusal::NoPlace),
        4 => Some(Refusal::Lacks),
        5 => Some(Refusal::WrongForm),
        7 => Some(Refusal::TooDeep),
        8 => Some(Refusal::BadName),
        9 => Some(Refusal::NoDefault),
        11 => Some(Refusal::Absent),
        12 => Some(Refusal::Exists),
        13 => Some(Refusal::TooUnfolded),
        _ => None,
    }
}

#[tactic(auto, unfolding(crate::specs::Reads::fault_at))]
fn fault_refusal(name: &[u8]) -> Option<Refusal>
    ensures read { result ≡ fault_at name.now }
    ensures fit { IfSome result IsFormRefusal }
{
    if name == b"Expr TooLong".as_slice() {
        return Some(Refusal::Expr(ExprFault::TooLong));
    }
    if name == b"Expr Overflow".as_slice() {
        return Some(Refusal::Expr(ExprFault::Overflow));
    }
    if name == b"Expr NotNumber".as_slice() {
        return Some(Refusal::Expr(ExprFault::NotNumber));
    }
    None
}

#[tactic(auto, unfolding(crate::specs::Reads::blocked_at))]
fn blocked_refusal(alloc: Global, name: &[u8]) -> Result<Option<Refusal>, NoMemory>
    ensures read { IfOk result (λ refusal. refusal ≡ blocked_at strict name.now) }
    ensures fit { IfOk result (λ refusal. IfSome refusal IsFormRefusal) }
{
    match after(name, b"Blocked ") {
        Some(quote) => match quoted_path(alloc, quote)? {
            Some(path) => Ok(Some(Refusal::Blocked(path))),
            None => Ok(None),
        },
        None => Ok(None),
    }
}

/// The refusal of a number, and of a name where it carries something.
#[tactic(auto, unfolding(crate::specs::Reads::refusal_at))]
fn refusal(alloc: Global, number: u64, name: &[u8]) -> Result<Option<Refusal>, NoMemory>
    ensures read { IfOk result (λ refusal. refusal ≡ refusal_at strict number name.now) }
    ensures fit { IfOk result (λ refusal. IfSome refusal IsFormRefusal) }
{
    if number == 6 {
        return blocked_refusal(alloc, name);
    }
    if number == 10 {
        return Ok(fault_refusal(name));
    }
    Ok(plain_of(number))
}

#[tactic(auto, unfolding(crate::specs::Reads::stop_at))]
fn stop(alloc: Global, bytes: &[u8]) -> Result<Option<End>, NoMemory>
    ensures read { IfOk result (λ end. end ≡ stop_at strict bytes.now) }
    ensures fit { IfOk result (λ end. IfSome end IsFormEnd) }
{
    let Some((command, rest)) = small_field(bytes, b"stopped ") else {
        return Ok(None);
    };
    let Some((number, rest)) = field(rest, b" ") else {
        return Ok(None);
    };
    let Some(name) = after(rest, b" ") else {
        return Ok(None);
    };
    match refusal(alloc, number, name)? {
        Some(refusal) => Ok(Some(End::Stopped { command, refusal })),
        None => Ok(None),
    }
}

/// How a transaction ended.
#[tactic(auto, unfolding(crate::specs::Reads::end_at))]
pub(crate) fn end(alloc: Global, bytes: &[u8]) -> Result<Option<End>, NoMemory>
    ensures read { IfOk result (λ end. end ≡ end_at strict bytes.now) }
    ensures fit { IfOk result (λ end. IfSome end IsFormEnd) }
{
    if bytes == b"done".as_slice() {
        return Ok(Some(End::Done));
    }
    if bytes == b"aborted".as_slice() {
        return Ok(Some(End::Aborted));
    }
    stop(alloc, bytes)
}
