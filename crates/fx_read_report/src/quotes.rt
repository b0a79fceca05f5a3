//! Bytes between quotation marks.
ghost use Rattle.std.specs.Prelude.{◌≡◌, ◌<◌, IfOk, IfSome};
ghost use Rattle.std.specs.Option.{option_map};
ghost use Rattle.fx_read_report.specs.Quotes.{digit_value, plain_step, escape_step, high_step, low_step, step, scan, unquoted, IsPlace, GoesToPlace};

use fx_base::NoMemory;
use std::alloc::Global;

/// A place between quotation marks: before the spelling of a byte, or within one.
#[derive(Clone, Copy)]
pub(crate) enum Place {
    Plain,
    /// Behind `\`.
    Escape,
    /// Behind `\x`.
    High,
    /// Behind `\x` and a digit of this value.
    Low(u8),
}

/// What follows from one more byte.
#[derive(Clone, Copy)]
pub(crate) enum Step {
    Go(Place),
    Byte(u8),
    End,
    Bad,
}

/// The value of a lower-case hexadecimal digit.
#[tactic(auto, using(std::proofs::lemmas::Bool::Decides::nat_tests))]
fn digit_value(digit: u8) -> Option<u8>
    ensures value { result ≡ digit_value digit }
    ensures small { IfSome result (λ d. d < 16) }
{
    if digit < b'0' {
        return None;
    }
    if digit <= b'9' {
        return Some(digit - b'0');
    }
    if digit < b'a' {
        return None;
    }
    if digit <= b'f' {
        return Some(digit - b'a' + 10);
    }
    None
}

#[tactic(auto, using(std::proofs::lemmas::Bool::Decides::nat_tests))]
fn plain_step(byte: u8) -> Step
    ensures value { result ≡ plain_step byte }
    ensures within { GoesToPlace result }
{
    match byte {
        b'"' => Step::End,
        b'\\' => Step::Go(Place::Escape),
        b' '..=b'~' => Step::Byte(byte),
        _ => Step::Bad,
    }
}

fn escape_step(byte: u8) -> Step
    ensures value { result ≡ escape_step byte }
    ensures within { GoesToPlace result }
{
    match byte {
        b'"' => Step::Byte(b'"'),
        b'\\' => Step::Byte(b'\\'),
        b'n' => Step::Byte(b'\n'),
        b'x' => Step::Go(Place::High),
        _ => Step::Bad,
    }
}

fn high_step(digit: Option<u8>) -> Step
    requires { IfSome digit (λ d. d < 16) }
    ensures value { result ≡ high_step digit }
    ensures within { GoesToPlace result }
{
    match digit {
        Some(high) => Step::Go(Place::Low(high)),
        None => Step::Bad,
    }
}

fn low_step(high: u8, digit: Option<u8>) -> Step
    requires high { high < 16 }
    requires low { IfSome digit (λ d. d < 16) }
    ensures value { result ≡ low_step high digit }
    ensures within { GoesToPlace result }
{
    match digit {
        Some(low) => Step::Byte(16 * high + low),
        None => Step::Bad,
    }
}

/// What follows at a place from one more byte.
fn next_step(place: Place, byte: u8) -> Step
    requires { IsPlace place }
    ensures value { result ≡ step place byte }
    ensures within { GoesToPlace result }
{
    match place {
        Place::Plain => plain_step(byte),
        Place::Escape => escape_step(byte),
        Place::High => high_step(digit_value(byte)),
        Place::Low(high) => low_step(high, digit_value(byte)),
    }
}

/// The bytes that are spelled up to the closing mark, and what stands behind it.
fn scanned(alloc: Global, bytes: &[u8]) -> Result<Option<(Vec<u8>, &[u8])>, NoMemory>
    ensures { IfOk result
        (λ read. option_map (λ r. (r.0.items, r.1.now)) read ≡ scan Place.Plain bytes.now) }
{
    let mut text = Vec::new(alloc);
    let mut place = Place::Plain;
    for (at, byte) in bytes.iter().enumerate() {
        match next_step(place, *byte) {
            Step::Go(next) => place = next,
            Step::Byte(spelled) => {
                text.push(spelled)?;
                place = Place::Plain;
            }
            Step::End => return Ok(Some((text, &bytes[at + 1..]))),
            Step::Bad => return Ok(None),
        }
    }
    Ok(None)
}

/// The bytes between quotation marks at the front, and what stands behind them.
#[tactic(auto, unfolding(crate::specs::Quotes::unquoted))]
pub(crate) fn unquoted(alloc: Global, bytes: &[u8]) -> Result<Option<(Vec<u8>, &[u8])>, NoMemory>
    ensures { IfOk result
        (λ read. option_map (λ r. (r.0.items, r.1.now)) read ≡ unquoted bytes.now) }
{
    match bytes.split_first() {
        Some((b'"', rest)) => scanned(alloc, rest),
        Some((_, _)) => Ok(None),
        None => Ok(None),
    }
}
