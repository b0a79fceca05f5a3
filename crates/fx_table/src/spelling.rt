//! How the table file spells bytes: the reader of a spelled text.
ghost use Rattle.std.specs.Prelude.{◌≡◌, ◌+◌, ◌<◌, ◌≤◌, length, drop, Some, IfOk, IfSome, option_map};
ghost use Rattle.fx_table.specs.TableSpelling.{is_plain_byte, upper_digit_value, escaped, plain_byte, unspelled};
ghost use Rattle.fx_table.specs.Unspells.{IsFirstByte};

use fx_base::NoMemory;
use std::alloc::Global;

/// The bytes that a text spells: `None` where it spells none.
pub(crate) fn unspelled(alloc: Global, text: &[u8]) -> Result<Option<Vec<u8>>, NoMemory>
    ensures { IfOk result (λ bytes. option_map (λ v. v.items) bytes ≡ unspelled text.now) }
{
    let mut bytes = Vec::new(alloc);
    let mut i = 0;
    while i < text.len() {
        match first_byte(&text[i..]) {
            Some((byte, count)) => {
                bytes.push(byte)?;
                i += count;
            }
            None => return Ok(None),
        }
    }
    Ok(Some(bytes))
}

/// The first byte that a text spells, and how many characters spell it.
fn first_byte(text: &[u8]) -> Option<(u8, usize)>
    requires { 0 < length text.now }
    ensures { IsFirstByte text.now result }
{
    if text.len() >= 3 {
        if text[0] == b'%' {
            return escaped_byte(text[1], text[2]);
        }
    }
    plain_byte(text[0])
}

fn escaped_byte(high: u8, low: u8) -> Option<(u8, usize)>
    ensures { result ≡ option_map (λ b. record { 0 = b; 1 = 3 })
        (escaped (upper_digit_value high) (upper_digit_value low)) }
{
    let high = digit_value(high)?;
    let low = digit_value(low)?;
    let byte = 16 * high + low;
    if is_plain(byte) {
        return None;
    }
    Some((byte, 3))
}

fn plain_byte(character: u8) -> Option<(u8, usize)>
    ensures { result ≡ option_map (λ b. record { 0 = b; 1 = 1 }) (plain_byte character) }
{
    if is_plain(character) {
        return Some((character, 1));
    }
    None
}

/// The value of an upper-case hexadecimal digit.
#[tactic(auto, using(std::proofs::lemmas::Bool::Decides::nat_tests))]
fn digit_value(digit: u8) -> Option<u8>
    ensures value { result ≡ upper_digit_value digit }
    ensures small { IfSome result (λ d. d < 16) }
{
    if digit < 48 {
        return None;
    }
    if digit <= 57 {
        return Some(digit - 48);
    }
    if digit < 65 {
        return None;
    }
    if digit <= 70 {
        return Some(digit - 55);
    }
    None
}

/// Whether a character stands for itself.
#[tactic(auto, using(std::proofs::lemmas::Bool::Decides::nat_tests))]
fn is_plain(character: u8) -> bool
    ensures { result ≡ is_plain_byte character }
{
    if character < 33 {
        return false;
    }
    if character > 126 {
        return false;
    }
    character != b'%'
}
