//! Words and numbers at the front of bytes.
ghost use Rattle.std.specs.Prelude.{◌≡◌, true, pos, negsuc, ◌-◌, ◌<◌, ◌≤◌};
ghost use Rattle.std.specs.Option.{option_map};
ghost use Rattle.std.specs.List.{prefix_len, list_all};
ghost use Rattle.fx_read_report.specs.Numbers.{is_digit, after, number_of, leading_number, leading_integer, positive, negative, signed};

use itoa::Buffer;
use std::str;

/// What stands behind the words, if the bytes begin with them.
#[tactic(auto, using(crate::proofs::Digits::after_is))]
pub(crate) fn after<'a>(bytes: &'a [u8], words: &[u8]) -> Option<&'a [u8]>
    ensures { option_map (λ rest. rest.now) result ≡ after words.now bytes.now }
{
    bytes.strip_prefix(words)
}

fn is_digit(byte: u8) -> bool
    ensures { result ≡ is_digit byte }
{
    byte.is_ascii_digit()
}

/// How many bytes at the front are digits.
fn digits_len(bytes: &[u8]) -> usize
    ensures { result ≡ prefix_len is_digit bytes.now }
{
    for (at, byte) in bytes.iter().enumerate() {
        if !is_digit(*byte) {
            return at;
        }
    }
    bytes.len()
}

/// The number whose decimal text this is, if a `u64` holds it.
fn decimal_of(text: &str) -> Option<u64>
    ensures { result ≡ number_of text.now }
{
    let number: u64 = text.parse().ok()?;
    let mut buffer = Buffer::new();
    if buffer.format(number) != text {
        return None;
    }
    Some(number)
}

/// The number whose decimal text the digits are.
fn number_of(digits: &[u8]) -> Option<u64>
    requires { list_all is_digit digits.now ≡ true }
    ensures { result ≡ number_of digits.now }
{
    match str::from_utf8(digits) {
        Ok(text) => decimal_of(text),
        Err(_) => None,
    }
}

/// The number at the front, up to the first byte that is no digit, and what stands behind it.
#[tactic(auto, using(crate::proofs::Digits::front_digits), unfolding(crate::specs::Numbers::leading_number))]
pub(crate) fn leading_number(bytes: &[u8]) -> Option<(u64, &[u8])>
    ensures { option_map (λ r. (r.0, r.1.now)) result ≡ leading_number bytes.now }
{
    let count = digits_len(bytes);
    match number_of(&bytes[..count]) {
        Some(number) => Some((number, &bytes[count..])),
        None => None,
    }
}

fn positive(number: u64) -> Option<i64>
    ensures { result ≡ positive number }
{
    if number < 0x8000_0000_0000_0000 {
        Some(number as i64)
    } else {
        None
    }
}

fn negative(number: u64) -> Option<i64>
    ensures { result ≡ negative number }
{
    if number == 0 {
        return None;
    }
    if number > 0x8000_0000_0000_0000 {
        return None;
    }
    Some(-1 - ((number - 1) as i64))
}

fn positive_at(bytes: &[u8]) -> Option<(i64, &[u8])>
    ensures { option_map (λ r. (r.0, r.1.now)) result ≡ signed positive (leading_number bytes.now) }
{
    match leading_number(bytes) {
        Some((number, rest)) => match positive(number) {
            Some(integer) => Some((integer, rest)),
            None => None,
        },
        None => None,
    }
}

fn negative_at(bytes: &[u8]) -> Option<(i64, &[u8])>
    ensures { option_map (λ r. (r.0, r.1.now)) result ≡ signed negative (leading_number bytes.now) }
{
    match leading_number(bytes) {
        Some((number, rest)) => match negative(number) {
            Some(integer) => Some((integer, rest)),
            None => None,
        },
        None => None,
    }
}

/// The integer at the front, up to the first byte that is no digit, and what stands behind it.
#[tactic(auto, unfolding(crate::specs::Numbers::leading_integer))]
pub(crate) fn leading_integer(bytes: &[u8]) -> Option<(i64, &[u8])>
    ensures { option_map (λ r. (r.0, r.1.now)) result ≡ leading_integer bytes.now }
{
    match after(bytes, b"-") {
        Some(digits) => negative_at(digits),
        None => positive_at(bytes),
    }
}
