//! The decimal texts of numbers.
ghost use Rattle.std.specs.Prelude.{◌≡◌, ◌<◌, ◌≤◌, ◌^◌, bytes_eq};
ghost use Rattle.std.specs.Fmt.{decimal};
ghost use Rattle.fx_base.specs.Limits.{shell_limit};
ghost use Rattle.fx_words.specs.Job as job;

use itoa::Buffer;

/// Whether a text is the decimal text of a number below 100.
fn is_decimal(number: u32, text: &[u8]) -> bool
    requires { number < 100 }
    ensures { result ≡ bytes_eq (decimal number) text.now }
{
    let tens = b'0' + (number / 10) as u8;
    let ones = b'0' + (number % 10) as u8;
    if number < 10 {
        return [ones].as_slice() == text;
    }
    [tens, ones].as_slice() == text
}

/// The number below a count whose decimal text this is: the shell that the text names, of so many shells.
pub(crate) fn shell_named(count: u32, text: &[u8]) -> Option<u32>
    requires { count ≤ shell_limit }
    ensures { result ≡ job.decimal_number count text.now }
{
    for k in 0..count {
        if is_decimal(k, text) {
            return Some(k);
        }
    }
    None
}

/// The number whose decimal text this is, if a `u32` holds it.
pub(crate) fn number_of(text: &str) -> Option<u32>
    ensures { result ≡ job.decimal_number (2 ^ 32) text.now }
{
    let number: u32 = text.parse().ok()?;
    let mut buffer = Buffer::new();
    if buffer.format(number) != text {
        return None;
    }
    Some(number)
}
