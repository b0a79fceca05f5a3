ghost use Rattle.std.specs.Prelude.{◌≡◌, ◌+◌, ◌-◌, ◌*◌, ◌^◌, ◌<◌, ◌≤◌, pos, IfSome, IfNone, SomeIff};
ghost use Rattle.fx_lex.specs.Spelling.{IsDigitRun, HasNoLeadingZero, digits_value, number_limit};

/// Ten times the value, and the digit.
fn with_digit(value: u64, digit: u8) -> Option<u64>
    requires { 48 ≤ digit }
    ensures { SomeIff result (10 * value + (digit - 48) < 2 ^ 64) (10 * value + (digit - 48)) }
{
    value.checked_mul(10)?.checked_add(u64::from(digit - b'0'))
}

/// What digits write in base ten, if it is below 2 ^ 64.
fn value_of(digits: &[u8]) -> Option<u64>
    requires { IsDigitRun digits.now }
    ensures { SomeIff result (digits_value digits.now < 2 ^ 64) (digits_value digits.now) }
{
    let mut value = 0;
    for digit in digits {
        match with_digit(value, *digit) {
            Some(next) => value = next,
            None => return None,
        }
    }
    Some(value)
}

/// The number that digits spell; None exactly where a digit follows a `0` at the front, or the number is above the limit.
pub(crate) fn number_of(digits: &[u8]) -> Option<i64>
    requires { IsDigitRun digits.now }
    ensures some { IfSome result
        (λ n. HasNoLeadingZero digits.now × (digits_value digits.now ≤ number_limit)
        × (n ≡ pos (digits_value digits.now))) }
    ensures none { IfNone result
        (HasNoLeadingZero digits.now → digits_value digits.now ≤ number_limit → ⊥) }
{
    if digits.len() > 1 && digits[0] == b'0' {
        return None;
    }
    let value = value_of(digits)?;
    if value <= 0x7fff_ffff_ffff_ffff {
        Some(value as i64)
    } else {
        None
    }
}
