//! Decimal numbers in words.

ghost use Rattle.std.specs.Prelude.{◌≡◌, ◌≤◌};
ghost use Rattle.std.specs.Option.{ForSome};
ghost use Rattle.command_words.specs.Numbers.{digits_value, has_leading_zero, number_between};

/// The number that the digits stand for; None where there are none, another byte stands among them, or the number
/// doesn't fit in 32 bits.
fn digits(text: &[u8]) -> Option<u32>
    ensures { result ≡ digits_value text.now }
{
    if text.is_empty() {
        return None;
    }
    let mut value = 0u32;
    for byte in text {
        if !byte.is_ascii_digit() {
            return None;
        }
        let digit = u32::from(*byte - b'0');
        value = value.checked_mul(10)?.checked_add(digit)?;
    }
    Some(value)
}

fn has_leading_zero(text: &[u8]) -> bool
    ensures { result ≡ has_leading_zero text.now }
{
    text.len() > 1 && text[0] == b'0'
}

/// A number from `low` to `high` in decimal digits without a sign or a leading zero.
pub(crate) fn number(text: &[u8], low: u32, high: u32) -> Option<u32>
    ensures value { result ≡ number_between low high text.now }
    ensures within { ForSome result (λ n. (low ≤ n) × (n ≤ high)) }
{
    let value = digits(text)?;
    if has_leading_zero(text) || value < low || value > high {
        return None;
    }
    Some(value)
}
