//! Hexadecimal numbers of query lines.

ghost use Rattle.std.specs.Prelude.{◌≡◌, ◌<◌, IfSome, Some, None, if◌then◌else◌};
ghost use Rattle.index_model.specs.Queries.{hex_number, is_hex_digit, hex_digit};

/// How many digits an address has at most.
const MAX_DIGITS: usize = 16;

/// The number that 1 to 16 digits of either case stand for; None where the text is anything else.
pub(crate) fn hex_number(text: &[u8]) -> Option<u64>
    ensures { result ≡ hex_number text.now }
{
    if text.is_empty() || text.len() > MAX_DIGITS {
        return None;
    }
    let mut value = 0;
    for byte in text {
        value = 16 * value + hex_digit(*byte)?;
    }
    Some(value)
}

// The number of a digit of either case.
fn hex_digit(byte: u8) -> Option<u64>
    ensures value { result ≡ (if is_hex_digit byte then Some (hex_digit byte) else None) }
    ensures small { IfSome result (λ digit. digit < 16) }
{
    let digit = match byte {
        b'0'..=b'9' => byte - b'0',
        b'a'..=b'f' => byte - b'a' + 10,
        b'A'..=b'F' => byte - b'A' + 10,
        _ => return None,
    };
    Some(u64::from(digit))
}
