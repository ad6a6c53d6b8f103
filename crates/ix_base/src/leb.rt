//! LEB128 numbers at the front of bytes (DWARF 5, section 7.6), padded ones among them.

ghost use Rattle.std.specs.Prelude.{◌≡◌, ◌≤◌, length, position, nat_lt, IfSome};
ghost use Rattle.ix_base.specs.Reading.{leb64, signed_leb64};

// The index of the last byte of the number at the front.
fn last_of(bytes: &[u8]) -> Option<usize>
    ensures { result ≡ position (λ b. nat_lt b 128) bytes.now }
{
    bytes.iter().position(|b| *b < 128)
}

/// The unsigned number at the front, and how many bytes it takes.
pub(crate) fn unsigned(bytes: &[u8]) -> Option<(u64, usize)>
    ensures value { result ≡ leb64 bytes.now }
    ensures inside { IfSome result (λ n. n.1 ≤ length bytes.now) }
{
    let last = last_of(bytes)?;
    let mut value = u64::from(bytes[last]);
    for k in (0..last).rev() {
        let low = u64::from(bytes[k]) - 128;
        value = value.checked_mul(128)?.checked_add(low)?;
    }
    Some((value, last + 1))
}

/// The signed number at the front, and how many bytes it takes.
pub(crate) fn signed(bytes: &[u8]) -> Option<(i64, usize)>
    ensures value { result ≡ signed_leb64 bytes.now }
    ensures inside { IfSome result (λ n. n.1 ≤ length bytes.now) }
{
    let last = last_of(bytes)?;
    let top = bytes[last];
    let mut value = if top < 64 {
        i64::from(top)
    } else {
        i64::from(top) - 128
    };
    for k in (0..last).rev() {
        let low = i64::from(bytes[k] - 128);
        value = value.checked_mul(128)?.checked_add(low)?;
    }
    Some((value, last + 1))
}
