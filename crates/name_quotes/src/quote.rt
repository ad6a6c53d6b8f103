//! The bytes of a quoted name.

ghost use Rattle.std.specs.Prelude.{◌≡◌, ◌<◌, false, length};
ghost use Rattle.std.specs.Fmt.{digit_glyph};
ghost use Rattle.name_quotes.specs.Quotes.{escaped, is_shown};

/// How the names in a reply are written.
#[derive(Clone, Copy)]
pub enum Spelling {
    /// As they stand in the file.
    Plain,
    /// Quoted.
    Quoted,
}

/// Whether a byte of a name stands for itself in a quoted one.
pub fn is_shown(byte: u8) -> bool
    ensures { result ≡ is_shown byte }
{
    byte >= b' ' && byte != 0x7F && byte != b'\\'
}

/// What stands for another byte: `\xHH`.
pub fn escape(byte: u8) -> [u8; 4]
    ensures text { result ≡ escaped byte }
    ensures count { length result ≡ 4 }
{
    [b'\\', b'x', digit(byte / 16), digit(byte % 16)]
}

// The lower-case digit of a number below 16.
fn digit(number: u8) -> u8
    requires { number < 16 }
    ensures { result ≡ digit_glyph false number }
{
    if number < 10 {
        b'0' + number
    } else {
        b'a' + (number - 10)
    }
}
