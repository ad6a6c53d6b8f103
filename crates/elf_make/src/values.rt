//! Names and addresses of entries.

ghost use Rattle.std.specs.Prelude.{◌≡◌, ◌<◌, ◌∷◌, ◌++◌, OnOk};
ghost use Rattle.index_model.specs.Layout.{ended};
ghost use Rattle.elf_make.specs.Packed.{word, xword};
ghost use Rattle.elf_make.specs.Generated.{hex_sign, hex_digits};

use crate::header::{push_word, push_xword};
use ix_base::NoMemory;

/// Appends a text and the zero that ends it.
pub(crate) fn push_text(out: &mut Vec<u8>, text: &[u8]) -> Result<(), NoMemory>
    ensures { OnOk result (out.new.items ≡ out.old.items ++ ended text.now) }
{
    out.extend_from_slice(text)?;
    out.push(0)?;
    Ok(())
}

/// Appends a name of a letter and a number in 8 hexadecimal digits, and a zero.
pub(crate) fn push_numbered(out: &mut Vec<u8>, letter: u8, number: u32) -> Result<(), NoMemory>
    ensures { OnOk result (out.new.items ≡ out.old.items ++ ended (letter ∷ hex_digits number)) }
{
    out.push(letter)?;
    out.extend_from_slice(&hex(number))?;
    out.push(0)?;
    Ok(())
}

/// Appends the name of the file of a unit, and a zero.
pub(crate) fn push_file_name(out: &mut Vec<u8>, number: u32, ending: &[u8]) -> Result<(), NoMemory>
    ensures { OnOk result (out.new.items ≡ out.old.items ++ ended (117 ∷ hex_digits number ++ ending.now)) }
{
    out.push(b'u')?;
    out.extend_from_slice(&hex(number))?;
    push_text(out, ending)
}

/// Appends an address and how many bytes lie there.
pub(crate) fn push_addresses(out: &mut Vec<u8>, low: u64, size: u32) -> Result<(), NoMemory>
    ensures { OnOk result (out.new.items ≡ out.old.items ++ (xword low ++ word size)) }
{
    push_xword(out, low)?;
    push_word(out, size)
}

fn hex(number: u32) -> [u8; 8]
    ensures { result ≡ hex_digits number }
{
    [
        hex_digit(number / 0x1000_0000 % 16),
        hex_digit(number / 0x100_0000 % 16),
        hex_digit(number / 0x10_0000 % 16),
        hex_digit(number / 0x1_0000 % 16),
        hex_digit(number / 0x1000 % 16),
        hex_digit(number / 0x100 % 16),
        hex_digit(number / 0x10 % 16),
        hex_digit(number % 16),
    ]
}

fn hex_digit(digit: u32) -> u8
    requires { digit < 16 }
    ensures { result ≡ hex_sign digit }
{
    if digit < 10 {
        b'0' + digit as u8
    } else {
        b'a' + (digit - 10) as u8
    }
}
