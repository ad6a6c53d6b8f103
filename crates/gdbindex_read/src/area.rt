//! A part of the section, and the items that it is made of.

ghost use Rattle.std.specs.Prelude.{◌≡◌, ◌+◌, ◌<◌, ◌≤◌, ◌^◌, length, drop};
ghost use Rattle.byteorder.specs.Endian.{little_number};

use byteorder::{ByteOrder, LittleEndian};
use ix_base::Fault;

/// The bytes of an area, and where they begin in the section.
#[derive(Clone, Copy)]
pub(crate) struct Area<'a> {
    pub at: usize,
    pub bytes: &'a [u8],
    ghost ends: { at + length bytes.now < 2 ^ 63 },
}

impl<'a> Area<'a> {
    ghost use Rattle.std.specs.Prelude.{◌/◌};
    ghost use Rattle.index_model.specs.GdbAreas.{area_at};
    ghost use Rattle.gdbindex_read.specs.Areas.{area_seen, item};

    /// The bytes from one place of the section to another.
    pub fn between(section: &'a [u8], from: usize, to: usize) -> Area<'a>
        requires order { from ≤ to }
        requires inside { to ≤ length section.now }
        ensures { area_seen result ≡ area_at section.now from to }
    {
        Area {
            at: from,
            bytes: &section[from..to],
        }
    }

    /// How many items of `size` bytes each there are.
    pub fn count(&self, size: usize) -> usize
        requires { 0 < size }
        ensures { result ≡ length (area_seen self.now).rest / size }
    {
        self.bytes.len() / size
    }

    /// The item with this number among items of `size` bytes each.
    pub fn item(&self, size: usize, number: usize) -> Area<'a>
        requires some { 0 < size }
        requires within { number < length (area_seen self.now).rest / size }
        ensures value { area_seen result ≡ item size (area_seen self.now) number }
        ensures long { length result.bytes.now ≡ size }
    {
        let start = size * number;
        Area {
            at: self.at + start,
            bytes: &self.bytes[start..start + size],
        }
    }
}

/// The number in the four bytes from a place on, the lowest first.
pub(crate) fn u32_at(bytes: &[u8], at: usize) -> u32
    requires { at + 4 ≤ length bytes.now }
    ensures { result ≡ little_number 4 (drop at bytes.now) }
{
    LittleEndian::read_u32(&bytes[at..])
}

/// A code, and its place in the section.
pub(crate) fn fault(code: u8, at: usize) -> Fault
    ensures { result ≡ record { code = code; at = at } }
{
    Fault {
        code,
        at: at as u64,
    }
}
