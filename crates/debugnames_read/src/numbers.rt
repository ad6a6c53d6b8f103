//! A table of numbers of one size.

ghost use Rattle.std.specs.Prelude.{◌≡◌, ◌<◌, ◌+◌, ◌*◌, ◌^◌, ◌≤◌, length, drop, IfSome};
ghost use Rattle.byteorder.specs.Endian.{little_number};
ghost use Rattle.ix_base.specs.Moves.{MovesOn, Reads};
ghost use Rattle.index_model.specs.Layout.{nth};
ghost use Rattle.index_model.specs.NameIndexRead.{place_in};
ghost use Rattle.index_model.specs.NameTables.{table};
ghost use Rattle.index_model.specs.Strings.{offset_size};

use byteorder::{ByteOrder, LittleEndian};
use ix_base::Cursor;

/// Numbers of 8 bytes each, or of 4, the lowest byte first.
#[derive(Clone, Copy)]
pub(crate) struct Numbers<'a> {
    at: usize,
    bytes: &'a [u8],
    wide: bool,
    ghost ends: { at + length bytes.now < 2 ^ 63 },
}

impl<'a> Numbers<'a> {
    ghost use Rattle.debugnames_read.specs.Numbers.{number_count, table_seen};

    /// The next `count` numbers.
    pub fn read(wide: bool, count: u32, cursor: &mut Cursor<'a>) -> Option<Numbers<'a>>
        requires { cursor.old.at + length cursor.old.rest < 2 ^ 63 }
        ensures value { Reads table_seen (table (offset_size wide) count) cursor.old cursor.new result }
        ensures count { IfSome result (λ t. number_count t.wide t.bytes.now ≡ count) }
        ensures size { IfSome result (λ t. t.wide ≡ wide) }
        ensures place { MovesOn cursor.old cursor.new }
    {
        let at = cursor.at();
        let bytes = cursor.bytes(size_of(wide) as u64 * u64::from(count))?;
        Some(Numbers { at, bytes, wide })
    }

    /// How many numbers there are.
    pub fn len(&self) -> usize
        ensures { result ≡ length (table_seen self.now).numbers }
    {
        self.bytes.len() / size_of(self.wide)
    }

    /// Where the number with this index stands in the section.
    pub fn place(&self, k: usize) -> usize
        requires { k < length (table_seen self.now).numbers }
        ensures { result ≡ place_in (offset_size self.now.wide) (table_seen self.now) k }
    {
        self.at + size_of(self.wide) * k
    }

    /// The number with this index.
    pub fn get(&self, k: usize) -> u64
        requires { k < length (table_seen self.now).numbers }
        ensures { result ≡ nth (table_seen self.now).numbers k }
    {
        let at = size_of(self.wide) * k;
        if self.wide {
            u64_at(self.bytes, at)
        } else {
            u64::from(u32_at(self.bytes, at))
        }
    }
}

/// How many bytes a number has.
pub(crate) fn size_of(wide: bool) -> usize
    ensures { result ≡ offset_size wide }
{
    if wide { 8 } else { 4 }
}

// The number in the eight bytes from a place on, the lowest first.
fn u64_at(bytes: &[u8], at: usize) -> u64
    requires { at + 8 ≤ length bytes.now }
    ensures { result ≡ little_number 8 (drop at bytes.now) }
{
    LittleEndian::read_u64(&bytes[at..])
}

// The number in the four bytes from a place on, the lowest first.
fn u32_at(bytes: &[u8], at: usize) -> u32
    requires { at + 4 ≤ length bytes.now }
    ensures { result ≡ little_number 4 (drop at bytes.now) }
{
    LittleEndian::read_u32(&bytes[at..])
}
