//! The elements of a vector of the constant pool.

ghost use Rattle.std.specs.Prelude.{◌≡◌, ◌<◌, ◌==◌, [], length, nat_lt, slice_index, IfSome, option_map};
ghost use Rattle.std.specs.List.{list_all};
ghost use Rattle.index_model.specs.GdbIndexRead.{unit_in};
ghost use Rattle.gdbindex_read.specs.Pool.{vector_in};

use crate::area::u32_at;
use ix_base::Cursor;
use std::marker::Model;

/// The elements of a name, in the order of the index. An element has the index number of a unit in its bits 0 to 23, the
/// kind of the symbol in its bits 28 to 30, and its bit 31 is set where the symbol is static. Contracts see them as a list of
/// numbers.
#[derive(Drop)]
pub struct Elements<'a> {
    bytes: &'a [u8],
}

pub(crate) const ELEMENT_LENGTH: usize = 4;

/// The bits of an element that are the index number of its unit.
const UNIT_BITS: u32 = 0x00ff_ffff;

/// Whether an element has the index number of one of so many units.
pub(crate) fn is_of(element: u32, units: usize) -> bool
    ensures { result ≡ nat_lt (unit_in element) units }
{
    ((element & UNIT_BITS) as usize) < units
}

impl<'a> Model for Elements<'a> {
    ghost use Rattle.std.specs.Prelude.{List, ℕ};

    ghost Value = { List ℕ };

    ghost use Rattle.gdbindex_read.specs.Pool.{elements_seen};

    ghost view = { λ e. elements_seen e.bytes.now };
}

impl<'a> Elements<'a> {
    /// No elements.
    pub(crate) fn none() -> Elements<'a>
        ensures { result ≡ [] }
    {
        Elements { bytes: &[] }
    }

    /// The vector at an offset of the constant pool, if all of it lies in the pool.
    pub(crate) fn read(pool: &'a [u8], offset: u32) -> Option<Elements<'a>>
        ensures { result ≡ vector_in pool.now offset }
    {
        let offset = offset as usize;
        if offset > pool.len() {
            return None;
        }
        let mut vector = Cursor::new(pool, offset);
        let count = vector.u32()?;
        let bytes = vector.bytes(ELEMENT_LENGTH as u64 * u64::from(count))?;
        Some(Elements { bytes })
    }

    /// How many elements there are.
    pub fn len(&self) -> usize
        ensures { result ≡ length self.now }
    {
        self.bytes.len() / ELEMENT_LENGTH
    }

    /// Whether there are none.
    pub fn is_empty(&self) -> bool
        ensures { result ≡ (length self.now == 0) }
    {
        self.len() == 0
    }

    /// The element with this number, counted from 0.
    pub fn get(&self, i: usize) -> u32
        requires { i < length self.now }
        ensures { result ≡ slice_index self.now i }
    {
        u32_at(self.bytes, ELEMENT_LENGTH * i)
    }

    /// Whether each element has the index number of one of so many units.
    pub(crate) fn are_of(&self, units: usize) -> bool
        ensures { result ≡ list_all (λ e. nat_lt (unit_in e) units) self.now }
    {
        let count = self.len();
        for i in 0..count {
            if !is_of(self.get(i), units) {
                return false;
            }
        }
        true
    }
}
