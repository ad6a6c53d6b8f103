//! The first bytes of a text as a number, which orders most texts at one comparison.

ghost use Rattle.std.specs.Prelude.{◌≡◌};
ghost use Rattle.std.specs.Ordering.{nat_cmp};
ghost use Rattle.std.specs.Cmp.Lexicographic.{slice_cmp};
ghost use Rattle.query_engine.specs.Front.{front, IsFrontOf};

use std::cmp::Ordering;

// So many bytes make a `u64`.
const WIDTH: usize = 8;

/// A text beside its front.
#[derive(Clone, Copy)]
pub(crate) struct FrontedText<'r> {
    pub front: u64,
    pub bytes: &'r [u8],
    ghost front_is: { IsFrontOf front bytes.now },
}

impl<'r> FrontedText<'r> {
    pub fn new(bytes: &'r [u8]) -> FrontedText<'r>
        ensures { result.bytes.now ≡ bytes.now }
    {
        FrontedText {
            front: front_of(bytes),
            bytes,
        }
    }

    /// The order of the bytes. Fronts that differ decide it.
    pub fn order(&self, other: &FrontedText<'_>) -> Ordering
        ensures { result ≡ slice_cmp nat_cmp self.now.bytes.now other.now.bytes.now }
    {
        match self.front.cmp(&other.front) {
            Ordering::Equal => self.bytes.cmp(&other.bytes),
            unequal => unequal,
        }
    }
}

// The first 8 bytes as a number, the first the highest. Missing ones count as 0.
fn front_of(bytes: &[u8]) -> u64
    ensures { result ≡ front 8 bytes.now }
{
    let mut number = 0u64;
    for i in 0..WIDTH {
        let byte = bytes.get(i).copied().unwrap_or(0);
        number = number * 256 + u64::from(byte);
    }
    number
}
