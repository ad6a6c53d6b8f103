//! The hashes of many strings, in one pass.

ghost use Rattle.std.specs.Prelude.{◌≡◌, IfSome, length};
ghost use Rattle.string_ends.specs.Tails.{AreHashed, IsTail};

use crate::formula::Formula;
use crate::tail::Tail;
use std::alloc::Global;

/// What is known of a string.
#[derive(Clone, Copy)]
pub struct Hashed {
    pub hash: u32,
    /// A number that tells most strings apart that have one hash.
    pub print: u64,
    /// Whether it has a byte from 80 on.
    pub is_beyond_ascii: bool,
}

/// Where a string begins, and which of the strings it is.
#[derive(Clone, Copy, PartialEq, Eq, PartialOrd, Ord)]
struct Begin {
    offset: u64,
    number: usize,
}

/// What is known of the strings that begin at these offsets, None where none begins. None of all where no memory is left or no
/// string ends.
///
/// The strings are taken from the last one to the first, so each byte is read once however many have it. Sorting their n
/// offsets costs n log n.
pub fn hashes_of(
    alloc: Global,
    formula: Formula,
    strings: &[u8],
    offsets: &[u64],
) -> Option<Vec<Option<Hashed>>>
    ensures { IfSome result (λ v. AreHashed formula strings.now offsets.now v.items) }
{
    let order = order_of(alloc, offsets)?;
    let mut hashes = vec![in alloc; None; offsets.len()].ok()?;
    let mut tail = Tail::last(formula, strings)?;
    for passed in 0..order.len() {
        let number = order[order.len() - 1 - passed].number;
        if number < offsets.len() && offsets[number] <= tail.at as u64 {
            tail = tail.back_to(formula, strings, offsets[number] as usize);
            hashes[number] = Some(tail.hashed(formula, strings));
        }
    }
    Some(hashes)
}

// The strings in the order of their offsets.
fn order_of(alloc: Global, offsets: &[u64]) -> Option<Vec<Begin>> {
    let mut order = Vec::with_capacity(alloc, offsets.len()).ok()?;
    for (number, offset) in offsets.iter().enumerate() {
        let begin = Begin {
            offset: *offset,
            number,
        };
        order.push(begin).ok()?;
    }
    order.sort().ok()?;
    Some(order)
}
