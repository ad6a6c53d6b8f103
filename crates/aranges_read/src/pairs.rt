//! The pairs of a set: addresses, each with how many bytes stand from it on (DWARF 5, section 6.1.2).

ghost use Rattle.std.specs.Prelude.{◌≡◌, ◌+◌, [], ◌∷◌, ◌++◌, OnOk};
ghost use Rattle.ix_base.specs.Moves.{MovesOn, Reads};
ghost use Rattle.index_model.specs.Gives.{Gives};
ghost use Rattle.reach_model.specs.AddressSets.{is_end, kept_ranges, pairs_in};
ghost use Rattle.aranges_read.specs.Sets.{as_list, next_pair, of_unit, pair_seen, with_pairs};

use index_model::{Range, UnitRange};
use ix_base::{Cursor, Fault, NoMemory, Stop};
use reach_model::code::ARANGES_NO_END;

/// An address, and how many bytes stand from it on.
#[derive(Clone, Copy)]
struct Pair {
    address: u64,
    length: u64,
}

impl Pair {
    fn read(cursor: &mut Cursor<'_>) -> Option<Pair>
        ensures value { Reads pair_seen next_pair cursor.old cursor.new result }
        ensures place { MovesOn cursor.old cursor.new }
    {
        let address = cursor.u64()?;
        let length = cursor.u64()?;
        Some(Pair { address, length })
    }

    // Whether it ends the set.
    fn is_end(self) -> bool
        ensures { result ≡ is_end (pair_seen self) }
    {
        self.address == 0 && self.length == 0
    }

    // Its range. It doesn't count if it begins at 0, begins or ends too high, or has no byte.
    fn range(self) -> Option<Range>
        ensures { as_list result ≡ kept_ranges (pair_seen self ∷ []) }
    {
        let low = self.address;
        let end = low.checked_add(self.length)?;
        if low == 0 || low >= u64::MAX - 1 || low >= end {
            return None;
        }
        Some(Range { low, end })
    }
}

// Adds a range of a unit, if there is one.
fn add_range(ranges: &mut Vec<UnitRange>, unit: u32, range: Option<Range>) -> Result<(), NoMemory>
    ensures { OnOk result (ranges.new.items ≡ ranges.old.items ++ of_unit unit (as_list range)) }
{
    match range {
        Some(range) => Ok(ranges.push(UnitRange { unit, range })?),
        None => Ok(()),
    }
}

/// Adds the ranges of the pairs of a unit, up to the pair of zeros. If there is none, this is the fault of the set at a place.
pub(crate) fn add_pairs(
    ranges: &mut Vec<UnitRange>,
    unit: u32,
    place: u64,
    pairs: &[u8],
) -> Result<(), Stop>
    ensures { Gives (λ _. ranges.new.items) result (with_pairs ranges.old.items unit place (pairs_in pairs.now)) }
{
    let mut cursor = Cursor::new(pairs, 0);
    while let Some(pair) = Pair::read(&mut cursor) {
        if pair.is_end() {
            return Ok(());
        }
        add_range(ranges, unit, pair.range())?;
    }
    Err(Stop::Cause(Fault {
        code: ARANGES_NO_END,
        at: place,
    }))
}
