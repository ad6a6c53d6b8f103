//! The first address at which two maps differ.
//!
//! Between the addresses at which pieces begin and end neither map changes, so only these are asked for.

ghost use Rattle.std.specs.Prelude.{◌≡◌, ◌≢◌, ℕ, List, [], ◌∷◌, ◌++◌, None};
ghost use Rattle.std.specs.Option.{ForSome};
ghost use Rattle.index_model.specs.Pieces.{edges_of};
ghost use Rattle.index_model.specs.Ranges.{unit_at};
ghost use Rattle.reach_model.specs.AddressSets.{AddressSet};
ghost use Rattle.reach_model.specs.Differences.{first_difference, IsFirstDifference};
ghost use Rattle.aranges_read.specs.Edges.{is_passed, IsDifferenceAt, IsFirstAmong};
ghost use Rattle.aranges_read.specs.Tables.{HasTheUnitsOf};

use address_map::AddressMap;
use index_model::UnitRange;
use reach_model::Difference;

/// The least address at which the table has another unit than the units' own ranges. None exactly where there is no such address.
///
/// It takes no memory. Equal maps cost one pass; else each begin and end before the first difference that is known is looked up,
/// which costs n log n of n pieces at most.
pub fn compare(table: &AddressMap, own: &AddressMap) -> Option<Difference>
    ensures same { result ≡ None → (a : ℕ) → unit_at table.now a ≡ unit_at own.now a }
    ensures first { ForSome result (IsFirstDifference table.now own.now) }
    ensures exact { (sets : List AddressSet) → HasTheUnitsOf table.now sets → result ≡ first_difference sets own.now }
{
    if table.pieces() == own.pieces() {
        return None;
    }
    let by_table = first_at_edges(None, table.pieces(), table, own);
    first_at_edges(by_table, own.pieces(), table, own)
}

// The first of a difference and of those at the addresses at which the pieces begin and end.
fn first_at_edges(
    mut first: Option<Difference>,
    pieces: &[UnitRange],
    table: &AddressMap,
    own: &AddressMap,
) -> Option<Difference>
    ensures { (front : List ℕ) → IsFirstAmong table.now own.now front first → IsFirstAmong table.now own.now (front ++ edges_of pieces.now) result }
{
    'pieces: for piece in pieces {
        first = first_or_at(first, piece.range.low, table, own);
        first = first_or_at(first, piece.range.end, table, own);
    }
    first
}

// The first of a difference and of that at an address, which is looked up only where it comes first.
fn first_or_at(
    first: Option<Difference>,
    address: u64,
    table: &AddressMap,
    own: &AddressMap,
) -> Option<Difference>
    ensures { (front : List ℕ) → IsFirstAmong table.now own.now front first → IsFirstAmong table.now own.now (front ++ address ∷ []) result }
{
    if is_passed(first, address) {
        return first;
    }
    difference_at(address, table, own).or(first)
}

// Whether the address is that of the difference or lies behind it.
fn is_passed(first: Option<Difference>, address: u64) -> bool
    ensures { result ≡ is_passed first address }
{
    match first {
        Some(found) => found.address <= address,
        None => false,
    }
}

// The difference at an address, if there is one.
fn difference_at(address: u64, table: &AddressMap, own: &AddressMap) -> Option<Difference>
    ensures { IsDifferenceAt table.now own.now address result }
{
    let by_table = table.unit_at(address);
    let by_own = own.unit_at(address);
    if by_table == by_own {
        return None;
    }
    Some(Difference {
        address,
        table: by_table,
        own: by_own,
    })
}
