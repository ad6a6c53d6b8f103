//! Laws of the pieces. Each is the contract of a function that does nothing.

ghost use Rattle.index_model.specs.LawsIndex.{PiecesAreMaximal};
ghost use Rattle.address_map.specs.Laws.{PiecesAreInOrder, PiecesHaveTheFirstUnits};

use index_model::pieces_are_maximal;

/// The pieces of ranges, whatever the ranges are, ascend and don't overlap, and two that touch have different units. They
/// are the maximal ranges in which one unit is the unit at the address, and there are no others. The unit at an address is
/// the first in section order with a range that contains it.
pub fn pieces_are_exact()
    ensures order { PiecesAreInOrder }
    ensures maximal { PiecesAreMaximal }
    ensures first { PiecesHaveTheFirstUnits }
{
    pieces_are_maximal();
}
