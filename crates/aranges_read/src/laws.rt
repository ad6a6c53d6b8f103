//! The law of the first difference. It is the contract of a function that does nothing.

ghost use Rattle.aranges_read.specs.Laws.{FirstDifferenceIsFirst};

/// The first difference of the sets of an address table and of units' own ranges is at the least address at which the least unit
/// among the sets that have it is another than the unit at it by these ranges. There is none exactly where they agree at each address.
pub fn first_difference_is_the_first()
    ensures { FirstDifferenceIsFirst }
{}
