//! Laws of the definitions: what follows from them, in the words of their subject. The functions do nothing.

ghost use Rattle.index_model.specs.LawsEntries.{EntriesAreInOrder, SimpleNameIsTheEnd};
ghost use Rattle.index_model.specs.LawsFaults.{FirstFaultIsByPhases};
ghost use Rattle.index_model.specs.LawsOrder.{WalksAreInOrder};
ghost use Rattle.index_model.specs.LawsRanges.{UnitAtIsLeast};
ghost use Rattle.index_model.specs.LawsRules.{VisitedIsByParent};
ghost use Rattle.index_model.specs.LawsSpans.{NoSpanHoldsARoot, ParentHasTheInnermostSpan, ResumedGivesTheSame};
ghost use Rattle.index_model.specs.LawsStages.{ReachableIsTheClosure, ReachableIsLeads, LastStagesStay};
ghost use Rattle.index_model.specs.LawsTexts.{AttributeTextsStandInTheirEntries, InlineTextsStandInTheirEntries};
ghost use Rattle.index_model.specs.LawsTiling.{UnitBytesAreTheSections, UnitsAreTheTiling};

/// What is reachable is exactly the closure of the steps, by numbers: 0 to 5 from 0, 2, 3 and 5 from 1, 3 and 5 from 2. A
/// stage once 3, 4 or 5 stays.
pub fn stages_go_on()
    ensures closure { ReachableIsTheClosure }
    ensures order { ReachableIsLeads }
    ensures last { LastStagesStay }
{}

/// The unit at an address is the least unit with a range that contains the address.
pub fn unit_at_is_the_least()
    ensures { UnitAtIsLeast }
{}

/// Where there is no fault the units tile their sections: their bytes, one after another, are the sections, and no other
/// list of units does so.
pub fn units_tile_their_sections()
    ensures tiling { UnitsAreTheTiling }
    ensures bytes { UnitBytesAreTheSections }
{}

/// In a walk the offsets rise inside the unit. Each entry but the root has a parent: it is earlier, one level up, and the
/// last such entry.
pub fn walks_are_in_order()
    ensures { WalksAreInOrder }
{}

/// The list of entries rises by unit and offset. A linkage entry stands at once behind its own, and an item gives at most one
/// entry and one linkage entry.
pub fn entries_are_in_order()
    ensures { EntriesAreInOrder }
{}

/// The parent of an entry that isn't a root is the entry of the span with the greatest from, among the spans that hold it. A
/// walk that is resumed at a span's from gives the whole walk's entries up to its to.
pub fn spans_stand_for_children()
    ensures parent { ParentHasTheInnermostSpan }
    ensures root { NoSpanHoldsARoot }
    ensures resumed { ResumedGivesTheSame }
{}

/// A text that is itself the value of an attribute (DWARF 5, section 7.5.5, form string) stands in the bytes of its unit, from
/// the entry's place on and before the place behind the entry.
pub fn inline_texts_stand_in_their_entries()
    ensures values { InlineTextsStandInTheirEntries }
    ensures attributes { AttributeTextsStandInTheirEntries }
{}

/// The simple name of an entry is the end of its qualified name.
pub fn simple_names_are_ends()
    ensures { SimpleNameIsTheEnd }
{}

/// An entry below the root is visited if its parent is the root, or is visited and opens its children.
pub fn visited_goes_by_the_parent()
    ensures { VisitedIsByParent }
{}

/// The first fault of a file is that of the first phase that finds one. Where none does the file is accepted.
pub fn first_fault_goes_by_phases()
    ensures { FirstFaultIsByPhases }
{}
