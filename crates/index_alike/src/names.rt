//! A `.debug_names` that was written, read back. The functions do nothing.

ghost use Rattle.index_alike.specs.NamesAlike.{HitsLeadToEntries, InfoHasHits, WrittenNamesReadAlike};

/// The `.debug_names` of an accepted file and the strings that it adds have no fault, and look-ups in them give all entries of
/// each name, in section order (DWARF 5, section 6.1.1).
pub fn written_names_read_alike()
    ensures { WrittenNamesReadAlike }
{}

/// What a look-up gives for an entry leads to that entry: its unit by its place in the list of its sort, and the entry by its
/// offset in the unit (DWARF 5, section 6.1.1.4.8). The entries of `.debug_info` have such a hit, and no others.
pub fn hits_lead_to_entries()
    ensures leads { HitsLeadToEntries }
    ensures info { InfoHasHits }
{}
