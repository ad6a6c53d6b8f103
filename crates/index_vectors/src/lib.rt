// Written by tools/gen_vectors.py; not to be changed by hand.
//! What the definitions of `index_model` give for whole small files, computed by the checker.
//!
//! Each function does nothing. Its contract is a group of facts, one for each row in `rows/vectors`: what a file prints for a
//! query, the bytes of an index, or what a look-up in an index prints. The rows say what is expected, and the checker computes
//! the definitions on the bytes until both are the same.
#![tactic(auto)]

ghost use Rattle.index_vectors.specs.AbbreviationFaults.{AbbreviationFaults};
ghost use Rattle.index_vectors.specs.Abbreviations.{Abbreviations};
ghost use Rattle.index_vectors.specs.AdaNames.{AdaNames};
ghost use Rattle.index_vectors.specs.AddedIndexes.{AddedIndexes};
ghost use Rattle.index_vectors.specs.AddressAndBlockForms.{AddressAndBlockForms};
ghost use Rattle.index_vectors.specs.AddressIndexFaults.{AddressIndexFaults};
ghost use Rattle.index_vectors.specs.AddressTableFaults.{AddressTableFaults};
ghost use Rattle.index_vectors.specs.AddressTables.{AddressTables};
ghost use Rattle.index_vectors.specs.ConstantAndFlagForms.{ConstantAndFlagForms};
ghost use Rattle.index_vectors.specs.CxxNames.{CxxNames};
ghost use Rattle.index_vectors.specs.DebugSectionFaults.{DebugSectionFaults};
ghost use Rattle.index_vectors.specs.ElfFaults.{ElfFaults};
ghost use Rattle.index_vectors.specs.EntryFormatFaults.{EntryFormatFaults};
ghost use Rattle.index_vectors.specs.EntryFormats.{EntryFormats};
ghost use Rattle.index_vectors.specs.EntryKinds.{EntryKinds};
ghost use Rattle.index_vectors.specs.FilesOfUnits.{FilesOfUnits};
ghost use Rattle.index_vectors.specs.FormFaults.{FormFaults};
ghost use Rattle.index_vectors.specs.GdbAreaFaults.{GdbAreaFaults};
ghost use Rattle.index_vectors.specs.GdbIndexes.{GdbIndexes};
ghost use Rattle.index_vectors.specs.GdbLookUps.{GdbLookUps};
ghost use Rattle.index_vectors.specs.GdbSlotFaults.{GdbSlotFaults};
ghost use Rattle.index_vectors.specs.HeaderFaults.{HeaderFaults};
ghost use Rattle.index_vectors.specs.HeaderFieldFaults.{HeaderFieldFaults};
ghost use Rattle.index_vectors.specs.KeptIndexes.{KeptIndexes};
ghost use Rattle.index_vectors.specs.Languages.{Languages};
ghost use Rattle.index_vectors.specs.LineFieldFaults.{LineFieldFaults};
ghost use Rattle.index_vectors.specs.LineTableFaults.{LineTableFaults};
ghost use Rattle.index_vectors.specs.LowAndHighAddresses.{LowAndHighAddresses};
ghost use Rattle.index_vectors.specs.NameIndexFaults.{NameIndexFaults};
ghost use Rattle.index_vectors.specs.NameIndexes.{NameIndexes};
ghost use Rattle.index_vectors.specs.NameLookUps.{NameLookUps};
ghost use Rattle.index_vectors.specs.OldFileTables.{OldFileTables};
ghost use Rattle.index_vectors.specs.OldRangeLists.{OldRangeLists};
ghost use Rattle.index_vectors.specs.RangeListFaults.{RangeListFaults};
ghost use Rattle.index_vectors.specs.RangeLists.{RangeLists};
ghost use Rattle.index_vectors.specs.ReferenceAndStringForms.{ReferenceAndStringForms};
ghost use Rattle.index_vectors.specs.ReferenceFaults.{ReferenceFaults};
ghost use Rattle.index_vectors.specs.References.{References};
ghost use Rattle.index_vectors.specs.SectionTableFaults.{SectionTableFaults};
ghost use Rattle.index_vectors.specs.SectionsThatPass.{SectionsThatPass};
ghost use Rattle.index_vectors.specs.Sessions.{Sessions};
ghost use Rattle.index_vectors.specs.SmallFiles.{SmallFiles};
ghost use Rattle.index_vectors.specs.StringFaults.{StringFaults};
ghost use Rattle.index_vectors.specs.Strings.{Strings};
ghost use Rattle.index_vectors.specs.Units.{Units};
ghost use Rattle.index_vectors.specs.ValueFaults.{ValueFaults};
ghost use Rattle.index_vectors.specs.WalkFaults.{WalkFaults};
ghost use Rattle.index_vectors.specs.Walks.{Walks};

mod limits;

pub use limits::{depth_ends, names_end, units_end};

/// The first fault of a file header.
pub fn elf_faults()
    ensures { ElfFaults }
{}

/// The first fault of the table of sections, and of what the sections say of themselves.
pub fn section_table_faults()
    ensures { SectionTableFaults }
{}

/// Compressed debug sections, and files without debug information.
pub fn debug_section_faults()
    ensures { DebugSectionFaults }
{}

/// Files whose sections are unusual and have no fault.
pub fn sections_that_pass()
    ensures { SectionsThatPass }
{}

/// Headers of units that are cut, or leave their section.
pub fn header_faults()
    ensures { HeaderFaults }
{}

/// The first fault of the version, the unit type and the address size of a header.
pub fn header_field_faults()
    ensures { HeaderFieldFaults }
{}

/// Units of each version, sort and format.
pub fn units()
    ensures { Units }
{}

/// Tables of abbreviations with a fault.
pub fn abbreviation_faults()
    ensures { AbbreviationFaults }
{}

/// Tables of abbreviations without a fault.
pub fn abbreviations()
    ensures { Abbreviations }
{}

/// The first fault of the forms of attributes.
pub fn form_faults()
    ensures { FormFaults }
{}

/// The first fault of values that are cut or too large.
pub fn value_faults()
    ensures { ValueFaults }
{}

/// Attributes of the forms of addresses and blocks are passed by their length.
pub fn address_and_block_forms()
    ensures { AddressAndBlockForms }
{}

/// Attributes of the forms of constants, flags and expressions are passed by their length.
pub fn constant_and_flag_forms()
    ensures { ConstantAndFlagForms }
{}

/// Attributes of the forms of references and strings are passed by their length.
pub fn reference_and_string_forms()
    ensures { ReferenceAndStringForms }
{}

/// The first fault of the entries of a unit and of their tree.
pub fn walk_faults()
    ensures { WalkFaults }
{}

/// Trees of entries that end in each way, and flags of entries.
pub fn walks()
    ensures { Walks }
{}

/// The first fault of strings.
pub fn string_faults()
    ensures { StringFaults }
{}

/// Strings of each form.
pub fn strings()
    ensures { Strings }
{}

/// The first fault of references between entries.
pub fn reference_faults()
    ensures { ReferenceFaults }
{}

/// Chains of specifications and origins, and signatures.
pub fn references()
    ensures { References }
{}

/// The first fault of indexed addresses.
pub fn address_index_faults()
    ensures { AddressIndexFaults }
{}

/// The first fault of range lists.
pub fn range_list_faults()
    ensures { RangeListFaults }
{}

/// The unit at an address, by range lists of version 5 (DWARF 5, 2.17.3 and 7.25).
pub fn range_lists()
    ensures { RangeLists }
{}

/// The unit at an address, by range lists of versions 2 to 4 (DWARF 4, 2.17).
pub fn old_range_lists()
    ensures { OldRangeLists }
{}

/// The unit at an address, by low and high addresses of units and of their subprograms (DWARF 4, 2.17).
pub fn low_and_high_addresses()
    ensures { LowAndHighAddresses }
{}

/// Answers to each query about small files of C, and lines that are no query.
pub fn small_files()
    ensures { SmallFiles }
{}

/// What a session writes line by line, by the stage of each look-up.
pub fn sessions()
    ensures { Sessions }
{}

/// Names, scopes and kinds of C++ and C entries, over one and several units.
pub fn cxx_names()
    ensures { CxxNames }
{}

/// Which entries are indexed, by tag, address and value.
pub fn entry_kinds()
    ensures { EntryKinds }
{}

/// Names that the Ada compiler encodes.
pub fn ada_names()
    ensures { AdaNames }
{}

/// Partial units and their importers, languages, and the main program.
pub fn languages()
    ensures { Languages }
{}

/// The bytes of `.gdb_index` of small files, versions 8 and 9.
pub fn gdb_indexes()
    ensures { GdbIndexes }
{}

/// The bytes of `.debug_names` of small files, and the strings that it adds.
pub fn name_indexes()
    ensures { NameIndexes }
{}

/// The first address at which an address table has another unit than the units' own ranges.
pub fn address_tables()
    ensures { AddressTables }
{}

/// The first fault of an address table.
pub fn address_table_faults()
    ensures { AddressTableFaults }
{}

/// The bytes of a small program with its index, of each kind.
pub fn added_indexes()
    ensures { AddedIndexes }
{}

/// The index that is kept for a small program by its build-id, and what was kept, opened with it.
pub fn kept_indexes()
    ensures { KeptIndexes }
{}

/// The first fault of a `.gdb_index` up to its symbol table.
pub fn gdb_area_faults()
    ensures { GdbAreaFaults }
{}

/// The first fault of the slots and of the shortcut of a `.gdb_index`.
pub fn gdb_slot_faults()
    ensures { GdbSlotFaults }
{}

/// Look-ups in a `.gdb_index`.
pub fn gdb_look_ups()
    ensures { GdbLookUps }
{}

/// The first fault of a `.debug_names`.
pub fn name_index_faults()
    ensures { NameIndexFaults }
{}

/// Look-ups in a `.debug_names`.
pub fn name_look_ups()
    ensures { NameLookUps }
{}

/// Files of line tables up to version 4, and of units that name no table.
pub fn old_file_tables()
    ensures { OldFileTables }
{}

/// Files of line tables of version 5.
pub fn entry_formats()
    ensures { EntryFormats }
{}

/// Line tables that pass their section, and those of other versions.
pub fn line_table_faults()
    ensures { LineTableFaults }
{}

/// Line tables whose fields or entries pass their end.
pub fn line_field_faults()
    ensures { LineFieldFaults }
{}

/// Forms that entries may not have, and paths that pass their section.
pub fn entry_format_faults()
    ensures { EntryFormatFaults }
{}

/// Files of more than one unit, and the first unit whose table has a fault.
pub fn files_of_units()
    ensures { FilesOfUnits }
{}
