//! The table of faults.

ghost use Rattle.std.specs.Prelude.{◌≡◌, ◌==◌, find};
ghost use Rattle.std.specs.Option.{ForSome, option_copied};

/// Of what the place behind a code is an offset or a number.
#[derive(Clone, Copy)]
pub enum PlaceKind {
    /// Of nothing.
    Nowhere,
    /// A byte of the file.
    Byte,
    /// A section, by its number in `readelf -S`; 0 is the table of sections.
    Section,
    /// A unit of the debug information.
    Unit,
    /// An entry of the debug information.
    Entry,
    /// A byte of the debug information.
    Info,
    /// A byte of the section that has the index.
    Index,
    /// A set of `.debug_aranges`.
    Set,
}

/// A fault: its code, its name, and what is said of it.
#[derive(Clone, Copy)]
pub struct FaultText {
    pub code: u8,
    pub name: &'static str,
    pub place: PlaceKind,
    pub sentence: &'static str,
    pub remedy: &'static str,
}

const DAMAGED: &str = "the file is cut or damaged, or its compiler unusual: build it again";

const REBUILD: &str = "make the index again with gdbix index";

const LOOK_AT_SETS: &str = "see readelf --debug-dump=aranges";

const LOOK_AT_LINES: &str = "see readelf --debug-dump=rawline";

const KEPT: &str = "a new index is built";

// Rows of the table: the code, the name, what the place is, the sentence and the remedy.
macro_rules! faults {
    ($($code:literal $name:literal $place:ident $sentence:literal $remedy:expr;)+) => {
        [$(FaultText { code: $code, name: $name, place: PlaceKind::$place, sentence: $sentence, remedy: $remedy }),+]
    };
}

/// All faults, by ascending codes: those of a program, of a `.gdb_index` and a `.debug_names`, of an address table, of line tables, and
/// of a kept index.
pub static FAULTS: [FaultText; 53] = faults! {
    1 "not-elf" Nowhere "not an ELF file" "name a linked program, a shared object or a .debug file (of an archive, what was linked from it)";
    2 "elf-kind" Byte "not a 64-bit little-endian program or shared object" "link a .o or .ko first; 32-bit and big-endian files aren't read";
    3 "section-table" Section "the table of sections or a section in it leaves the file" "the file is cut or damaged: copy or build it again";
    4 "compressed" Section "a debug section is compressed" "run objcopy --decompress-debug-sections first";
    5 "no-debug-info" Nowhere "no debug information: .debug_info is missing or empty" "compile with -g, or name the .debug file that belongs to it";
    6 "unit-length" Unit "a unit or its header leaves its section" DAMAGED;
    7 "unit-version" Unit "a unit's version of DWARF isn't 2 to 5 (4 in .debug_types)" "compile with -gdwarf-5 or -gdwarf-4";
    8 "unit-type" Unit "a unit is neither compile, type, partial nor skeleton" "split units (.dwo, .dwp) aren't read: compile without -gsplit-dwarf";
    9 "address-size" Unit "a unit's addresses don't have 8 bytes" "only 64-bit programs are read: compile with -m64";
    10 "bad-abbreviation" Unit "a unit's abbreviations leave their section, or have a number that is too large" DAMAGED;
    11 "truncated" Entry "a unit ends inside an entry, or an entry has a number that is too large" DAMAGED;
    12 "unknown-form" Entry "an attribute has a form that isn't DWARF's" "vendors' forms aren't read: name the program as it was before dwz -m, and compile without -gsplit-dwarf";
    13 "bad-string" Entry "a string leaves its section, or no zero ends it" DAMAGED;
    14 "no-base" Entry "an indexed attribute has no base at its unit's root" DAMAGED;
    15 "bad-range" Entry "a list of ranges or a table of addresses ends too early, or has an unknown kind" DAMAGED;
    16 "bad-reference" Entry "a reference doesn't lead to an entry" DAMAGED;
    17 "reference-chain" Entry "a chain of references has more than 8 steps, or a scope more than 1,024" DAMAGED;
    18 "supplementary" Entry "an attribute refers to a supplementary file" "name the program as it was before dwz -m";
    19 "bad-code" Entry "an entry's code has no abbreviation" DAMAGED;
    20 "bad-root" Entry "a unit's root has another tag than that of a unit" DAMAGED;
    21 "depth" Entry "an entry is nested deeper than 1,024" "no remedy: the depth is limited";
    22 "too-many-units" Unit "more than 16,777,215 units" "no remedy: an index can't number more";
    23 "trailing-bytes" Info "a byte other than zero stands behind a unit's entries" DAMAGED;
    24 "name-too-long" Entry "a string has more than 1,048,576 bytes, or a qualified name more than 16,777,216" "no remedy: the length of names is limited";
    40 "gdb-version" Index "no .gdb_index of version 8 or 9" "linkers write version 7: make one with gdbix index or gdb-add-index";
    41 "gdb-offsets" Index "the header is cut, or an area begins before the one before it or past the end" REBUILD;
    42 "gdb-unit-list" Index "a list of units ends inside an entry" REBUILD;
    43 "gdb-address-area" Index "the address area ends inside an entry, or names no unit" REBUILD;
    44 "gdb-table-size" Index "the symbol table ends inside a slot, or its slots aren't a power of two" REBUILD;
    45 "gdb-bad-name" Index "the name of a slot or of the main program leaves the constant pool" REBUILD;
    46 "gdb-bad-vector" Index "the list of a slot leaves the constant pool, or names no unit" REBUILD;
    47 "gdb-lost-slot" Index "a slot can't be found by its name" REBUILD;
    50 "names-length" Index "the length is cut or reserved, or the section holds more than one index" "one index a section is read: make it with gdbix index --as names";
    51 "names-version" Index "no .debug_names of version 5" REBUILD;
    52 "names-counts" Index "a count or a table leaves the section" REBUILD;
    53 "names-abbreviation" Index "an abbreviation is cut, or has an unknown form or a number that is too large" REBUILD;
    54 "names-bucket" Index "a bucket leads to no name, or not to all of its names" REBUILD;
    55 "names-hash" Index "a name has another hash" REBUILD;
    56 "names-string-offset" Index "a name isn't in the strings" "give the strings that belong to the index, and their --base";
    57 "names-entry-pool" Index "an entry is cut, has no abbreviation, or doesn't say its unit and its offset" REBUILD;
    60 "aranges-length" Set "an address set or its header leaves .debug_aranges" LOOK_AT_SETS;
    61 "aranges-version" Set "the version of an address set isn't 2" LOOK_AT_SETS;
    62 "aranges-unit" Set "an address set belongs to no unit of .debug_info" LOOK_AT_SETS;
    63 "aranges-sizes" Set "an address set has segments, or addresses that don't have 8 bytes" LOOK_AT_SETS;
    64 "aranges-no-end" Set "an address set ends before its pair of zeros" LOOK_AT_SETS;
    70 "lines-length" Unit "a unit's line table leaves .debug_line" LOOK_AT_LINES;
    71 "lines-version" Unit "the version of a unit's line table isn't 2 to 5" LOOK_AT_LINES;
    72 "lines-fields" Unit "a unit's line table ends inside its header, or has a number that is too large" LOOK_AT_LINES;
    73 "lines-form" Unit "a unit's line table has a form that isn't one of paths or directories" LOOK_AT_LINES;
    74 "lines-path" Unit "a path of a unit's line table isn't in its section" LOOK_AT_LINES;
    80 "kept-header" Nowhere "what is kept isn't an index" KEPT;
    81 "kept-build-id" Nowhere "the index that is kept has another build-id" KEPT;
    82 "kept-too-large" Nowhere "what is kept has more than 1,073,741,824 bytes" KEPT;
};

/// The fault with this code, if the table has it.
pub fn fault_of(code: u8) -> Option<&'static FaultText>
    ensures { ForSome result (λ f. f.now.code ≡ code) }
{
    row_of(&FAULTS, code)
}

/// The first of these rows that has this code.
pub fn row_of(rows: &[FaultText], code: u8) -> Option<&FaultText>
    ensures row { option_copied result ≡ find (λ f. f.code == code) rows.now }
    ensures own { ForSome result (λ f. f.now.code ≡ code) }
{
    rows.iter().find(|row| row.code == code)
}
