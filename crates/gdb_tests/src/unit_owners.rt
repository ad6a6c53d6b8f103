//! Owners of units, and classes of units, by gdb's rules (gdb/dwarf2/read.c, `index_imported_unit` and `prepare_one_comp_unit`).

use gdb_entries::LanguageClass;
use gdb_units::{Owners, UnitRoot, own_class};
use index_model::Import;
use ix_base::NoMemory;

// Unit 4 has no entries. Units 0, 2 and 5 are partial.
const UNITS: &[UnitRoot] = &[
    UnitRoot {
        offset: Some(11),
        partial: true,
    },
    UnitRoot {
        offset: Some(40),
        partial: false,
    },
    UnitRoot {
        offset: Some(80),
        partial: true,
    },
    UnitRoot {
        offset: Some(120),
        partial: false,
    },
    UnitRoot {
        offset: None,
        partial: false,
    },
    UnitRoot {
        offset: Some(200),
        partial: true,
    },
];

// Unit 0 imports a compile unit, unit 3 one entry in the middle of unit 5, and unit 5 itself.
const IMPORTS: &[Import] = &[
    Import {
        unit: 0,
        target: 40,
    },
    Import {
        unit: 1,
        target: 80,
    },
    Import {
        unit: 2,
        target: 11,
    },
    Import {
        unit: 3,
        target: 11,
    },
    Import {
        unit: 3,
        target: 201,
    },
    Import {
        unit: 5,
        target: 200,
    },
];

// Unit 1 comes to unit 0 through unit 2, before unit 3 does. Nothing imports unit 5 but itself.
const OWNERS: &[Option<usize>] = &[Some(1), Some(1), Some(1), Some(3), Some(4), None];

#[test]
fn owners_of_units(rt: HostRuntime) -> Result<(), NoMemory> {
    let owners = Owners::of(rt.alloc(), UNITS, IMPORTS)?;
    for (unit, owner) in OWNERS.iter().enumerate() {
        assert_eq!(rt; owners.owner(unit), *owner);
    }
    assert_eq!(rt; owners.owner(6), None);
    Ok(())
}

#[test]
fn classes_of_units(rt: HostRuntime) {
    assert_eq!(rt;
        own_class(Some(0x1D), Some(b"GNU C11 12.2.0")),
        LanguageClass::C
    );
    assert_eq!(rt;
        own_class(Some(0x0C), Some(b"GNU Go 12.2.0")),
        LanguageClass::Go
    );
    assert_eq!(rt; own_class(Some(0x16), None), LanguageClass::Go);
    assert_eq!(rt; own_class(None, None), LanguageClass::Other);
}
