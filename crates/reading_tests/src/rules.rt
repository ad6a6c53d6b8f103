//! entry_rules: the tables of the GDB manual, "Index Section Format", and of DWARF 5, section 7.12.

use entry_rules::{Class, Facts, Kind, Parent, class, in_table, indexed, is_static, kind, visited};

// A tag, its kind, and whether a name that isn't external is static in C, C++ and Ada.
const TAGS: [(u64, Kind, [bool; 3]); 5] = [
    (0x39, Kind::TypeName, [false, false, false]),
    (0x13, Kind::TypeName, [true, false, true]),
    (0x24, Kind::TypeName, [true, true, true]),
    (0x2e, Kind::Function, [true, true, false]),
    (0x34, Kind::Variable, [true, true, true]),
];

// An entry that has all that any tag needs.
fn whole(tag: u64, class: Class) -> Facts {
    Facts {
        tag,
        class,
        visited: true,
        named: true,
        declaration: false,
        external: false,
        address: true,
        value: true,
    }
}

// The kind of a tag, whether an entry of it stands in tables, and whether a name of it is static in C, C++ and Ada.
fn ruled(tag: u64) -> (Option<Kind>, bool, [bool; 3]) {
    let stands = in_table(tag) && indexed(&whole(tag, Class::C));
    let statics = [
        is_static(&whole(tag, Class::C)),
        is_static(&whole(tag, Class::Cxx)),
        is_static(&whole(tag, Class::Ada)),
    ];
    (kind(tag), stands, statics)
}

#[test]
fn entries_of_each_kind(rt: HostRuntime) {
    for (tag, kind, statics) in &TAGS {
        assert_eq!(rt; ruled(*tag), (Some(*kind), true, *statics), "tag {tag}");
    }
    // a compile unit
    assert!(rt; kind(0x11).is_none() && !in_table(0x11));
}

#[test]
fn what_stands_below_is_visited(rt: HostRuntime) {
    for (parent, ada, want) in [
        (Parent::Root, false, true),
        (Parent::Seen(0x39), false, true),
        (Parent::Seen(0x2e), false, false),
        (Parent::Seen(0x2e), true, true),
        (Parent::Other, true, false),
    ] {
        assert_eq!(rt; visited(parent, ada), want);
    }
}

// DW_LANG_C11, DW_LANG_C_plus_plus_14, DW_LANG_Ada95 and DW_LANG_Rust.
#[test]
fn classes_of_languages(rt: HostRuntime) {
    let classes = [0x1d, 0x21, 0x0d, 0x1c].map(|code| class(code));
    assert_eq!(rt; classes, [Class::C, Class::Cxx, Class::Ada, Class::Plain]);
}
