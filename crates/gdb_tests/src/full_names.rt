//! Names that gdb 16.3 has in an index that it writes: spelled, behind their scopes, and by their linkage names. Those of Ada that
//! don't stand in crates/gdb_entries/specs/MadeFile.antt are gdb 13.1's.

use gdb_entries::LanguageClass::{Ada, C, Cxx, D, Fortran, Go, Rust};
use gdb_entries::{ItemFacts, LanguageClass, gives_component};
use gdb_names::{
    BothComponents, BothFronts, BothNames, ItemNames, SecondName, ada_full_name, item_names,
    spelled,
};
use std::alloc::{AllocError, Global};
use std::process::Abort;
use std::test::Fail;

const DW_TAG_enumeration_type: u64 = 0x04;

const DW_TAG_structure_type: u64 = 0x13;

const DW_TAG_subprogram: u64 = 0x2e;

const DW_TAG_variable: u64 = 0x34;

/// The class of the unit of a member of a scope path, its name, and what it gives to names.
const COMPONENTS: &[(LanguageClass, &'static [u8], &'static [u8])] = &[
    (Cxx, b"Box<long unsigned int>", b"Box<unsigned long>"),
    (Cxx, b"Box<unsigned>", b"Box<unsigned int>"),
    (Cxx, b"shared<short int>", b"shared<short>"),
    (Cxx, b"(anonymous namespace)", b"(anonymous namespace)"),
    (C, b"n<unsigned>", b"n<unsigned>"),
    (Rust, b"Box<long unsigned int>", b"Box<long unsigned int>"),
    (Go, b"main.T", b"main.T"),
];

/// The class of an item's unit, what its scope path gives, its name and its full name.
type Row = (
    LanguageClass,
    &'static [&'static [u8]],
    &'static [u8],
    &'static [u8],
);

const FULL_NAMES: &[Row] = &[
    (Cxx, &[], b"long unsigned int", b"unsigned long"),
    (Cxx, &[], b"Box<long unsigned int>", b"Box<unsigned long>"),
    (
        Cxx,
        &[b"Box<unsigned long>"],
        b"get",
        b"Box<unsigned long>::get",
    ),
    (
        Cxx,
        &[b"shared<short>"],
        b"within",
        b"shared<short>::within",
    ),
    (Cxx, &[b"n<unsigned>"], b"far", b"n<unsigned>::far"),
    (
        Cxx,
        &[b"n", b"(anonymous namespace)"],
        b"v",
        b"n::(anonymous namespace)::v",
    ),
    (C, &[], b"long int", b"long"),
    (C, &[], b"short unsigned int", b"unsigned short"),
    (C, &[], b"Box<unsigned>", b"Box<unsigned>"),
    (C, &[b"n<unsigned>"], b"point", b"point"),
    (
        Rust,
        &[b"Box<long unsigned int>"],
        b"long int",
        b"Box<long unsigned int>::long int",
    ),
    (
        Rust,
        &[b"core", b"fmt", b"Formatter"],
        b"pad",
        b"core::fmt::Formatter::pad",
    ),
    (D, &[b"demo", b"Point"], b"sum", b"demo.Point.sum"),
    (Go, &[b"main.T"], b"F", b"main.T.F"),
    (Fortran, &[b"shapes"], b"area", b"area"),
    // A name that can be decoded has its scope in itself.
    (Ada, &[], b"_ada_demo", b"demo"),
    (Ada, &[], b"a__B_1__inner", b"a__inner"),
    (Ada, &[b"_ada_demo"], b"demo__add__2", b"demo__add"),
    // One that can't stands behind what is around it, up to the first that can.
    (
        Ada,
        &[b"_ada_demo", b"demo__add__2"],
        b"odd___Y",
        b"demo__add__odd___Y",
    ),
    (Ada, &[b"demo__x", b"_a"], b"a___b", b"demo__x___a__a___b"),
    (
        Ada,
        &[b"_a", b"a___b"],
        b"a__b___Y12",
        b"_a__a___b__a__b___Y12",
    ),
    (Ada, &[], b"<a", b"<a"),
];

/// Whether an item is listed by its name, and by its linkage name: taken for a name, or as that of a linkage entry.
#[derive(Clone, Copy, Debug, PartialEq, Eq)]
enum Listed {
    ByNothing,
    ByName,
    ByOnlyName,
    ByLinkage,
    ByBoth,
}

/// The class of an item's unit, its tag, whether it has a name, and how gdb lists it. Each has a linkage name.
const ITEMS: &[(LanguageClass, u64, bool, Listed)] = &[
    (Cxx, DW_TAG_subprogram, false, Listed::ByOnlyName),
    (Cxx, DW_TAG_subprogram, true, Listed::ByName),
    (Cxx, DW_TAG_variable, false, Listed::ByNothing),
    (C, DW_TAG_subprogram, false, Listed::ByOnlyName),
    (C, DW_TAG_subprogram, true, Listed::ByBoth),
    (C, DW_TAG_variable, false, Listed::ByLinkage),
    (Ada, DW_TAG_subprogram, false, Listed::ByOnlyName),
    (Ada, DW_TAG_subprogram, true, Listed::ByBoth),
    (Fortran, DW_TAG_subprogram, true, Listed::ByBoth),
];

#[test]
fn components(rt: HostRuntime) -> Result<(), Fail> {
    for row in COMPONENTS {
        let name = spelled(rt.alloc(), row.0, row.1)?;
        is_one_text(&rt, &name, row.2)?;
    }
    Ok(())
}

// The full name of an item in a unit of this class, behind these components.
fn full_name(
    alloc: Global,
    class: LanguageClass,
    components: BothComponents<'_>,
    name: &'static [u8],
) -> Result<BothNames<'static>, AllocError> {
    if class == Ada {
        return ada_full_name(alloc, components, name);
    }
    let own = spelled(alloc, class, name)?;
    let front = BothFronts::of(alloc, class, components)?;
    front.before(alloc, &own)
}

#[test]
fn full_names(rt: HostRuntime) -> Result<(), Fail> {
    for row in FULL_NAMES {
        let components = BothComponents {
            older: row.1,
            newer: None,
        };
        let name = full_name(rt.alloc(), row.0, components, row.2)?;
        is_one_text(&rt, &name, row.3)?;
    }
    Ok(())
}

// Both releases spell the name so.
fn is_one_text(rt: &impl Abort, name: &BothNames<'_>, wanted: &[u8]) -> Result<(), Fail> {
    assert_eq!(rt; name.older.bytes(), wanted);
    assert!(rt; name.newer.is_none());
    Ok(())
}

// gdb 13.1 spells the name so, and 16.3 otherwise.
fn are_two_texts(
    rt: &impl Abort,
    name: &BothNames<'_>,
    older: &[u8],
    newer: &[u8],
) -> Result<(), Fail> {
    assert_eq!(rt; name.older.bytes(), older);
    assert!(rt; name.newer.is_some());
    if let Some(name) = &name.newer {
        assert_eq!(rt; name.bytes(), newer);
    }
    Ok(())
}

#[test]
fn own_names_by_both_releases(rt: HostRuntime) -> Result<(), Fail> {
    let components = BothComponents {
        older: &[b"std"],
        newer: None,
    };
    let name = full_name(rt.alloc(), Cxx, components, b"function<void (long int)>")?;
    are_two_texts(
        &rt,
        &name,
        b"std::function<void (long int)>",
        b"std::function<void(long)>",
    )
}

#[test]
fn scopes_by_both_releases(rt: HostRuntime) -> Result<(), Fail> {
    let older: &[&[u8]] = &[b"F<void (long int)>"];
    let newer: &[&[u8]] = &[b"F<void(long)>"];
    let components = BothComponents {
        older,
        newer: Some(newer),
    };
    let name = full_name(rt.alloc(), Cxx, components, b"call")?;
    are_two_texts(
        &rt,
        &name,
        b"F<void (long int)>::call",
        b"F<void(long)>::call",
    )
}

fn listing(names: ItemNames<'_>) -> Listed {
    match (names.name, names.second) {
        (None, None) => Listed::ByNothing,
        (Some(_), None) => Listed::ByName,
        (None, Some(SecondName::OnlyName(_))) => Listed::ByOnlyName,
        (None, Some(SecondName::Linkage(_))) => Listed::ByLinkage,
        (Some(_), Some(_)) => Listed::ByBoth,
    }
}

fn facts(tag: u64) -> ItemFacts {
    ItemFacts {
        tag,
        children: false,
        named: true,
        declared: false,
        external: false,
    }
}

#[test]
fn names_of_items(rt: HostRuntime) -> Result<(), Fail> {
    for row in ITEMS {
        let name = if row.2 {
            Some(b"name".as_slice())
        } else {
            None
        };
        let names = item_names(row.0, &facts(row.1), name, Some(b"linkage".as_slice()));
        assert_eq!(rt; listing(names), row.3);
    }
    Ok(())
}

#[test]
fn a_name_of_ada_is_its_linkage_name(rt: HostRuntime) -> Result<(), Fail> {
    let name = Some(b"shapes__made".as_slice());
    let names = item_names(Ada, &facts(DW_TAG_variable), name, None);
    assert_eq!(rt; listing(names), Listed::ByBoth);
    Ok(())
}

#[test]
fn a_declared_structure_is_not_listed(rt: HostRuntime) -> Result<(), Fail> {
    let item = ItemFacts {
        children: true,
        declared: true,
        ..facts(DW_TAG_structure_type)
    };
    let names = item_names(Cxx, &item, Some(b"t".as_slice()), None);
    assert_eq!(rt; listing(names), Listed::ByNothing);
    Ok(())
}

#[test]
fn scoped_enumerations_alone_give_components(rt: HostRuntime) -> Result<(), Fail> {
    assert!(rt; gives_component(DW_TAG_enumeration_type, true));
    assert!(rt; !gives_component(DW_TAG_enumeration_type, false));
    assert!(rt; gives_component(DW_TAG_structure_type, false));
    Ok(())
}

fn is_second(
    rt: &impl Abort,
    alloc: Global,
    class: LanguageClass,
    second: SecondName<'_>,
    wanted: &[u8],
) -> Result<(), Fail> {
    let name = second.listed(alloc, class)?;
    is_one_text(rt, &name, wanted)
}

#[test]
fn only_names_are_spelled(rt: HostRuntime) -> Result<(), Fail> {
    let of_cxx = SecondName::OnlyName(b"o(short int)".as_slice());
    is_second(&rt, rt.alloc(), Cxx, of_cxx, b"o(short)".as_slice())?;
    let of_c = SecondName::OnlyName(b"char unsigned".as_slice());
    is_second(&rt, rt.alloc(), C, of_c, b"unsigned char".as_slice())?;
    let entry = SecondName::Linkage(b"short int".as_slice());
    is_second(&rt, rt.alloc(), C, entry, b"short int".as_slice())
}

#[test]
fn second_names_of_ada(rt: HostRuntime) -> Result<(), Fail> {
    let only = SecondName::OnlyName(b"shapes__only__2".as_slice());
    is_second(&rt, rt.alloc(), Ada, only, b"shapes__only".as_slice())?;
    let refused = SecondName::OnlyName(b"a__b___Y12".as_slice());
    is_second(&rt, rt.alloc(), Ada, refused, b"a__b___Y12".as_slice())?;
    let entry = SecondName::Linkage(b"demo__add__2".as_slice());
    is_second(&rt, rt.alloc(), Ada, entry, b"demo__add__2".as_slice())?;
    let encoded = SecondName::Linkage(b"pkg__proc.5".as_slice());
    is_second(&rt, rt.alloc(), Ada, encoded, b"pkg__proc__5".as_slice())
}
