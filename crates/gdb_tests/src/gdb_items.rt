//! Items of units, with what gdb does of them by its rules (gdb/dwarf2/read.c, `index_dies`; docs/GDB.md has them in words).

use dwarf_codes::tag::{
    DW_TAG_compile_unit, DW_TAG_namespace, DW_TAG_structure_type, DW_TAG_subprogram,
    DW_TAG_variable,
};
use gdb_entries::{ItemFacts, LanguageClass};
use gdb_reach::{Answer, Look, Reached, ToldItem, answers};
use std::alloc::Global;
use std::process::Abort;
use std::test::Fail;

const ENTRY_POINT: u64 = 0x03;

const LEXICAL_BLOCK: u64 = 0x0b;

// An item: its depth, its tag, and whether it has children and a name.
type Row = (u32, u64, bool, bool);

// Whether it is looked at, the index of the innermost open item around it, if gdb comes to it, and whether it is open.
type Done = (bool, Option<u64>, bool);

const ADA: &[(Row, Done)] = &[
    ((0, DW_TAG_compile_unit, true, true), (false, None, false)),
    ((1, DW_TAG_subprogram, true, true), (true, None, true)),
    // A variable right in a subprogram isn't looked at, and neither is one in a block of it. A subprogram in a block is.
    ((2, DW_TAG_variable, false, true), (false, Some(1), false)),
    ((2, LEXICAL_BLOCK, true, false), (false, Some(1), false)),
    ((3, DW_TAG_variable, false, true), (false, Some(1), false)),
    ((3, DW_TAG_subprogram, false, true), (true, Some(1), false)),
    // An entry point is looked at in a subprogram, also in a type there that isn't.
    (
        (2, DW_TAG_structure_type, true, true),
        (false, Some(1), false),
    ),
    ((3, ENTRY_POINT, false, true), (true, Some(1), false)),
    // Behind the subprogram nothing is left of it.
    ((1, DW_TAG_variable, false, true), (true, None, false)),
    ((1, ENTRY_POINT, false, true), (false, None, false)),
    ((1, LEXICAL_BLOCK, true, false), (false, None, false)),
    ((2, DW_TAG_variable, false, true), (false, None, false)),
    // A namespace is open without a name.
    ((1, DW_TAG_namespace, true, false), (true, None, true)),
    ((2, DW_TAG_variable, false, true), (true, Some(12), false)),
    ((2, ENTRY_POINT, false, true), (false, Some(12), false)),
];

// In C neither structures nor subprograms are open, and what stands in them isn't come to.
const C: &[(Row, Done)] = &[
    ((0, DW_TAG_compile_unit, true, true), (false, None, false)),
    ((1, DW_TAG_structure_type, true, true), (true, None, false)),
    (
        (2, DW_TAG_structure_type, false, true),
        (false, None, false),
    ),
    ((1, DW_TAG_subprogram, true, true), (true, None, false)),
    ((2, DW_TAG_subprogram, false, true), (false, None, false)),
    ((1, DW_TAG_variable, false, true), (true, None, false)),
    ((1, DW_TAG_variable, false, false), (false, None, false)),
];

// In C subprograms aren't open, and what stands in them isn't come to: the innermost open item around it is the namespace all the same,
// and behind the namespace there is none.
const NAMESPACE: &[(Row, Done)] = &[
    ((0, DW_TAG_compile_unit, true, true), (false, None, false)),
    ((1, DW_TAG_namespace, true, true), (true, None, true)),
    ((2, DW_TAG_subprogram, true, true), (true, Some(1), false)),
    ((3, LEXICAL_BLOCK, true, false), (false, None, false)),
    ((4, DW_TAG_variable, false, true), (false, None, false)),
    ((2, DW_TAG_variable, false, true), (true, Some(1), false)),
    ((1, DW_TAG_subprogram, true, true), (true, None, false)),
    ((2, LEXICAL_BLOCK, true, false), (false, None, false)),
    ((3, DW_TAG_variable, false, true), (false, None, false)),
];

// Of each of these the index of the innermost open item around it, come to or not, and that of its lexical parent.
const AROUND_IN_NAMESPACE: &[(Option<u64>, Option<u64>)] = &[
    (None, None),
    (None, Some(0)),
    (Some(1), Some(1)),
    (Some(1), Some(2)),
    (Some(1), Some(3)),
    (Some(1), Some(1)),
    (None, Some(0)),
    (None, Some(6)),
    (None, Some(7)),
];

fn facts(row: &Row) -> ItemFacts {
    ItemFacts {
        tag: row.1,
        children: row.2,
        named: row.3,
        declared: false,
        external: false,
    }
}

// The token of each item is its index.
fn told(alloc: Global, rows: &[(Row, Done)]) -> Result<Vec<ToldItem>, Fail> {
    let mut told = Vec::new(alloc);
    for (index, row) in rows.iter().enumerate() {
        told.push(ToldItem {
            depth: row.0.0,
            facts: facts(&row.0),
            has_name: row.0.3,
            token: index as u64,
        })?;
    }
    Ok(told)
}

fn look_in(row: &(Row, Done)) -> Look {
    Look {
        is_seen: row.1.0,
        around: row.1.1,
    }
}

// Around what isn't come to no item of these is open, so that the innermost open one is the same.
fn are_answered(
    rt: &impl Abort,
    alloc: Global,
    class: LanguageClass,
    rows: &[(Row, Done)],
) -> Result<(), Fail> {
    let items = told(alloc, rows)?;
    let found = answers(alloc, class, items.as_slice())?;
    assert_eq!(rt; found.len(), rows.len());
    for (answer, row) in found.iter().zip(rows.iter()) {
        let look = look_in(row);
        assert_eq!(rt; *answer, Answer { look, is_open: row.1.2, open_around: row.1.1 });
    }
    Ok(())
}

#[test]
fn items_of_ada(rt: HostRuntime) -> Result<(), Fail> {
    are_answered(&rt, rt.alloc(), LanguageClass::Ada, ADA)
}

#[test]
fn items_of_c(rt: HostRuntime) -> Result<(), Fail> {
    are_answered(&rt, rt.alloc(), LanguageClass::C, C)
}

// What has no children is left out: the block is gone through all the same.
#[test]
fn items_with_children_alone(rt: HostRuntime) -> Result<(), Fail> {
    let mut reached = Reached::new(rt.alloc(), LanguageClass::Ada);
    assert!(rt; !reached.enter(0, &facts(&ADA[0].0), true, 0)?);
    assert!(rt; reached.enter(1, &facts(&ADA[1].0), true, 1)?);
    assert!(rt; !reached.enter(2, &facts(&ADA[3].0), false, 3)?);
    let look = reached.look(3, &facts(&ADA[5].0));
    assert!(rt; look.is_seen);
    assert_eq!(rt; look.around, Some(1));
    Ok(())
}

#[test]
fn open_items_around_what_is_not_come_to(rt: HostRuntime) -> Result<(), Fail> {
    let items = told(rt.alloc(), NAMESPACE)?;
    let found = answers(rt.alloc(), LanguageClass::C, items.as_slice())?;
    assert_eq!(rt; found.len(), AROUND_IN_NAMESPACE.len());
    let rows = NAMESPACE.iter().zip(AROUND_IN_NAMESPACE.iter());
    for (answer, (row, around)) in found.iter().zip(rows) {
        let look = look_in(row);
        assert_eq!(rt; *answer, Answer { look, is_open: row.1.2, open_around: around.0 });
    }
    Ok(())
}

// What has no children is left out.
#[test]
fn open_items_and_parents_around_items(rt: HostRuntime) -> Result<(), Fail> {
    let mut reached = Reached::new(rt.alloc(), LanguageClass::C);
    let rows = NAMESPACE.iter().zip(AROUND_IN_NAMESPACE.iter());
    for (index, (row, around)) in rows.enumerate() {
        assert_eq!(rt; reached.open_around(row.0.0), around.0);
        assert_eq!(rt; reached.parent(row.0.0), around.1);
        if row.0.2 {
            let _is_open = reached.enter(row.0.0, &facts(&row.0), row.0.3, index as u64)?;
        }
    }
    Ok(())
}
