//! Abbreviations: a table that was written by hand (DWARF 5, section 7.5.3).

use entry_scan::{Abbrevs, Damaged};
use ix_base::OrMemory;

// The codes 1 and 2 in order, 238, and 2 once more. Code 238 has a padded attribute and a constant of its own.
const TABLE: [u8; 32] = [
    0x01, 0x11, 0x01, 0x03, 0x08, 0x00, 0x00, // a unit
    0x02, 0x2e, 0x00, 0x3f, 0x19, 0x03, 0x0e, 0x00, 0x00, // a function
    0xee, 0x01, 0x24, 0x02, 0x8b, 0x00, 0x21, 0x7e, 0x00, 0x00, // a type
    0x02, 0x34, 0x00, 0x00, 0x00, // a variable
    0x00,
];

// Code, tag, whether there are children, and attribute, form and constant of each specification.
type Row = (u64, u64, bool, &'static [(u64, u64, i64)]);

const ROWS: [Row; 3] = [
    (1, 0x11, true, &[(0x03, 0x08, 0)]),
    (2, 0x2e, false, &[(0x3f, 0x19, 0), (0x03, 0x0e, 0)]),
    (238, 0x24, true, &[(0x0b, 0x21, -2)]),
];

// Whether the first abbreviation of the row's code is that of the row.
fn is_found(table: &Abbrevs, row: &Row) -> bool {
    let Some(found) = table.find(row.0) else {
        return false;
    };
    let head = (found.tag, found.children, found.specs.len());
    let mut same = head == (row.1, row.2, row.3.len());
    for (spec, want) in found.specs.iter().zip(row.3) {
        same = same && (spec.attribute, spec.form, spec.constant) == *want;
    }
    same
}

// The code of the first row that isn't so.
fn first_other(table: &Abbrevs) -> Option<u64> {
    for row in &ROWS {
        if !is_found(table, row) {
            return Some(row.0);
        }
    }
    None
}

#[test]
fn finds_the_first_of_a_code(rt: HostRuntime) -> Result<(), OrMemory<Damaged>> {
    let table = Abbrevs::read(rt.alloc(), &TABLE, 0)?;
    let none = table.find(3).is_none();
    assert_eq!(rt; (first_other(&table), none), (None, true));
    Ok(())
}
