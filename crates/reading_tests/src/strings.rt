//! The strings of two programs, as readelf shows them.

use file_image::{Sections, test_text, text};
use index_model::Value;
use ix_base::Stop;
use ix_base::code::BAD_STRING;
use test_files::programs::{STRINGS_BY_INDEX, STRINGS_BY_OFFSET};

const ROWS: [(Value<'static>, Option<&'static [u8]>); 4] = [
    (Value::Inline(b"int"), Some(b"int")),
    (Value::Str(8), Some(b"main")),
    (Value::LineStr(4), Some(b"/t")),
    (Value::Unsigned(8), None),
];

// Whether a value is this string, in a unit whose part of the table of offsets begins at a base.
fn is(sections: &Sections<'_>, base: Option<u64>, value: &Value<'_>, want: Option<&[u8]>) -> bool {
    text(sections, base, false, value) == Ok(want)
        && test_text(sections, base, false, value) == Ok(())
}

// The number of the first row that isn't so.
fn first_other(sections: &Sections<'_>) -> Option<usize> {
    for (number, row) in ROWS.iter().enumerate() {
        if !is(sections, None, &row.0, row.1) {
            return Some(number);
        }
    }
    None
}

#[test]
fn strings_by_offset(rt: HostRuntime) -> Result<(), Stop> {
    let sections = Sections::open(rt.alloc(), &STRINGS_BY_OFFSET)?;
    assert_eq!(rt; first_other(&sections), None);
    assert_eq!(rt;
        test_text(&sections, None, false, &Value::Str(4096)),
        Err(BAD_STRING)
    );
    Ok(())
}

// The part of the unit begins behind a header of 8 bytes.
#[test]
fn strings_by_index(rt: HostRuntime) -> Result<(), Stop> {
    let sections = Sections::open(rt.alloc(), &STRINGS_BY_INDEX)?;
    assert!(rt; is(&sections, Some(8), &Value::StrIndex(0), Some(b"a.c")));
    Ok(())
}
