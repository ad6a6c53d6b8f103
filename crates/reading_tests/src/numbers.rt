//! ix_base: numbers and texts whose bytes the standard gives.

use ix_base::{Cursor, Initial};

// DWARF 5, section 7.6: the tables of examples of unsigned and of signed LEB128 numbers.
const UNSIGNED: [(&[u8], u64); 5] = [
    (&[0x02], 2),
    (&[0x7f], 127),
    (&[0x80, 0x01], 128),
    (&[0x81, 0x01], 129),
    (&[0xb9, 0x64], 12857),
];

const SIGNED: [(&[u8], i64); 7] = [
    (&[0x02], 2),
    (&[0x7e], -2),
    (&[0xff, 0x00], 127),
    (&[0x81, 0x7f], -127),
    (&[0x80, 0x01], 128),
    (&[0x80, 0x7f], -128),
    (&[0xff, 0x7e], -129),
];

#[test]
fn leb128_numbers(rt: HostRuntime) {
    for (bytes, value) in &UNSIGNED {
        assert_eq!(rt; Cursor::new(bytes, 0).uleb(), Some(*value));
    }
    for (bytes, value) in &SIGNED {
        assert_eq!(rt; Cursor::new(bytes, 0).sleb(), Some(*value));
    }
}

#[test]
fn numbers_one_after_the_other(rt: HostRuntime) {
    let mut cursor = Cursor::new(&[1, 2, 1, 3, 2, 1, 4, 3, 2, 1, 4, 3, 2, 1, 9], 0);
    let small = (cursor.u8(), cursor.u16(), cursor.u24());
    assert_eq!(rt; small, (Some(0x01), Some(0x0102), Some(0x01_0203)));
    let large = (cursor.u32(), cursor.offset(false), cursor.u16());
    assert_eq!(rt; large, (Some(0x0102_0304), Some(0x0102_0304), None));
    assert_eq!(rt; (cursor.at(), cursor.rest()), (14, [9].as_slice()));
}

#[test]
fn texts_one_after_the_other(rt: HostRuntime) {
    let bytes = b"\xff\xff\xff\xff\x05\0\0\0\0\0\0\0ab\0\x06\x07\x0a\x08\x09";
    let mut cursor = Cursor::new(bytes, 0);
    let wide = Initial {
        length: 5,
        wide: true,
    };
    assert_eq!(rt; cursor.initial_length(), Some(wide));
    let texts = (cursor.zstr(), cursor.bytes(1), cursor.skip(1));
    assert_eq!(rt;
        texts,
        (Some(b"ab".as_slice()), Some([6].as_slice()), Some(()))
    );
    let part = cursor.part(1).map(|part| part.rest());
    assert_eq!(rt;
        (part, cursor.rest()),
        (Some([10].as_slice()), [8, 9].as_slice())
    );
}
