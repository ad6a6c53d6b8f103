//! entry_scan: the values of one entry, each in another form (DWARF 5, sections 7.5.5 and 7.5.6).

use entry_scan::{Abbrevs, Damaged, Item, Walk};
use index_model::{Part, Unit, UnitSort, Value};
use ix_base::OrMemory;

// The forms implicit_const (with -3), data2, udata, sdata, flag, string, strp, line_strp, strx1, addr, addrx1, ref1, ref_addr,
// ref_sig8, sec_offset, rnglistx, block1 and indirect (to data1), of the attributes 1 to 18.
const TABLE: &[u8; 43] =
    b"\x01\x11\0\x01\x21\x7d\x02\x05\x03\x0f\x04\x0d\x05\x0c\x06\x08\x07\x0e\x08\x1f\x09\x25\x0a\x01\x0b\x29\x0c\x11\x0d\x10\x0e\x20\x0f\x17\x10\x23\x11\x0a\x12\x16\0\0\0";

// A unit with that one entry. The first value stands in the abbreviation alone.
const BYTES: &[u8; 64] =
    b"\x3c\0\0\0\x05\0\x01\x08\0\0\0\0\x01\x01\xff\x80\x01\x80\x7f\x01ab\0\x01\0\0\0\x02\0\0\0\x03\0\x10\0\0\0\0\0\x80\x04\x05\x06\0\0\0\x08\x07\x06\x05\x04\x03\x02\x01\x07\0\0\0\x08\x02\xfe\xff\x0b\x09";

const VALUES: [Value<'static>; 18] = [
    Value::Signed(-3),
    Value::Unsigned(0xff01),
    Value::Unsigned(128),
    Value::Signed(-128),
    Value::Flag(true),
    Value::Inline(b"ab"),
    Value::Str(1),
    Value::LineStr(2),
    Value::StrIndex(3),
    Value::Addr(0x8000_0000_0000_1000),
    Value::AddrIndex(4),
    Value::Near(5),
    Value::Far(6),
    Value::Signature(0x0102_0304_0506_0708),
    Value::Offset(7),
    Value::RangeIndex(8),
    Value::Block(b"\xfe\xff"),
    Value::Unsigned(9),
];

const UNIT: Unit = Unit {
    start: 0,
    part: Part::Info,
    length: 64,
    version: 5,
    wide: false,
    sort: UnitSort::Compile,
    abbrev: 0,
    body: 12,
    signature: 0,
    type_offset: 0,
};

// The first of the numbers 1 to 18 whose value isn't found by the number, or doesn't come in its turn.
fn first_other(item: &Item<'_>) -> Option<u64> {
    let mut attributes = item.attributes();
    for (index, value) in VALUES.iter().enumerate() {
        let number = index as u64 + 1;
        let found = item.value(number) == Some(*value);
        if !found || attributes.next() != Some((number, *value)) {
            return Some(number);
        }
    }
    attributes.next().map(|(number, _)| number)
}

// The first number whose value is another, and the end of the entry.
fn scanned(abbrevs: &Abbrevs) -> Option<(Option<u64>, u64)> {
    let mut walk = Walk::new(BYTES, &UNIT, abbrevs);
    match walk.next() {
        Ok(Some(item)) => Some((first_other(&item), item.after())),
        _ => None,
    }
}

#[test]
fn values_of_each_sort(rt: HostRuntime) -> Result<(), OrMemory<Damaged>> {
    let abbrevs = Abbrevs::read(rt.alloc(), TABLE, 0)?;
    assert_eq!(rt; scanned(&abbrevs), Some((None, 64)));
    Ok(())
}
