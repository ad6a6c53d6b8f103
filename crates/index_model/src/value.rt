//! The value of an attribute (DWARF 5, section 7.5.6).

/// A value of an attribute, with its number as it stands in the entry.
#[derive(Clone, Copy, Debug, PartialEq, Eq)]
pub enum Value<'a> {
    /// An address.
    Addr(u64),
    /// A constant without a sign.
    Unsigned(u64),
    /// A constant with a sign.
    Signed(i64),
    /// A constant of 16 bytes, which isn't kept.
    Wide,
    /// Whether a flag is set.
    Flag(bool),
    /// A string that stands in the entry, without its zero.
    Inline(&'a [u8]),
    /// An offset into `.debug_str`.
    Str(u64),
    /// An offset into `.debug_line_str`.
    LineStr(u64),
    /// An index into the unit's part of `.debug_str_offsets`.
    StrIndex(u64),
    /// An index into the unit's part of `.debug_addr`.
    AddrIndex(u64),
    /// A reference, counted from the first byte of the unit.
    Near(u64),
    /// A reference, counted from the first byte of `.debug_info`.
    Far(u64),
    /// The signature of a type unit.
    Signature(u64),
    /// An offset into the section that the attribute names.
    Offset(u64),
    /// An index into the unit's part of `.debug_rnglists`.
    RangeIndex(u64),
    /// An index into the unit's part of `.debug_loclists`.
    ListIndex(u64),
    /// Bytes whose count stands before them, without the count.
    Block(&'a [u8]),
}
