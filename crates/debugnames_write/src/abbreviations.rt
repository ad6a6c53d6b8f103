//! The abbreviations of the index (DWARF 5, section 6.1.1.4.7).

ghost use Rattle.std.specs.Prelude.{◌≡◌, ◌+◌, ◌≤◌, ◌<◌, ◌++◌, true, false, length, map, Contains, IsTrue, IfOk, OnOk};
ghost use Rattle.std.specs.List.Sorted.{IsPartitionPoint};
ghost use Rattle.index_model.specs.NameIndex.{rows_of, row_lt, row_eq, abbreviation_table, abbreviation_bytes, uleb_bytes};
ghost use Rattle.index_model.specs.Ordered.{place_of};
ghost use Rattle.debugnames_write.specs.Answers.{Answers};
ghost use Rattle.index_model.specs.Order.{Rises, Adds};
ghost use Rattle.debugnames_write.specs.Rows.{KeepsRowAt, row_seen};
ghost use Rattle.debugnames_write.specs.Seen.{items_seen};

use crate::item::{IndexEntry, Row};
use crate::limits::{MAX_INDEX, grown};
use crate::numbers::{push_uleb, uleb_size};
use index_model::WriteStop;
use std::alloc::{AllocError, Global};
use std::marker::Model;

// DW_IDX_compile_unit, DW_IDX_type_unit and DW_IDX_die_offset.
const COMPILE_UNIT: u8 = 1;

const TYPE_UNIT: u8 = 2;

const DIE_OFFSET: u8 = 3;

// DW_FORM_udata and DW_FORM_ref4.
const UDATA: u8 = 0x0F;

const REF4: u8 = 0x13;

// Codes below this have one byte (DWARF 5, section 7.6).
const LEAST_OF_TWO_BYTES: usize = 128;

// The bytes of an abbreviation behind its code and its tag.
const ATTRIBUTES_SIZE: u64 = 6;

/// One abbreviation for each row that occurs, by tag, that of compile units before that of type units. The codes count from 1.
/// Contracts see the rows.
#[derive(Drop)]
pub(crate) struct Abbreviations {
    rows: Vec<Row>,
}

impl Model for Abbreviations {
    ghost use Rattle.std.specs.Prelude.{List, map};
    ghost use Rattle.index_model.specs.NameIndex.{Row as IndexRow, row_lt};
    ghost use Rattle.index_model.specs.Order.{Rises};
    ghost use Rattle.debugnames_write.specs.Rows.{row_seen};

    ghost Value = { List IndexRow };

    ghost view = { λ a. map row_seen a.rows.items };

    ghost invariant = { λ a. Rises row_lt (map row_seen a.rows.items) };
}

impl Abbreviations {
    /// The abbreviations of these entries.
    pub fn of(alloc: Global, items: &[IndexEntry]) -> Result<Abbreviations, AllocError>
        ensures { IfOk result (λ a. a ≡ rows_of (items_seen items.now)) }
    {
        let mut rows = Vec::new(alloc);
        for (place, item) in items.iter().enumerate() {
            // Most entries of one name have one row.
            if !keeps_row(items, place) {
                add(&mut rows, item.row)?;
            }
        }
        Ok(Abbreviations { rows })
    }

    /// The code of the abbreviation of a row.
    pub fn code(&self, row: Row) -> u64
        requires { Contains self.now (row_seen row) }
        ensures { result ≡ place_of row_eq (row_seen row) self.now + 1 }
    {
        place_of(&self.rows, row) as u64 + 1
    }

    /// In how many bytes the code of the abbreviation of a row is written. Few abbreviations have codes of one byte, and then it
    /// isn't looked up.
    pub fn code_size(&self, row: Row) -> u64
        requires { Contains self.now (row_seen row) }
        ensures size { result ≡ length (uleb_bytes (place_of row_eq (row_seen row) self.now + 1)) }
        ensures few { result ≤ 10 }
    {
        if self.rows.len() + 1 < LEAST_OF_TWO_BYTES {
            1
        } else {
            uleb_size(self.code(row))
        }
    }

    /// How many bytes the abbreviations and the zero behind them have.
    pub fn size(&self) -> Result<u64, WriteStop>
        ensures { Answers result (λ size. (size ≡ length (abbreviation_table self.now)) × (size ≤ 4294967283)) (4294967283 < length (abbreviation_table self.now)) }
    {
        let mut size = 1;
        for (place, row) in self.rows.iter().enumerate() {
            let names = uleb_size(place as u64 + 1) + uleb_size(u64::from(row.tag));
            size = grown(size, names + ATTRIBUTES_SIZE, MAX_INDEX)?;
        }
        Ok(size)
    }

    /// Appends the abbreviations and a zero.
    pub fn push(&self, out: &mut Vec<u8>) -> Result<(), AllocError>
        ensures { OnOk result (out.new.items ≡ out.old.items ++ abbreviation_table self.now) }
    {
        for (place, row) in self.rows.iter().enumerate() {
            push_abbreviation(out, place as u64 + 1, *row)?;
        }
        out.push(0)?;
        Ok(())
    }
}

// Whether the entry at the index has the row of the one before it.
fn keeps_row(items: &[IndexEntry], index: usize) -> bool
    requires { index < length items.now }
    ensures { IsTrue result → KeepsRowAt items.now index }
{
    0 < index && items[index].row == items[index - 1].row
}

// The place of the first row that doesn't come before this one.
fn place_of(rows: &[Row], row: Row) -> usize
    requires { Rises row_lt (map row_seen rows.now) }
    ensures within { result ≤ length rows.now }
    ensures parts { IsPartitionPoint (λ r. row_lt (row_seen r) (row_seen row) ≡ true) (λ r. row_lt (row_seen r) (row_seen row) ≡ false) rows.now result }
{
    rows.partition_point(|other| comes_before(*other, row))
}

// By tag, and of one tag the row of compile units before that of type units.
fn comes_before(row: Row, other: Row) -> bool
    ensures { result ≡ row_lt (row_seen row) (row_seen other) }
{
    row.tag < other.tag || (row.tag == other.tag && !row.types && other.types)
}

// Adds a row at its place, unless it stands there.
fn add(rows: &mut Vec<Row>, row: Row) -> Result<(), AllocError>
    requires { Rises row_lt (map row_seen rows.old.items) }
    ensures rises { OnOk result (Rises row_lt (map row_seen rows.new.items)) }
    ensures adds { OnOk result (Adds (row_seen row) (map row_seen rows.old.items) (map row_seen rows.new.items)) }
{
    let place = place_of(rows, row);
    if place < rows.len() && rows[place] == row {
        return Ok(());
    }
    rows.insert(place, row)?;
    Ok(())
}

// A code and a tag, the unit's place as udata and the entry's offset as ref4, and the pair that ends them.
fn push_abbreviation(out: &mut Vec<u8>, code: u64, row: Row) -> Result<(), AllocError>
    ensures { OnOk result (out.new.items ≡ out.old.items ++ abbreviation_bytes code (row_seen row)) }
{
    let unit = if row.types { TYPE_UNIT } else { COMPILE_UNIT };
    push_uleb(out, code)?;
    push_uleb(out, u64::from(row.tag))?;
    out.extend_from_slice(&[unit, UDATA, DIE_OFFSET, REF4, 0, 0])
}
