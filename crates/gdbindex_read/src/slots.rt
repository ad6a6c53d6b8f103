//! The slots of the symbol table, and what each has in the constant pool.

ghost use Rattle.std.specs.Prelude.{◌≡◌, ◌≤◌, ◌<◌, ◌^◌, length, option_map};
ghost use Rattle.index_model.specs.GdbAreas.{items};
ghost use Rattle.index_model.specs.GdbIndexRead.{is_table_size, slot_at};
ghost use Rattle.index_model.specs.Meaning.{each, wrong_in};
ghost use Rattle.gdbindex_read.specs.Areas.{area_seen, areas_seen};
ghost use Rattle.gdbindex_read.specs.Pool.{string_in};
ghost use Rattle.gdbindex_read.specs.Runs.{AreKnown};
ghost use Rattle.gdbindex_read.specs.Slots.{checked_size, slot_in, AreLimits};

use crate::area::{Area, fault, u32_at};
use crate::areas::Areas;
use crate::runs::VectorsSeen;
use byteorder::{ByteOrder, LittleEndian};
use index_model::index_code::{GDB_BAD_NAME, GDB_BAD_VECTOR, GDB_TABLE_SIZE};
use ix_base::Fault;
use std::alloc::Global;
use string_ends::{last_end, text_at};

/// A slot that isn't empty: the offsets of its name and of its vector in the constant pool.
#[derive(Clone, Copy)]
pub(crate) struct Slot {
    pub name: u32,
    pub vector: u32,
}

pub(crate) const SLOT_LENGTH: usize = 8;

impl Slot {
    /// The slot in these bytes. It is empty where all are zero.
    pub fn read(bytes: &[u8]) -> Option<Slot>
        requires { 8 ≤ length bytes.now }
        ensures { result ≡ slot_in bytes.now }
    {
        if LittleEndian::read_u64(bytes) == 0 {
            return None;
        }
        Some(Slot {
            name: LittleEndian::read_u32(bytes),
            vector: u32_at(bytes, 4),
        })
    }
}

/// The string at an offset of the constant pool, if a zero ends it.
pub(crate) fn string_at<'a>(pool: &'a [u8], offset: u32) -> Option<&'a [u8]>
    ensures { option_map (λ t. t.now) result ≡ string_in pool.now offset }
{
    text_at(pool, u64::from(offset))
}

/// Whether the table ends with a slot, and the slots are none or a power of two.
pub(crate) fn check_size(table: &Area<'_>) -> Result<(), Fault>
    requires { length table.now.bytes.now < 2 ^ 32 }
    ensures { wrong_in result ≡ wrong_in (checked_size (area_seen table.now)) }
{
    let is_whole = table.bytes.len() % SLOT_LENGTH == 0;
    if !is_whole || !is_table_size(table.count(SLOT_LENGTH)) {
        return Err(fault(GDB_TABLE_SIZE, table.at));
    }
    Ok(())
}

// Whether a table may have so many slots.
fn is_table_size(slots: usize) -> bool
    requires { slots < 2 ^ 32 }
    ensures { result ≡ is_table_size slots }
{
    slots == 0 || slots.is_power_of_two()
}

/// How many units there are, and where the last string of the pool ends. Strings begin before that, and nowhere else.
#[derive(Clone, Copy)]
pub(crate) struct Limits {
    units: usize,
    end: usize,
}

impl Limits {
    // Those of an index.
    fn of(areas: &Areas<'_>) -> Limits
        ensures { AreLimits (areas_seen areas.now) result }
    {
        Limits {
            units: areas.unit_count(),
            end: last_end(areas.pool.bytes),
        }
    }
}

/// The first fault of a name or a vector, slot by slot. No string is read, and no element more often than `VectorsSeen` says.
pub(crate) fn check_slots(alloc: Global, areas: &Areas<'_>) -> Result<(), Fault>
    ensures { wrong_in result ≡ wrong_in (each (slot_at (areas_seen areas.now)) (items 8 (areas_seen areas.now).table)) }
{
    let limits = Limits::of(areas);
    let mut vectors = VectorsSeen::none(alloc, areas.pool.bytes.len());
    let count = areas.table.count(SLOT_LENGTH);
    for number in 0..count {
        let slot = areas.table.item(SLOT_LENGTH, number);
        check_slot(areas, limits, &mut vectors, slot)?;
    }
    Ok(())
}

// A slot's name has an end, and its vector lies in the pool and has numbers of units alone.
fn check_slot(
    areas: &Areas<'_>,
    limits: Limits,
    vectors: &mut VectorsSeen,
    slot: Area<'_>,
) -> Result<(), Fault>
    requires long { 8 ≤ length slot.bytes.now }
    requires limits { AreLimits (areas_seen areas.now) limits }
    requires known { AreKnown (areas_seen areas.now).pool.rest limits.units vectors.old }
    ensures value { wrong_in result ≡ wrong_in (slot_at (areas_seen areas.now) (area_seen slot.entry)) }
    ensures known { AreKnown (areas_seen areas.now).pool.rest limits.units vectors.new }
{
    let Some(found) = Slot::read(slot.bytes) else {
        return Ok(());
    };
    if found.name as usize >= limits.end {
        return Err(fault(GDB_BAD_NAME, slot.at));
    }
    if !vectors.has(areas.pool.bytes, limits.units, found.vector) {
        return Err(fault(GDB_BAD_VECTOR, slot.at));
    }
    Ok(())
}
