//! The address area: the unit of each of its ranges.

ghost use Rattle.std.specs.Prelude.{◌≡◌, ◌≤◌, length, option_map, find, nat_le, nat_lt, ◌&&◌};
ghost use Rattle.index_model.specs.GdbAreas.{items};
ghost use Rattle.index_model.specs.GdbIndexRead.{address};
ghost use Rattle.index_model.specs.Gives.{GivesAlways};
ghost use Rattle.index_model.specs.Meaning.{each, wrong_in};
ghost use Rattle.gdbindex_read.specs.Areas.{areas_seen};
ghost use Rattle.gdbindex_read.specs.Addresses.{addresses_seen, address_in, checked_addresses, entry_seen};

use crate::area::{Area, fault, u32_at};
use crate::areas::Areas;
use byteorder::{ByteOrder, LittleEndian};
use index_model::index_code::GDB_ADDRESS_AREA;
use ix_base::Fault;

/// The entries of the address area, in any order. They may overlap.
#[derive(Clone, Copy)]
pub(crate) struct AddressArea<'a> {
    area: Area<'a>,
}

/// An entry: addresses from `low` up to `end`, which isn't among them, and the index number of their unit.
#[derive(Clone, Copy)]
pub(crate) struct AddressEntry {
    low: u64,
    end: u64,
    unit: u32,
}

const ENTRY_LENGTH: usize = 20;

impl AddressEntry {
    // The entry in these bytes.
    fn read(bytes: &[u8]) -> AddressEntry
        requires { 20 ≤ length bytes.now }
        ensures { entry_seen result ≡ address_in bytes.now }
    {
        AddressEntry {
            low: LittleEndian::read_u64(bytes),
            end: LittleEndian::read_u64(&bytes[8..]),
            unit: u32_at(bytes, 16),
        }
    }

    // Whether the entry contains an address.
    fn contains(&self, address: u64) -> bool
        ensures { result ≡ (nat_le self.now.low address && nat_lt address self.now.end) }
    {
        self.low <= address && address < self.end
    }
}

impl<'a> AddressArea<'a> {
    /// The address area of an index, or its first fault: it ends inside an entry, or an entry has the number of no unit.
    pub fn open(areas: &Areas<'a>) -> Result<AddressArea<'a>, Fault>
        ensures { GivesAlways addresses_seen result (checked_addresses (areas_seen areas.now)) }
    {
        let area = areas.addresses;
        if area.bytes.len() % ENTRY_LENGTH != 0 {
            return Err(fault(GDB_ADDRESS_AREA, area.at));
        }
        check_entries(areas)?;
        Ok(AddressArea { area })
    }

    /// The index number of the unit of the first entry that contains the address.
    pub fn unit_at(&self, address: u64) -> Option<u32>
        ensures { result ≡ option_map (λ e. e.number) (find (λ e. nat_le e.low address && nat_lt address e.end) (addresses_seen self.now)) }
    {
        let count = self.area.count(ENTRY_LENGTH);
        for number in 0..count {
            let entry = AddressEntry::read(self.area.item(ENTRY_LENGTH, number).bytes);
            if entry.contains(address) {
                return Some(entry.unit);
            }
        }
        None
    }
}

// Each entry has the number of a unit, or else the fault of the first that hasn't.
fn check_entries(areas: &Areas<'_>) -> Result<(), Fault>
    ensures { wrong_in result ≡ wrong_in (each (address (areas_seen areas.now)) (items 20 (areas_seen areas.now).addresses)) }
{
    let units = areas.unit_count();
    let count = areas.addresses.count(ENTRY_LENGTH);
    for number in 0..count {
        let entry = areas.addresses.item(ENTRY_LENGTH, number);
        if AddressEntry::read(entry.bytes).unit as usize >= units {
            return Err(fault(GDB_ADDRESS_AREA, entry.at));
        }
    }
    Ok(())
}
