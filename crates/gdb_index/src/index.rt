//! The index as a whole.

ghost use Rattle.std.specs.Prelude.{◌≡◌, ◌<◌, ◌≤◌, length, All, IfOk, Err};
ghost use Rattle.gdb_entries.specs.Files.{ForProgram, HasProgram};
ghost use Rattle.gdbindex_write.specs.Writable.{AreUnits};
ghost use Rattle.index_model.specs.WriteStops.{too_large};
ghost use Rattle.gdb_index.specs.Indexes.{listed_bytes};

use crate::main_listed::main_listed;
use crate::table::listed_table;
use address_map::AddressMap;
use file_image::Image;
use gdbindex_write::write;
use index_forms::GdbVersion;
use index_model::{Main, WriteStop};
use std::alloc::Global;
use std::thread::Threads;

/// The bytes of the `.gdb_index` of a file without a fault, with the entries that gdb lists of it, this map of its addresses, and this
/// main where gdb lists its name. They are the same for any number of workers, which list the entries of several units at a time.
///
/// # Errors
///
/// `TooLarge` exactly where the index has more than 4,294,967,295 bytes, and `Memory` where memory was refused or there are
/// 4,294,967,296 entries or more.
pub fn listed_index<'f, R: Threads + Sync>(
    rt: &R,
    alloc: Global,
    workers: u32,
    image: &Image<'f>,
    map: &AddressMap,
    main: &Option<Main<'_>>,
    version: GdbVersion,
) -> Result<Vec<u8>, WriteStop>
    requires program { HasProgram image.now.file }
    requires units { AreUnits image.now.units }
    requires pieces { All (λ p. p.unit < length image.now.units) map.now }
    ensures bytes { ForProgram image.now.file (λ p. IfOk result (λ v. v.items ≡ listed_bytes p image.now.units map.now main.now version)) }
    ensures fits { IfOk result (λ v. length v.items ≤ 4294967295) }
    ensures too_large { ForProgram image.now.file (λ p. result ≡ Err too_large → 4294967295 < length (listed_bytes p image.now.units map.now main.now version)) }
{
    let units = image.units();
    let table = listed_table(rt, alloc, workers as usize, image)?;
    let main = main_listed(main, table.entries());
    write(alloc, units, map, main, &table, version.number())
}
