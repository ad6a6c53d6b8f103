//! The generator.

ghost use Rattle.std.specs.Prelude.{◌≡◌, ◌≤◌, IfOk};
ghost use Rattle.elf_make.specs.Generated.{generated_file};

use crate::codes::abbreviation_table;
use crate::packer::Packer;
use crate::places::start_of_unit;
use crate::units::push_unit;
use ix_base::NoMemory;
use std::alloc::Global;

const ET_EXEC: u16 = 2;

/// The generated file of a seed and of 1 to 100,000 units: a program whose units are in C and in C++ by turns, as the
/// definition says. It has less than 10 MB.
///
/// # Errors
///
/// `NoMemory` where memory was refused.
#[tactic(auto, unfolding(crate::specs::Packed::name_table, crate::specs::Packed::names, crate::specs::Generated::generated_file))]
pub fn make(alloc: Global, seed: u32, units: u32) -> Result<Vec<u8>, NoMemory>
    requires some { 1 ≤ units }
    requires few { units ≤ 100000 }
    ensures { IfOk result (λ file. file.items ≡ generated_file seed units) }
{
    let mut info = Vec::with_capacity(alloc, start_of_unit(units) as usize)?;
    for index in 0..units {
        push_unit(&mut info, seed, units, index)?;
    }
    let mut packer = Packer::new(alloc, ET_EXEC)?;
    packer.add(b".debug_abbrev", abbreviation_table(seed, units))?;
    packer.add(b".debug_info", info.as_slice())?;
    packer.finish()
}
