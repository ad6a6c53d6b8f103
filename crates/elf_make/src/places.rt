//! Where the units of the generated file lie in `.debug_info`, and what they name.

ghost use Rattle.std.specs.Prelude.{◌≡◌, ◌≤◌, ◌<◌, ◌^◌, ◌%◌};
ghost use Rattle.elf_make.specs.Generated.{abbreviations, low_of, unit_start, declaration_in, specified_by};

// The length of a unit of even number without main.
pub(crate) const C_SIZE: u32 = 109;

// The length of a unit of odd number.
pub(crate) const CPP_SIZE: u32 = 76;

// How many bytes main takes.
pub(crate) const MAIN_SIZE: u32 = 18;

// Where the declaration stands in a unit of odd number: behind its header of 12 bytes, the unit's entry of 27, the
// namespace's of 3 and the class's of 11.
const DECLARATION_PLACE: u32 = 53;

/// Where a unit begins in `.debug_info`, which is also where the units before it end.
pub(crate) fn start_of_unit(index: u32) -> u32
    requires { index ≤ 100000 }
    ensures place { result ≡ unit_start (abbreviations 0 2) 0 index }
    ensures small { result ≤ 9250018 }
{
    if index == 0 {
        return 0;
    }
    MAIN_SIZE + C_SIZE * ((index + 1) / 2) + CPP_SIZE * (index / 2)
}

/// Where the declaration that the unit of this odd number specifies stands in `.debug_info`.
pub(crate) fn declaration_for(seed: u32, units: u32, index: u32) -> u32
    requires few { units ≤ 100000 }
    requires index { index < units }
    requires odd { index % 2 ≡ 1 }
    ensures { result ≡ declaration_in (abbreviations 0 2) 0 (specified_by seed units index) }
{
    let pairs = u64::from(units / 2);
    let pair = (u64::from((index - 1) / 2) + u64::from(seed)) % pairs;
    start_of_unit(2 * pair as u32 + 1) + DECLARATION_PLACE
}

/// Where the addresses of a unit begin.
pub(crate) fn low_address(seed: u32, index: u32) -> u64
    ensures low { result ≡ low_of seed index }
    ensures small { result < 2 ^ 41 }
{
    0x10_0000 + 0x1000 * u64::from(seed % 4096) + 0x100 * u64::from(index)
}
