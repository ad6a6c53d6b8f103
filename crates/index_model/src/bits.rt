//! The bits of a byte, one by one.

ghost use Rattle.std.specs.Prelude.{◌≡◌, if◌then◌else◌};
ghost use Rattle.index_model.specs.Marks.{is_set};

/// The bit where the fact holds, else 0.
pub(crate) fn bit(holds: bool, bit: u8) -> u8
    ensures { result ≡ (if holds then bit else 0) }
{
    if holds { bit } else { 0 }
}

/// Whether the bit is set.
pub(crate) fn is_set(bits: u8, bit: u8) -> bool
    ensures { result ≡ is_set bits bit }
{
    bits & bit != 0
}
