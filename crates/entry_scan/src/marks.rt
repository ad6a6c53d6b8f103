//! Which attributes an abbreviation may have, by one look.

ghost use Rattle.std.specs.Prelude.{◌≡◌, ℕ, true, ◌↔◌};
ghost use Rattle.entry_scan.specs.Marks.{HasMark, AreMarks};

use crate::abbreviation::Spec;

/// A bit for each number divided by 64 leaves: it is set where an attribute of such a number may be there.
#[derive(Clone, Copy)]
pub(crate) struct AttributeBits {
    bits: u64,
}

impl AttributeBits {
    /// Those of these attributes.
    pub fn of(specs: &[Spec]) -> AttributeBits
        ensures { AreMarks specs.now result }
    {
        let mut marks = AttributeBits { bits: 0 };
        for spec in specs {
            marks = marks.with(spec.attribute);
        }
        marks
    }

    // These, and that of one more attribute.
    fn with(self, attribute: u64) -> AttributeBits
        ensures one { HasMark result attribute }
        ensures others { (other : ℕ) → HasMark self other → HasMark result other }
    {
        AttributeBits {
            bits: self.bits | (1 << (attribute % 64)),
        }
    }

    /// Whether the attribute may be there.
    #[tactic(auto, using(std::proofs::lemmas::Nat::Bits::shr_and_one))]
    pub fn may_have(self, attribute: u64) -> bool
        ensures { (result ≡ true) ↔ HasMark self attribute }
    {
        (self.bits >> (attribute % 64)) & 1 == 1
    }
}
