//! Where the values of an abbreviation's attributes begin, by one look.

ghost use Rattle.std.specs.Prelude.{◌≡◌, ◌%◌, ◌⊎◌, ℕ, Some, None, IfSome, IsSome};
ghost use Rattle.entry_scan.specs.Jumps.{IsJump, AreJumps, slot};

use crate::abbreviation::Spec;
use crate::sizes::{Front, with_next};

/// An attribute whose value begins at the same place in each entry of a unit of the 32-bit format.
#[derive(Clone, Copy)]
pub(crate) struct Jump {
    /// Its index among the attributes of its abbreviation.
    pub index: u8,
    /// How many bytes the values before it take.
    pub bytes: u8,
}

impl Jump {
    // That of the attribute behind a front. None where a number is too large.
    fn behind(front: Front) -> Option<Jump>
        ensures index { IfSome result (λ j. j.index ≡ front.count) }
        ensures bytes { IfSome result (λ j. j.bytes ≡ front.bytes) }
    {
        Some(Jump {
            index: u8::try_from(front.count).ok()?,
            bytes: u8::try_from(front.bytes).ok()?,
        })
    }
}

/// Of each number divided by 64 that is left, the first attribute of such a number, if it begins at one place.
#[derive(Clone, Copy)]
pub(crate) struct Jumps {
    slots: [Option<Jump>; 64],
}

impl Jumps {
    /// Those of these attributes.
    pub fn of(specs: &[Spec]) -> Jumps
        ensures { AreJumps specs.now result }
    {
        let mut jumps = Jumps { slots: [None; 64] };
        let mut front = Front { count: 0, bytes: 0 };
        for spec in specs {
            let Some(jump) = Jump::behind(front) else {
                return jumps;
            };
            jumps.add(spec.attribute, jump);
            let Some(longer) = with_next(front, spec.form) else {
                return jumps;
            };
            front = longer;
        }
        jumps
    }

    // Adds the jump of an attribute, where there is no earlier one of such a number.
    fn add(&mut self, attribute: u64, jump: Jump)
        ensures own { IsSome (slot self.new attribute) }
        ensures each { (m : ℕ) → (slot self.new m ≡ slot self.old m) ⊎ ((m % 64 ≡ attribute % 64) × (slot self.old m ≡ None) × (slot self.new m ≡ Some jump)) }
    {
        let at = (attribute % 64) as usize;
        if self.slots[at].is_none() {
            self.slots[at] = Some(jump);
        }
    }

    /// The jump of the first attribute that has the same number divided by 64 left.
    pub fn of_number(&self, attribute: u64) -> Option<Jump>
        ensures { result ≡ slot self.now attribute }
    {
        self.slots[(attribute % 64) as usize]
    }
}
