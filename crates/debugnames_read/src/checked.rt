//! The places of the pool from which the entries have no fault.

ghost use Rattle.std.specs.Prelude.{◌≡◌, ◌⊎◌, ℕ, true};
ghost use Rattle.debugnames_read.specs.Checked.{is_checked};

use std::alloc::Global;

/// For each byte of the pool whether a reading of the entries from there on has begun; the first fault that any meets ends
/// all reading. Where no memory was left nothing is kept.
#[derive(Drop)]
pub(crate) struct Checked {
    places: Vec<bool>,
}

impl Checked {
    /// None of so many places.
    pub fn none(alloc: Global, count: usize) -> Checked
        ensures { (k : ℕ) → is_checked result k ≡ true → ⊥ }
    {
        Checked {
            places: vec![in alloc; false; count].unwrap_or(Vec::new(alloc)),
        }
    }

    /// Whether a place is among them.
    pub fn has(&self, place: usize) -> bool
        ensures { result ≡ is_checked self.now place }
    {
        self.places.get(place).copied().unwrap_or(false)
    }

    /// Adds a place, if it can be kept.
    pub fn add(&mut self, place: usize)
        ensures { (k : ℕ) → is_checked self.new k ≡ true → (k ≡ place) ⊎ (is_checked self.old k ≡ true) }
    {
        if place < self.places.len() {
            self.places[place] = true;
        }
    }
}
