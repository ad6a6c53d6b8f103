//! Labels, numbered in the order of their first uses.

ghost use Rattle.std.specs.Prelude.{◌≡◌, ◌<◌, ◌≤◌, ◌^◌, ◌+◌, length, IsTrue, IfOk, OnOk};
ghost use Rattle.query_engine.specs.Marks.{AreNumbered, IsAt, IsNumberOf, Numbers};
ghost use Rattle.query_engine.specs.Labels.{labelled};
ghost use Rattle.query_engine.specs.Seen.{labels_seen};

use crate::label::Label;
use reading_limit::ReadingLimit;
use std::alloc::{AllocError, Global};
use std::hash::{FoldHasher, Hasher};
use std::mem::replace;

// A label has one of so many slots, from the one of its hash on.
const PROBES: usize = 32;

// The slots of an empty table, and the most that one has: powers of two, less 1.
const FIRST_MASK: u32 = 1023;

const LAST_MASK: u32 = 1073741823;

// So many bytes of a name are hashed.
const HASHED: usize = 256;

// How many bytes of names that were met before may be compared, and how many more for each. Entries of a file may share one long
// text, and to compare it for each of them would cost the square of what the file costs to read.
const COMPARED: u64 = 1 << 30;

const COMPARED_EACH: u64 = 4096;

// What a slot holds: the number of a label, and the hash of it.
#[derive(Clone, Copy)]
struct HashSlot {
    hash: u32,
    number: u32,
}

// Where a label stands.
#[derive(Clone, Copy)]
enum Probe {
    // It has this number.
    Known(u32),
    // It has no slot, and this one is free.
    Free(usize),
    // It has no slot, and none is free for it.
    Crowded,
}

/// Labels, each with its index as its number. They are found by a table of slots, where a label without a free slot near that of
/// its hash isn't entered: it has another number at each use. So whatever names a file has, a label costs a few comparisons
/// here, and one more in what sorts them.
#[derive(Drop)]
pub(crate) struct Labels<'r> {
    pub list: Vec<Label<'r>>,
    slots: Vec<Option<HashSlot>>,
    mask: u32,
    // How many bytes more may be compared.
    to_compare: ReadingLimit,
}

impl<'r> Labels<'r> {
    /// No labels.
    pub fn new(alloc: Global) -> Result<Labels<'r>, AllocError>
        ensures { IfOk result (λ t. length t.list.items ≡ 0) }
    {
        Ok(Labels {
            list: Vec::new(alloc),
            slots: free_slots(alloc, FIRST_MASK)?,
            mask: FIRST_MASK,
            to_compare: ReadingLimit::of(COMPARED),
        })
    }

    /// The number of a label, which is a new one where it isn't found.
    ///
    /// # Errors
    ///
    /// Also where labels that were met before have too many bytes.
    pub fn number(&mut self, alloc: Global, label: &Label<'r>) -> Result<u32, AllocError>
        requires { length self.now.list.items < 2 ^ 32 }
        ensures { IfOk result (λ n. Numbers (labels_seen self.old.list.items) (labels_seen self.new.list.items) (labelled label.now.linkage label.now.tail label.now.name.now) n) }
    {
        let hash = hash_of(label);
        let number = self.list.len() as u32;
        match self.place_of(label, hash) {
            Probe::Known(known) => {
                self.count(label.name.len())?;
                return Ok(known);
            }
            Probe::Free(at) => self.enter(at, HashSlot { hash, number }),
            Probe::Crowded => self.count(label.name.len())?,
        }
        self.list.push(*label)?;
        if self.list.len() > self.mask as usize / 2 && self.mask < LAST_MASK {
            self.widen(alloc)?;
        }
        Ok(number)
    }

    /// The numbers of these labels, one after the other.
    pub fn numbers_of(
        &mut self,
        alloc: Global,
        labels: &[Label<'r>],
    ) -> Result<Vec<u32>, AllocError>
        requires { length self.now.list.items + length labels.now ≤ 2 ^ 32 }
        ensures { IfOk result (λ v. AreNumbered (labels_seen self.old.list.items) (labels_seen labels.now) (labels_seen self.new.list.items) v.items) }
    {
        let mut numbers = Vec::with_capacity(alloc, labels.len())?;
        for label in labels {
            numbers.push(self.number(alloc, label)?)?;
        }
        Ok(numbers)
    }

    // Takes in that a name of so many bytes was compared.
    fn count(&mut self, bytes: usize) -> Result<(), AllocError>
        ensures { self.new.list ≡ self.old.list }
    {
        self.to_compare.widen(COMPARED_EACH);
        self.to_compare.take(bytes as u64).ok_or(AllocError)
    }

    // Where a label with this hash stands.
    fn place_of(&self, label: &Label<'_>, hash: u32) -> Probe
        ensures { IsAt (labels_seen self.now.list.items) (labelled label.now.linkage label.now.tail label.now.name.now) result }
    {
        let start = (hash & self.mask) as usize;
        for at in start..start + PROBES {
            match self.slots.get(at).copied() {
                Some(Some(slot)) => {
                    if slot.hash == hash && self.has(slot.number, label) {
                        return Probe::Known(slot.number);
                    }
                }
                Some(None) => return Probe::Free(at),
                None => return Probe::Crowded,
            }
        }
        Probe::Crowded
    }

    // Whether the label has this number.
    fn has(&self, number: u32, label: &Label<'_>) -> bool
        ensures { IsTrue result → IsNumberOf (labels_seen self.now.list.items) (labelled label.now.linkage label.now.tail label.now.name.now) number }
    {
        let number = number as usize;
        number < self.list.len() && self.list[number].is(label)
    }

    // Fills a slot.
    fn enter(&mut self, at: usize, slot: HashSlot)
        ensures { self.new.list ≡ self.old.list }
    {
        if let Some(free) = self.slots.get_mut(at) {
            *free = Some(slot);
        }
    }

    // Doubles the slots.
    fn widen(&mut self, alloc: Global) -> Result<(), AllocError>
        ensures { OnOk result (self.new.list ≡ self.old.list) }
    {
        let mask = if self.mask < LAST_MASK {
            self.mask * 2 + 1
        } else {
            LAST_MASK
        };
        let narrow = replace(&mut self.slots, free_slots(alloc, mask)?);
        self.mask = mask;
        self.enter_all(&narrow);
        Ok(())
    }

    // Fills slots as these are filled. The hashes stand there, so no name is read.
    fn enter_all(&mut self, slots: &[Option<HashSlot>])
        ensures { self.new.list ≡ self.old.list }
    {
        for slot in slots {
            if let Some(slot) = *slot
                && let Some(at) = self.free_place(slot.hash)
            {
                self.enter(at, slot);
            }
        }
    }

    // The first free slot for a label with this hash.
    fn free_place(&self, hash: u32) -> Option<usize> {
        let start = (hash & self.mask) as usize;
        for at in start..start + PROBES {
            if let Some(None) = self.slots.get(at) {
                return Some(at);
            }
        }
        None
    }
}

// The low 32 bits of a hash of all but the front of a long name, so that entries which share one long text don't cost all its
// bytes each.
fn hash_of(label: &Label<'_>) -> u32 {
    let name = label.name;
    let mut hasher = FoldHasher::default();
    hasher.write_u64(name.len() as u64);
    hasher.write_u64(u64::from(label.tail) * 2 + u64::from(label.linkage));
    hasher.write(&name[name.len().saturating_sub(HASHED)..]);
    (hasher.finish() & 0xFFFF_FFFF) as u32
}

// So many slots as a mask has, and those behind them that the last ones probe.
fn free_slots(alloc: Global, mask: u32) -> Result<Vec<Option<HashSlot>>, AllocError> {
    let count = mask as usize + PROBES;
    let mut slots = Vec::with_capacity(alloc, count)?;
    for filled in 0..count {
        slots.push(None)?;
    }
    Ok(slots)
}
