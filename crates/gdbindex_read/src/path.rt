//! The path of a name in the symbol table.

ghost use Rattle.std.specs.Prelude.{◌≡◌, ◌<◌, ◌≤◌, ◌+◌, ◌*◌, ◌^◌, ◌%◌, length};
ghost use Rattle.index_model.specs.Hashes.{gdb_hash, odd, slot_on_path};

/// A place on the path of a name: the path begins at the name's hash and goes on by a step that is odd, modulo the number of
/// slots.
#[derive(Clone, Copy)]
pub(crate) struct Path {
    pub place: usize,
    step: usize,
    slots: usize,
}

// The hash of a name. Letters count in lower case.
#[tactic(auto, unfolding(index_model::specs::Hashes::gdb_hash))]
fn hash(name: &[u8]) -> u32
    ensures { result ≡ gdb_hash name.now }
{
    name.iter().fold(0u32, |hash, byte| {
        hash.wrapping_mul(67)
            .wrapping_add(u32::from(byte.to_ascii_lowercase()))
            .wrapping_sub(113)
    })
}

impl Path {
    /// The front of the path of a name among so many slots.
    pub fn new(name: &[u8], slots: usize) -> Path
        requires some { 0 < slots }
        requires few { slots < 2 ^ 62 }
        ensures place { result.place ≡ slot_on_path slots (gdb_hash name.now) 0 }
        ensures step { result.step ≡ odd (gdb_hash name.now * 17 % slots) }
        ensures slots { result.slots ≡ slots }
    {
        Path::of_hash(hash(name) as usize, slots)
    }

    /// The front of the path of a hash. The slot that the path begins with has the same path.
    pub fn of_hash(hash: usize, slots: usize) -> Path
        requires some { 0 < slots }
        requires few { slots < 2 ^ 62 }
        requires hash { hash < 2 ^ 32 }
        ensures place { result.place ≡ slot_on_path slots hash 0 }
        ensures step { result.step ≡ odd (hash * 17 % slots) }
        ensures slots { result.slots ≡ slots }
    {
        Path {
            place: hash % slots,
            step: hash * 17 % slots | 1,
            slots,
        }
    }

    /// Goes on to the next place.
    pub fn advance(&mut self)
        requires place { self.old.place < self.old.slots }
        requires step { self.old.step ≤ self.old.slots }
        requires few { self.old.slots < 2 ^ 62 }
        ensures place { self.new.place ≡ (self.old.place + self.old.step) % self.old.slots }
        ensures step { self.new.step ≡ self.old.step }
        ensures slots { self.new.slots ≡ self.old.slots }
    {
        self.place += self.step;
        if self.place >= self.slots {
            self.place -= self.slots;
        }
    }
}
