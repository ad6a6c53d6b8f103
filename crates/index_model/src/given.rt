//! Which numbers of a leaf say something, a bit for each.

ghost use Rattle.std.specs.Prelude.{◌≡◌, true, false};
ghost use Rattle.index_model.specs.Marks.{has_parent, has_name, has_linkage, has_next, is_near, is_aside, has_strings};

use crate::bits::{bit, is_set};

const PARENT: u8 = 1;

const NAME: u8 = 2;

const LINKAGE: u8 = 4;

const NEXT: u8 = 8;

const NEAR: u8 = 16;

const ASIDE: u8 = 32;

const STRINGS: u8 = 64;

/// Which numbers of a leaf say something: all others are 0.
#[derive(Clone, Copy)]
pub(crate) struct Given {
    bits: u8,
}

impl Given {
    /// Of a leaf that stands for a node by itself.
    pub fn of(
        parent: bool,
        name: bool,
        linkage: bool,
        next: bool,
        near: bool,
        strings: bool,
    ) -> Given
        ensures parent { has_parent result ≡ parent }
        ensures name { has_name result ≡ name }
        ensures linkage { has_linkage result ≡ linkage }
        ensures next { has_next result ≡ next }
        ensures near { is_near result ≡ near }
        ensures strings { has_strings result ≡ strings }
        ensures aside { is_aside result ≡ false }
    {
        Given {
            bits: bit(parent, PARENT)
                | bit(name, NAME)
                | bit(linkage, LINKAGE)
                | bit(next, NEXT)
                | bit(near, NEAR)
                | bit(strings, STRINGS),
        }
    }

    /// Of a leaf whose node is kept whole, aside.
    pub fn whole() -> Given
        ensures { is_aside result ≡ true }
    {
        Given { bits: ASIDE }
    }

    pub fn parent(self) -> bool
        ensures { result ≡ has_parent self }
    {
        is_set(self.bits, PARENT)
    }

    pub fn name(self) -> bool
        ensures { result ≡ has_name self }
    {
        is_set(self.bits, NAME)
    }

    pub fn linkage(self) -> bool
        ensures { result ≡ has_linkage self }
    {
        is_set(self.bits, LINKAGE)
    }

    pub fn next(self) -> bool
        ensures { result ≡ has_next self }
    {
        is_set(self.bits, NEXT)
    }

    /// Whether the next one is counted from the unit's first byte.
    pub fn near(self) -> bool
        ensures { result ≡ is_near self }
    {
        is_set(self.bits, NEAR)
    }

    /// Whether its texts are strings of `.debug_str`.
    pub fn strings(self) -> bool
        ensures { result ≡ has_strings self }
    {
        is_set(self.bits, STRINGS)
    }

    /// Whether the node is kept whole, aside.
    pub fn aside(self) -> bool
        ensures { result ≡ is_aside self }
    {
        is_set(self.bits, ASIDE)
    }
}
