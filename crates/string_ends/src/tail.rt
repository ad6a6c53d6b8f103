//! A string that is read from its end towards the front of its section.

ghost use Rattle.std.specs.Prelude.{◌≡◌, ◌<◌, ◌≤◌, ◌+◌, false, IfSome};
ghost use Rattle.string_ends.specs.Tails.{IsHashed, IsTail};

use crate::formula::Formula;
use crate::hashed::Hashed;
use crate::texts::last_end;

/// What multiplies a print at each byte: odd, and near 2 ^ 64 divided by the golden ratio.
const SPREAD: u64 = 0x9e37_79b9_7f4a_7c15;

/// The string that begins at a place, by what it adds to the hash of a string that ends with it.
#[derive(Clone, Copy)]
pub(crate) struct Tail {
    pub at: usize,
    sum: u32,
    // The factor of the hash as often as the string has bytes.
    weight: u32,
    print: u64,
    is_beyond_ascii: bool,
}

impl Tail {
    // The string without bytes that begins at a place.
    fn empty(at: usize) -> Tail
        ensures { result ≡ record { at = at; sum = 0; weight = 1; print = 0; is_beyond_ascii = false } }
    {
        Tail {
            at,
            sum: 0,
            weight: 1,
            print: 0,
            is_beyond_ascii: false,
        }
    }

    /// The last string, which has no bytes: it begins at the last zero, if there is one.
    pub fn last(formula: Formula, strings: &[u8]) -> Option<Tail>
        ensures { IfSome result (IsTail formula strings.now) }
    {
        let end = last_end(strings);
        if end == 0 {
            return None;
        }
        Some(Tail::empty(end - 1))
    }

    // The string that begins a byte before it.
    fn longer(self, formula: Formula, strings: &[u8]) -> Tail
        requires tail { IsTail formula strings.now self }
        requires some { 0 < self.at }
        ensures tail { IsTail formula strings.now result }
        ensures place { result.at + 1 ≡ self.at }
    {
        let at = self.at - 1;
        let byte = strings[at];
        if byte == 0 {
            return Tail::empty(at);
        }
        Tail {
            at,
            sum: formula
                .term(byte)
                .wrapping_mul(self.weight)
                .wrapping_add(self.sum),
            weight: self.weight.wrapping_mul(formula.factor()),
            print: self
                .print
                .wrapping_mul(SPREAD)
                .wrapping_add(u64::from(byte) + 1),
            is_beyond_ascii: (byte >= 0x80) | self.is_beyond_ascii,
        }
    }

    /// The string that begins at a place before it.
    pub fn back_to(self, formula: Formula, strings: &[u8], place: usize) -> Tail
        requires tail { IsTail formula strings.now self }
        requires before { place ≤ self.at }
        ensures tail { IsTail formula strings.now result }
        ensures place { result.at ≡ place }
    {
        let mut tail = self;
        for passed in 0..self.at - place {
            tail = tail.longer(formula, strings);
        }
        tail
    }

    /// The hash and the print of the string.
    pub fn hashed(self, formula: Formula, strings: &[u8]) -> Hashed
        requires { IsTail formula strings.now self }
        ensures { IsHashed formula strings.now self.at result }
    {
        Hashed {
            hash: formula
                .start()
                .wrapping_mul(self.weight)
                .wrapping_add(self.sum),
            print: self.print,
            is_beyond_ascii: self.is_beyond_ascii,
        }
    }
}
