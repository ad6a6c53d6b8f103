//! The places of a text where a byte may still come.

ghost use Rattle.std.specs.Prelude.{◌≡◌, if◌then◌else◌, OnOk, Ok};
ghost use Rattle.cxx_spelling.specs.Seen.{seen, Reaches};
ghost use Rattle.cxx_spelling.specs.Translation.{wrote, ends_with, began_gap, with_byte, leaves_gap, fills_gap, act};
ghost use Rattle.cxx_spelling.specs.Translation.{Going};
ghost use Rattle.cxx_spelling.specs.declared.symbol.Action.TheVariants as action;

use crate::translation::{Progress, Translation};
use std::alloc::AllocError;

impl Translation<'_> {
    // A gap begins, with a zero byte or a blank.
    #[tactic(auto, using(crate::proofs::StackLaws::stacked_push))]
    fn mark(&mut self, b: u8) -> Result<(), AllocError>
        ensures { OnOk result (seen self.new ≡ began_gap b (seen self.old)) }
    {
        self.gaps.push(self.out.len())?;
        self.out.push(b)?;
        Ok(())
    }

    /// A gap begins.
    pub(crate) fn begin_gap(&mut self, b: u8) -> Result<Progress, AllocError>
        ensures { Reaches (seen self.new) result (Going (began_gap b (seen self.old))) }
    {
        self.mark(b)?;
        Ok(Progress::Going)
    }

    /// The last gap stays.
    #[tactic(auto, using(crate::proofs::StackLaws::stacked_push))]
    pub(crate) fn leave_gap(&mut self) -> Progress
        ensures { Reaches (seen self.new) (Ok result) (leaves_gap (seen self.old).gaps (seen self.old)) }
    {
        match self.gaps.pop() {
            None => Progress::Refused,
            Some(_) => Progress::Going,
        }
    }

    // A byte of what was written becomes another one.
    fn put_at(&mut self, place: usize, b: u8)
        ensures { seen self.new ≡ record (seen self.old) { out = with_byte place b self.old.out.items } }
    {
        if place < self.out.len() {
            self.out[place] = b;
        }
    }

    /// A byte comes into the last gap.
    #[tactic(auto, using(crate::proofs::StackLaws::stacked_push))]
    pub(crate) fn fill_gap(&mut self, b: u8) -> Progress
        ensures { Reaches (seen self.new) (Ok result) (fills_gap b (seen self.old).gaps (seen self.old)) }
    {
        match self.gaps.pop() {
            None => Progress::Refused,
            Some(place) => {
                self.put_at(place, b);
                Progress::Going
            }
        }
    }

    // What stands before such a `(` until it is known what stands behind its `)`.
    fn before_nested(&self) -> u8
        ensures { result ≡ (if ends_with 42 self.now.out.items then 0 else 32) }
    {
        if self.ends_with(b'*') { 0 } else { b' ' }
    }

    /// The `(` of a declarator inside of another one.
    pub(crate) fn write_nested_open(&mut self) -> Result<Progress, AllocError>
        ensures { Reaches (seen self.new) result (act action.WriteNestedOpen (seen self.old)) }
    {
        let b = self.before_nested();
        self.mark(b)?;
        self.put(b"(")
    }
}
