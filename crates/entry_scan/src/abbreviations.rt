//! A table of abbreviations, read once for its units.

ghost use Rattle.std.specs.Prelude.{◌≡◌, ◌==◌, position, option_map, IfSome};
ghost use Rattle.index_model.specs.Abbreviations.{table, abbrev_of};
ghost use Rattle.entry_scan.specs.GivesTable.{GivesOrFails};
ghost use Rattle.entry_scan.specs.SeenAbbreviations.{abbrev_seen};
ghost use Rattle.entry_scan.specs.AbbreviationTables.{AreInOrder, Cuts};
ghost use Rattle.entry_scan.specs.Fronts.{IsFront};
ghost use Rattle.entry_scan.specs.Marks.{AreMarks};
ghost use Rattle.entry_scan.specs.Jumps.{AreJumps};

use crate::abbreviation::{AbbrevHead, AbbrevsSoFar, CodeIndex, Damaged, Spec, read_parts};
use crate::jumps::Jumps;
use crate::marks::AttributeBits;
use crate::sizes::Front;
use ix_base::OrMemory;
use std::alloc::Global;
use std::marker::Model;

/// An abbreviation: the tag of its entries, whether entries may stand below them, and their attributes in order.
#[derive(Clone, Copy)]
pub struct Abbrev<'t> {
    pub tag: u64,
    pub children: bool,
    pub specs: &'t [Spec],
}

/// An abbreviation, the front of its attributes, which it may have, and where their values begin.
#[derive(Clone, Copy)]
pub(crate) struct Shape<'t> {
    pub abbrev: Abbrev<'t>,
    pub front: Front,
    pub marks: AttributeBits,
    pub jumps: &'t Jumps,
}

/// The abbreviations of a table, in the order in which they stand there.
#[derive(Drop)]
pub struct Abbrevs {
    heads: Vec<AbbrevHead>,
    // The attributes of all heads, one head's after another's.
    specs: Vec<Spec>,
    // The heads at the front have the codes 1, 2, 3 and so on. The places of those behind them, by code and then by index.
    others: Vec<CodeIndex>,
}

impl Model for Abbrevs {
    ghost use Rattle.std.specs.Prelude.{List, length, All};
    ghost use Rattle.index_model.specs.Abbreviations as meant;
    ghost use Rattle.entry_scan.specs.AbbreviationTables.{heads_seen, IsWithin, IsSearchable};

    ghost Value = { List meant.Abbrev };

    ghost view = { λ a. heads_seen a.specs.items a.heads.items };

    ghost invariant = { λ a. (All (IsWithin a.specs.items) a.heads.items) × IsSearchable a.heads.items a.others.items };
}

impl Abbrevs {
    /// Reads the table at an offset of `.debug_abbrev`. LEB128 numbers in it may be padded.
    pub fn read(alloc: Global, bytes: &[u8], offset: u64) -> Result<Abbrevs, OrMemory<Damaged>>
        ensures { GivesOrFails (λ t. t) result (table bytes.now offset) }
    {
        if offset > bytes.len() as u64 {
            return Err(OrMemory::Cause(Damaged));
        }
        let mut parts = read_parts(alloc, bytes, offset as usize)?;
        parts.others.sort_unstable();
        let AbbrevsSoFar {
            heads,
            specs,
            others,
        } = parts;
        Ok(Abbrevs {
            heads,
            specs,
            others,
        })
    }

    /// The abbreviation of a code: the first that has it.
    pub fn find(&self, code: u64) -> Option<Abbrev<'_>>
        ensures { option_map (abbrev_seen code) result ≡ abbrev_of self.now code }
    {
        Some(self.shape(code)?.abbrev)
    }

    /// The same, with what is known of its attributes.
    #[inline(always)]
    pub(crate) fn shape(&self, code: u64) -> Option<Shape<'_>>
        ensures value { option_map (λ s. abbrev_seen code s.abbrev) result ≡ abbrev_of self.now code }
        ensures front { IfSome result (λ s. IsFront s.abbrev.specs.now s.front) }
        ensures marks { IfSome result (λ s. AreMarks s.abbrev.specs.now s.marks) }
        ensures jumps { IfSome result (λ s. AreJumps s.abbrev.specs.now s.jumps.now) }
    {
        let head = &self.heads[self.index_of(code)?];
        Some(Shape {
            abbrev: Abbrev {
                tag: head.tag,
                children: head.children,
                specs: &self.specs[head.start..head.end],
            },
            front: head.front,
            marks: head.marks,
            jumps: &head.jumps,
        })
    }

    /// How many bytes such a table takes at least (DWARF 5, section 7.5.3): five for each abbreviation and two for each attribute.
    pub fn least_bytes(&self) -> u64 {
        let heads = (self.heads.len() as u64).saturating_mul(5);
        heads.saturating_add((self.specs.len() as u64).saturating_mul(2))
    }

    // The index of the first with this code.
    #[inline(always)]
    fn index_of(&self, code: u64) -> Option<usize>
        ensures { result ≡ position (λ a. a.code == code) self.now }
    {
        let in_front = self.heads.len() - self.others.len();
        if code != 0 && code <= in_front as u64 {
            return Some(code as usize - 1);
        }
        let first = lower_codes(&self.others, code);
        let place = self.others.get(first)?;
        if place.code == code {
            Some(place.index)
        } else {
            None
        }
    }
}

// How many places have a lower code.
fn lower_codes(places: &[CodeIndex], code: u64) -> usize
    requires { AreInOrder places.now }
    ensures { Cuts places.now code result }
{
    places.partition_point(|place| place.code < code)
}
