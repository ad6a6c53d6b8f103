//! The abbreviations of an index by their codes.

ghost use Rattle.std.specs.Prelude.{◌≡◌, [], ◌∷◌, List, IfOk, IsOk, option_map};
ghost use Rattle.index_model.specs.Meaning.{wrong_in};
ghost use Rattle.index_model.specs.NameAbbreviations.{Abbreviation as Meaning, abbreviations};
ghost use Rattle.debugnames_read.specs.Abbreviations.{abbreviation_seen, abbreviations_in};
ghost use Rattle.debugnames_read.specs.Known.{first_with, found_seen, IsKnown};

use crate::abbreviation::Abbreviation;
use crate::counting::{FoundAbbreviation, KnownAbbreviation};
use crate::header::fault;
use index_model::index_code::NAMES_ABBREVIATION;
use ix_base::{Cursor, Fault};
use std::alloc::Global;
use std::collections::BTreeMap;

/// The abbreviations of an index by their codes, of several with one code the first. Where no memory was left to hold them
/// there are none, and each is looked for in its area.
#[derive(Drop)]
pub(crate) struct AbbreviationsByCode<'a> {
    by_code: Option<BTreeMap<u64, KnownAbbreviation<'a>>>,
}

impl<'a> AbbreviationsByCode<'a> {
    /// The abbreviations of an area, or their first fault.
    pub fn read(alloc: Global, area: &Cursor<'a>) -> Result<AbbreviationsByCode<'a>, Fault>
        ensures fault { wrong_in result ≡ wrong_in (abbreviations area.now) }
        ensures known { IfOk result (λ k. IsKnown [] (abbreviations_in area.now) k) }
    {
        let mut known = AbbreviationsByCode {
            by_code: Some(BTreeMap::new(alloc)),
        };
        let mut cursor = area.copied();
        // There are fewer abbreviations than bytes.
        'abbreviations: for _ in 0..area.rest().len() + 1 {
            match Abbreviation::read(&mut cursor)? {
                None => return Ok(known),
                Some(abbreviation) => known.keep(alloc, abbreviation),
            }
        }
        Err(fault(NAMES_ABBREVIATION, cursor.at()))
    }

    // Keeps an abbreviation, unless there is one with its code. All are given up where no memory is left for it.
    fn keep(&mut self, alloc: Global, abbreviation: Abbreviation<'a>)
        ensures { (left : List Meaning) (all : List Meaning) → IsKnown (abbreviation_seen abbreviation.entry ∷ left) all self.old → IsKnown left all self.new }
    {
        let Some(mut by_code) = self.by_code.take() else {
            return;
        };
        let code = abbreviation.code;
        if by_code.contains_key(&code) {
            self.by_code = Some(by_code);
            return;
        }
        let Some(known) = KnownAbbreviation::of(alloc, abbreviation) else {
            return;
        };
        if by_code.insert(code, known).is_ok() {
            self.by_code = Some(by_code);
        }
    }

    /// The first abbreviation of the area with a code.
    pub fn find(&self, area: &Cursor<'a>, code: u64) -> Option<FoundAbbreviation<'_, 'a>>
        requires right { IsOk (abbreviations area.now) }
        requires known { IsKnown [] (abbreviations_in area.now) self.now }
        ensures { option_map found_seen result ≡ first_with code (abbreviations_in area.now) }
    {
        match &self.by_code {
            Some(by_code) => Some(by_code.get(&code)?.found()),
            None => Some(FoundAbbreviation::unlisted(Abbreviation::find(area, code)?)),
        }
    }
}
