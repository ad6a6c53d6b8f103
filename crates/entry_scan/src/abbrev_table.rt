//! A table of abbreviations that serves more than one unit (DWARF 5, section 7.5.3).

ghost use Rattle.std.specs.Prelude.{◌≡◌, IfOk, IsSome, Some};
ghost use Rattle.std.specs.Option.{ForSome};
ghost use Rattle.ix_base.specs.declared.code.TheConstants.{BAD_ABBREVIATION as BAD};
ghost use Rattle.index_model.specs.Abbreviations.{table};
ghost use Rattle.index_model.specs.Gives.{Gives};
ghost use Rattle.index_model.specs.Meaning.{fault, some_or};
ghost use Rattle.entry_scan.specs.TablesAtOffsets.{IsAtOffset};

use crate::abbreviations::Abbrevs;
use index_model::Unit;
use ix_base::code::BAD_ABBREVIATION;
use ix_base::{Fault, NoMemory, OrMemory, Stop};
use std::alloc::Global;

/// A table of abbreviations, and the offset at which it stands in `.debug_abbrev`.
#[derive(Drop)]
pub struct AbbrevTable {
    pub offset: u64,
    pub abbrevs: Abbrevs,
}

impl AbbrevTable {
    /// The table of a unit: the one at hand, if it stands at the same offset, else it is read. A damaged one is a fault of the unit.
    /// `bytes` are those of `.debug_abbrev`.
    pub fn of(
        alloc: Global,
        bytes: &[u8],
        unit: &Unit,
        at_hand: Option<AbbrevTable>,
    ) -> Result<AbbrevTable, Stop>
        requires { ForSome at_hand (IsAtOffset bytes.now) }
        ensures value { Gives (λ t. t.abbrevs) result (some_or (table bytes.now unit.now.«abbrev») (fault BAD unit.now.start)) }
        ensures place { IfOk result (IsAtOffset bytes.now) }
        ensures own { IfOk result (λ t. t.offset ≡ unit.now.«abbrev») }
    {
        match at_hand {
            Some(table) => if table.offset == unit.abbrev {
                Ok(table)
            } else {
                AbbrevTable::read(alloc, bytes, unit)
            },
            None => AbbrevTable::read(alloc, bytes, unit),
        }
    }

    /// The table of a unit, where it isn't damaged: the one at hand, if it stands at the same offset, else it is read. `bytes` are
    /// those of `.debug_abbrev`.
    pub fn of_sound(
        alloc: Global,
        bytes: &[u8],
        unit: &Unit,
        at_hand: Option<AbbrevTable>,
    ) -> Result<AbbrevTable, NoMemory>
        requires hand { ForSome at_hand (IsAtOffset bytes.now) }
        requires sound { IsSome (table bytes.now unit.now.«abbrev») }
        ensures value { IfOk result (λ t. table bytes.now unit.now.«abbrev» ≡ Some t.abbrevs) }
        ensures place { IfOk result (IsAtOffset bytes.now) }
    {
        match AbbrevTable::of(alloc, bytes, unit, at_hand) {
            Ok(table) => Ok(table),
            Err(Stop::Memory) => Err(NoMemory),
            Err(Stop::Cause(_)) => unreachable!(),
        }
    }

    // The table of a unit.
    fn read(alloc: Global, bytes: &[u8], unit: &Unit) -> Result<AbbrevTable, Stop>
        ensures value { Gives (λ t. t.abbrevs) result (some_or (table bytes.now unit.now.«abbrev») (fault BAD unit.now.start)) }
        ensures place { IfOk result (IsAtOffset bytes.now) }
        ensures own { IfOk result (λ t. t.offset ≡ unit.now.«abbrev») }
    {
        match Abbrevs::read(alloc, bytes, unit.abbrev) {
            Ok(abbrevs) => Ok(AbbrevTable {
                offset: unit.abbrev,
                abbrevs,
            }),
            Err(OrMemory::Memory) => Err(Stop::Memory),
            Err(OrMemory::Cause(_)) => Err(Stop::Cause(Fault {
                code: BAD_ABBREVIATION,
                at: unit.start,
            })),
        }
    }
}
