//! The abbreviations of an index (DWARF 5, section 6.1.1.4.7).

ghost use Rattle.std.specs.Prelude.{◌≡◌, IsOk, ◌+◌, ◌==◌, find, length, option_map};
ghost use Rattle.ix_base.specs.Moves.{MovesOn, Reads};
ghost use Rattle.index_model.specs.declared.index_code.TheConstants.{NAMES_ABBREVIATION};
ghost use Rattle.index_model.specs.Gives.{GivesAlways};
ghost use Rattle.index_model.specs.NameAbbreviations.{abbreviations, specs_at};
ghost use Rattle.debugnames_read.specs.Specs.{is_last, place_behind, spec_at, spec_seen, HasSpecs};

use crate::form::is_form;
use crate::header::fault;
use index_model::index_code::NAMES_ABBREVIATION;
use ix_base::{Cursor, Fault};

/// An index attribute and its form.
#[derive(Clone, Copy)]
pub(crate) struct IndexSpec {
    pub attribute: u64,
    pub form: u64,
}

/// An abbreviation: its code, the tag of its entries, and where their attributes stand.
#[derive(Drop)]
pub(crate) struct Abbreviation<'a> {
    pub code: u64,
    pub tag: u64,
    pub specs: Cursor<'a>,
    ghost read: { HasSpecs specs },
}

impl IndexSpec {
    /// The attribute and the form at the cursor.
    #[tactic(auto, unfolding(crate::specs::Specs::spec_at))]
    pub fn read(cursor: &mut Cursor<'_>) -> Option<IndexSpec>
        ensures value { Reads spec_seen spec_at cursor.old cursor.new result }
        ensures place { MovesOn cursor.old cursor.new }
    {
        let attribute = cursor.uleb()?;
        let form = cursor.uleb()?;
        Some(IndexSpec { attribute, form })
    }

    /// Whether it ends the attributes of an abbreviation.
    pub fn is_last(&self) -> bool
        ensures { result ≡ is_last (spec_seen self.now) }
    {
        self.attribute == 0 && self.form == 0
    }
}

impl<'a> Abbreviation<'a> {
    ghost use Rattle.debugnames_read.specs.Abbreviations.{abbreviation_at, abbreviation_seen, abbreviations_in};

    /// The abbreviation at the cursor, None where the code 0 ends them, or the fault that it is cut, has a number that is too
    /// large or an unknown form.
    #[tactic(auto, unfolding(crate::specs::Abbreviations::abbreviation_at))]
    pub fn read(cursor: &mut Cursor<'a>) -> Result<Option<Abbreviation<'a>>, Fault>
        ensures value { GivesAlways (λ o. option_map (λ a. (abbreviation_seen a, cursor.new)) o) result (abbreviation_at cursor.old) }
        ensures place { MovesOn cursor.old cursor.new }
    {
        let wrong = fault(NAMES_ABBREVIATION, cursor.at());
        let code = cursor.uleb().ok_or(wrong)?;
        if code == 0 {
            return Ok(None);
        }
        let tag = cursor.uleb().ok_or(wrong)?;
        let specs = cursor.copied();
        pass_specs(wrong, cursor)?;
        Ok(Some(Abbreviation { code, tag, specs }))
    }

    /// The same abbreviation again.
    pub fn again(&self) -> Abbreviation<'a>
        ensures { abbreviation_seen result ≡ abbreviation_seen self.now }
    {
        Abbreviation {
            code: self.code,
            tag: self.tag,
            specs: self.specs.copied(),
        }
    }

    /// The first abbreviation with a code, in an area without a fault. Those before it are read.
    pub fn find(area: &Cursor<'a>, code: u64) -> Option<Abbreviation<'a>>
        requires { IsOk (abbreviations area.now) }
        ensures { option_map abbreviation_seen result ≡ find (λ a. a.code == code) (abbreviations_in area.now) }
    {
        let mut cursor = area.copied();
        'abbreviations: for _ in 0..area.rest().len() + 1 {
            match Abbreviation::read(&mut cursor) {
                Ok(Some(abbreviation)) => {
                    if abbreviation.code == code {
                        return Some(abbreviation);
                    }
                }
                Ok(None) => return None,
                Err(_) => return None,
            }
        }
        None
    }
}

// Passes attributes and forms up to (0, 0), or gives the fault of their abbreviation.
fn pass_specs(wrong: Fault, cursor: &mut Cursor<'_>) -> Result<(), Fault>
    requires { wrong.code ≡ NAMES_ABBREVIATION }
    ensures value { GivesAlways (λ _. cursor.new) result (place_behind (specs_at wrong.at (length cursor.old.rest + 1) cursor.old)) }
    ensures place { MovesOn cursor.old cursor.new }
{
    // There are fewer attributes than bytes.
    'attributes: for _ in 0..cursor.rest().len() + 1 {
        let Some(spec) = IndexSpec::read(cursor) else {
            return Err(wrong);
        };
        if spec.is_last() {
            return Ok(());
        }
        if !is_form(spec.form) {
            return Err(wrong);
        }
    }
    Err(wrong)
}
