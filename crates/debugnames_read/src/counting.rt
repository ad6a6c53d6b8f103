//! The attributes of an abbreviation that an entry has to read: those with bytes, and those that count.

ghost use Rattle.std.specs.Prelude.{◌≡◌, IfSome};
ghost use Rattle.std.specs.Option.{ForSome};
ghost use Rattle.ix_base.specs.Moves.{MovesOn, Reads};
ghost use Rattle.debugnames_read.specs.Abbreviations.{abbreviation_seen};
ghost use Rattle.debugnames_read.specs.Counting.{AreCounting};
ghost use Rattle.debugnames_read.specs.Specs.{specs_in, HasSpecs};
ghost use Rattle.debugnames_read.specs.Values.{first_values, kept_seen};

use crate::abbreviation::{Abbreviation, IndexSpec};
use crate::attributes::IndexAttributes;
use crate::form::IndexValue;
use dwarf_codes::form::DW_FORM_flag_present;
use ix_base::Cursor;
use std::alloc::Global;

/// An abbreviation, and those of its attributes that an entry has to read.
#[derive(Drop)]
pub(crate) struct KnownAbbreviation<'a> {
    pub abbreviation: Abbreviation<'a>,
    counting: Vec<IndexSpec>,
    ghost counts: { AreCounting (specs_in abbreviation.specs) counting.items },
}

/// An abbreviation that was looked for, with the attributes that an entry has to read where they were listed.
#[derive(Drop)]
pub(crate) struct FoundAbbreviation<'k, 'a> {
    pub abbreviation: Abbreviation<'a>,
    counting: Option<&'k [IndexSpec]>,
    ghost counts: { ForSome counting (λ list. AreCounting (specs_in abbreviation.specs) list.now) },
}

impl<'a> KnownAbbreviation<'a> {
    /// An abbreviation with the attributes that count. None where no memory is left.
    pub fn of(alloc: Global, abbreviation: Abbreviation<'a>) -> Option<KnownAbbreviation<'a>>
        ensures { IfSome result (λ k. abbreviation_seen k.abbreviation ≡ abbreviation_seen abbreviation.entry) }
    {
        let counting = counting(alloc, abbreviation.specs.copied())?;
        Some(KnownAbbreviation {
            abbreviation,
            counting,
        })
    }

    /// The same abbreviation again.
    pub fn found(&self) -> FoundAbbreviation<'_, 'a>
        ensures { abbreviation_seen result.abbreviation ≡ abbreviation_seen self.now.abbreviation }
    {
        FoundAbbreviation {
            abbreviation: self.abbreviation.again(),
            counting: Some(&self.counting),
        }
    }
}

impl<'k, 'a> FoundAbbreviation<'k, 'a> {
    /// An abbreviation whose attributes weren't listed.
    pub fn unlisted(abbreviation: Abbreviation<'a>) -> FoundAbbreviation<'k, 'a>
        ensures { abbreviation_seen result.abbreviation ≡ abbreviation_seen abbreviation.entry }
    {
        FoundAbbreviation {
            abbreviation,
            counting: None,
        }
    }

    /// The values of the attributes of an entry at the cursor.
    pub fn read(&self, wide: bool, cursor: &mut Cursor<'_>) -> Option<IndexAttributes>
        ensures value { Reads kept_seen (first_values wide (specs_in self.now.abbreviation.specs)) cursor.old cursor.new result }
        ensures place { MovesOn cursor.old cursor.new }
    {
        match self.counting {
            Some(list) => IndexAttributes::read_listed(wide, list, cursor),
            None => IndexAttributes::read(wide, self.abbreviation.specs.copied(), cursor),
        }
    }
}

// The attributes of an abbreviation but for those that neither have bytes nor count. An entry that reads these alone costs no
// more than its bytes, however many attributes its abbreviation has. None where no memory is left for them.
fn counting(alloc: Global, mut specs: Cursor<'_>) -> Option<Vec<IndexSpec>>
    requires { HasSpecs specs }
    ensures { IfSome result (λ list. AreCounting (specs_in specs.entry) list.items) }
{
    let mut list = Vec::new(alloc);
    // As an entry would fill it, whatever its values are.
    let mut found = IndexAttributes::none();
    'attributes: for _ in 0..specs.rest().len() + 1 {
        let spec = IndexSpec::read(&mut specs)?;
        if spec.is_last() {
            return Some(list);
        }
        if spec.form == DW_FORM_flag_present && !found.wants(spec.attribute) {
            continue;
        }
        let Ok(()) = list.push(spec) else {
            return None;
        };
        found.keep(spec.attribute, IndexValue::NotANumber);
    }
    None
}
