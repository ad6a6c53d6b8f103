//! The texts of an entry, borrowed from the file (DWARF 5, section 7.5.5 on the class string).

ghost use Rattle.std.specs.Prelude.{◌≡◌, ◌-◌, ℕ, List, Some, IfSome, option_map, option_and_then};
ghost use Rattle.index_model.specs.Attributes.{attribute as attribute_of, as_text, linkage_value, read_as};
ghost use Rattle.index_model.specs.FormSeen.{seen};
ghost use Rattle.index_model.specs.Forms.{Inline, Str};
ghost use Rattle.index_model.specs.Gives.{GivesAlways};
ghost use Rattle.index_model.specs.LawsTexts.{StandsIn};
ghost use Rattle.index_model.specs.Meaning.{at_place};
ghost use Rattle.index_model.specs.Strings.{bounded};
ghost use Rattle.file_image.specs.TextLimits.{tested};
ghost use Rattle.shard_build.specs.Texts.{text_by, texts_by, texts_seen, HoldsTexts, AreOffsets};

use crate::forms::is_text;
use crate::home::UnitInFile;
use dwarf_codes::attribute::{DW_AT_MIPS_linkage_name, DW_AT_linkage_name, DW_AT_name};
use entry_scan::Item;
use file_image::{test_text, text};
use index_model::Value;
use ix_base::code::NAME_TOO_LONG;
use ix_base::{Fault, MAX_STRING};
use memchr::memmem;

/// The texts of an entry, if it has them: the bytes of its name and of its linkage name (DWARF 5, sections 2.15 and 2.22),
/// without the zero that ends them. An empty one is none.
#[derive(Clone, Copy)]
pub struct ItemTexts<'f> {
    pub name: Option<&'f [u8]>,
    pub linkage: Option<&'f [u8]>,
}

/// The attribute in which an entry has its linkage name: that of the standard, or where no text is in it that of older producers.
pub(crate) fn linkage_attribute(entry: &Item<'_>) -> u64
    ensures { read_as as_text result entry.now ≡ linkage_value entry.now }
{
    if entry.str_at(DW_AT_linkage_name).is_some() || is_text(&entry.value(DW_AT_linkage_name)) {
        DW_AT_linkage_name
    } else {
        DW_AT_MIPS_linkage_name
    }
}

/// In which attributes an entry has its texts, and the offset into `.debug_str` that stands there, where one look tells it.
#[derive(Clone, Copy)]
pub(crate) struct TextOffsets {
    pub name: Option<u64>,
    pub linkage_attribute: u64,
    pub linkage: Option<u64>,
}

impl TextOffsets {
    /// Those of an entry.
    #[inline(always)]
    pub fn of(entry: &Item<'_>) -> TextOffsets
        ensures { AreOffsets entry.now result }
    {
        let linkage_attribute = linkage_attribute(entry);
        TextOffsets {
            name: entry.str_at(DW_AT_name),
            linkage_attribute,
            linkage: entry.str_at(linkage_attribute),
        }
    }
}

impl<'s, 'f> UnitInFile<'s, 'f> {
    /// The texts of an entry, which are borrowed from the file; `base` is where the unit's part of `.debug_str_offsets` begins.
    /// The fault is the first of them, name before linkage name, at the entry's joint offset.
    pub fn texts(&self, base: Option<u64>, entry: &Item<'_>) -> Result<ItemTexts<'f>, Fault>
        requires { HoldsTexts self.now.bytes.now self.now.unit entry.now }
        ensures { GivesAlways texts_seen result (at_place entry.now.at (texts_by self.now.sections.now base self.now.unit.wide entry.now)) }
    {
        self.texts_at(base, entry, &TextOffsets::of(entry))
    }

    /// The same, where it is known how its texts are reached.
    #[inline(always)]
    pub(crate) fn texts_at(
        &self,
        base: Option<u64>,
        entry: &Item<'_>,
        offsets: &TextOffsets,
    ) -> Result<ItemTexts<'f>, Fault>
        requires texts { HoldsTexts self.now.bytes.now self.now.unit entry.now }
        requires offsets { AreOffsets entry.now offsets.now }
        ensures { GivesAlways texts_seen result (at_place entry.now.at (texts_by self.now.sections.now base self.now.unit.wide entry.now)) }
    {
        match self.own_texts(base, entry, offsets) {
            Ok(texts) => Ok(texts),
            Err(code) => Err(Fault {
                code,
                at: entry.offset(),
            }),
        }
    }

    // The same; the error is the code of the fault.
    #[tactic(auto, unfolding(crate::specs::Texts::texts_by))]
    #[inline(always)]
    fn own_texts(
        &self,
        base: Option<u64>,
        entry: &Item<'_>,
        offsets: &TextOffsets,
    ) -> Result<ItemTexts<'f>, u8>
        requires texts { HoldsTexts self.now.bytes.now self.now.unit entry.now }
        requires offsets { AreOffsets entry.now offsets.now }
        ensures { GivesAlways texts_seen result (texts_by self.now.sections.now base self.now.unit.wide entry.now) }
    {
        let name = self.text_in(base, entry, DW_AT_name, offsets.name)?;
        let linkage = self.text_in(base, entry, offsets.linkage_attribute, offsets.linkage)?;
        Ok(ItemTexts { name, linkage })
    }

    // The text of an attribute of an entry, if it has one. It may be known to stand at an offset of `.debug_str`.
    #[inline(always)]
    fn text_in(
        &self,
        base: Option<u64>,
        entry: &Item<'_>,
        attribute: u64,
        offset: Option<u64>,
    ) -> Result<Option<&'f [u8]>, u8>
        requires texts { HoldsTexts self.now.bytes.now self.now.unit entry.now }
        requires offset { IfSome offset (λ at. attribute_of attribute entry.now ≡ Some (Str at)) }
        ensures { GivesAlways (λ t. option_map (λ bytes. bytes.now) t) result (text_by self.now.sections.now base self.now.unit.wide (read_as as_text attribute entry.now)) }
    {
        match offset {
            Some(at) => text(self.sections, base, self.unit.wide, &Value::Str(at)),
            None => self.text(base, entry, &entry.value(attribute)),
        }
    }

    // The text of a value of an entry, if it is one.
    #[tactic(auto, unfolding(index_model::specs::Strings::text_of))]
    fn text(
        &self,
        base: Option<u64>,
        item: &Item<'_>,
        value: &Option<Value<'_>>,
    ) -> Result<Option<&'f [u8]>, u8>
        requires { (t : List ℕ) → option_map seen value.now ≡ Some (Inline t) → StandsIn self.now.bytes.now t (item.now.at - self.now.unit.start) (item.now.after - self.now.unit.start) }
        ensures { GivesAlways (λ t. option_map (λ bytes. bytes.now) t) result (text_by self.now.sections.now base self.now.unit.wide (option_and_then as_text (option_map seen value.now))) }
    {
        match value {
            None => Ok(None),
            Some(Value::Inline(text)) => self.inline(item, text),
            Some(Value::Str(at)) => text(self.sections, base, self.unit.wide, &Value::Str(*at)),
            Some(Value::LineStr(at)) => text(
                self.sections,
                base,
                self.unit.wide,
                &Value::LineStr(*at),
            ),
            Some(Value::StrIndex(index)) => text(
                self.sections,
                base,
                self.unit.wide,
                &Value::StrIndex(*index),
            ),
            Some(_) => Ok(None),
        }
    }

    // A text that stands in an entry, within the limit. An empty one is no text.
    #[tactic(auto, unfolding(index_model::specs::Strings::bounded))]
    fn inline(&self, item: &Item<'_>, text: &[u8]) -> Result<Option<&'f [u8]>, u8>
        requires { StandsIn self.now.bytes.now text.now (item.now.at - self.now.unit.start) (item.now.after - self.now.unit.start) }
        ensures { GivesAlways (λ t. option_map (λ bytes. bytes.now) t) result (bounded text.now) }
    {
        if text.len() as u64 > MAX_STRING {
            return Err(NAME_TOO_LONG);
        }
        if text.is_empty() {
            return Ok(None);
        }
        let from = item.offset().saturating_sub(self.unit.start);
        let to = item.after().saturating_sub(self.unit.start);
        Ok(Some(found_in(self.bytes, from as usize, to as usize, text)))
    }

    /// Whether the texts of an entry are sound: the same as `texts`, where they aren't kept.
    pub(crate) fn test(&self, base: Option<u64>, entry: &Item<'_>) -> Result<(), Fault>
        ensures { GivesAlways (λ done. done) result (tested (at_place entry.now.at (texts_by self.now.sections.now base self.now.unit.wide entry.now))) }
    {
        match self.test_own(base, entry) {
            Ok(()) => Ok(()),
            Err(code) => Err(Fault {
                code,
                at: entry.offset(),
            }),
        }
    }

    // The same; the error is the code of the fault.
    #[tactic(auto, unfolding(crate::specs::Texts::texts_by))]
    fn test_own(&self, base: Option<u64>, entry: &Item<'_>) -> Result<(), u8>
        ensures { GivesAlways (λ done. done) result (tested (texts_by self.now.sections.now base self.now.unit.wide entry.now)) }
    {
        self.test_in(base, entry, DW_AT_name)?;
        self.test_in(base, entry, linkage_attribute(entry))
    }

    // Whether the text of an attribute of an entry is sound, if it has one.
    fn test_in(&self, base: Option<u64>, entry: &Item<'_>, attribute: u64) -> Result<(), u8>
        ensures { GivesAlways (λ done. done) result (tested (text_by self.now.sections.now base self.now.unit.wide (read_as as_text attribute entry.now))) }
    {
        match entry.str_at(attribute) {
            Some(at) => test_text(self.sections, base, self.unit.wide, &Value::Str(at)),
            None => self.test_text(base, &entry.value(attribute)),
        }
    }

    // Whether a value is a sound text, if it is a text. It is read where it stands, since a copy would cost more than the test.
    #[tactic(auto, using(crate::proofs::TextLaws::text_anyway))]
    fn test_text(&self, base: Option<u64>, value: &Option<Value<'_>>) -> Result<(), u8>
        ensures { GivesAlways (λ done. done) result (tested (text_by self.now.sections.now base self.now.unit.wide (option_and_then as_text (option_map seen value.now)))) }
    {
        match value {
            Some(value) => test_text(self.sections, base, self.unit.wide, value),
            None => Ok(()),
        }
    }
}

// The same text, borrowed from the bytes in which it stands between two places.
fn found_in<'f>(bytes: &'f [u8], from: usize, to: usize, text: &[u8]) -> &'f [u8]
    requires { StandsIn bytes.now text.now from to }
    ensures { result.now ≡ text.now }
{
    let to = to.min(bytes.len());
    let part = &bytes[from.min(to)..to];
    match memmem::find(part, text) {
        Some(at) => &part[at..at + text.len()],
        None => unreachable!(),
    }
}
