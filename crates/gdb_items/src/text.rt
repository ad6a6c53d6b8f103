//! The texts of an item (DWARF 5, section 7.5.5, string).

ghost use Rattle.std.specs.Prelude.{◌≡◌, option_map, IfSome, List, Bool, ℕ, Option, Ok};
ghost use Rattle.index_model.specs.Attributes.{linkage_value, name_value};
ghost use Rattle.index_model.specs.Meaning.{value_of};
ghost use Rattle.index_model.specs.Sections.{Section};
ghost use Rattle.index_model.specs.Strings.{some_text, Texts as TextsMeant};
ghost use Rattle.shard_build.specs.Texts.{text_by, texts_by, texts_seen, HoldsTexts};
ghost use Rattle.gdb_items.specs.Texts.{string_told, text_told, texts_told};

use dwarf_codes::attribute::{DW_AT_MIPS_linkage_name, DW_AT_linkage_name, DW_AT_name};
use entry_scan::Item;
use file_image::{Sections, text};
use index_model::Value;
use shard_build::{ItemTexts, UnitInFile};

/// A text of an item. What stands in `.debug_str` is read where it is asked for: of most items no text ever is.
#[derive(Clone, Copy)]
pub enum ItemText<'f> {
    /// There is none.
    Absent,
    /// It was read. It isn't empty.
    Read(&'f [u8]),
    /// It stands at this offset of `.debug_str`.
    InStr(u64),
}

impl<'f> ItemText<'f> {
    // A text that was read, if there is one.
    fn of(text: Option<&'f [u8]>) -> ItemText<'f>
        ensures { (ss : List Section) → text_told ss result ≡ option_map (λ b. b.now) text.entry }
    {
        match text {
            Some(bytes) => ItemText::Read(bytes),
            None => ItemText::Absent,
        }
    }

    /// Where it stands in `.debug_str`, if it stands there.
    pub(crate) fn place(self) -> Option<u64>
        ensures { IfSome result (λ at. (ss : List Section) → string_told ss at ≡ text_told ss self.entry) }
    {
        match self {
            ItemText::InStr(at) => Some(at),
            _ => None,
        }
    }

    /// Its bytes, borrowed from the file with these sections. An empty text is none.
    pub fn bytes(self, sections: &Sections<'f>) -> Option<&'f [u8]>
        ensures { option_map (λ b. b.now) result ≡ text_told sections.now self.entry }
    {
        match self {
            ItemText::Absent => None,
            ItemText::Read(bytes) => Some(bytes),
            ItemText::InStr(at) => string_at(sections, at),
        }
    }
}

// The text at an offset of `.debug_str`.
#[tactic(auto, unfolding(index_model::specs::Strings::text_of))]
fn string_at<'f>(sections: &Sections<'f>, at: u64) -> Option<&'f [u8]>
    ensures { option_map (λ b. b.now) result ≡ string_told sections.now at }
{
    match text(sections, None, false, &Value::Str(at)) {
        Ok(text) => text,
        Err(_) => None,
    }
}

/// The texts of an item, its name and its linkage name.
#[derive(Clone, Copy)]
pub(crate) struct UnreadTexts<'f> {
    pub name: ItemText<'f>,
    pub linkage: ItemText<'f>,
}

impl<'f> UnreadTexts<'f> {
    /// Those of an entry without a fault, whose unit's part of `.debug_str_offsets` begins at the base.
    pub fn of(home: &UnitInFile<'_, 'f>, base: Option<u64>, entry: &Item<'_>) -> UnreadTexts<'f>
        requires texts { HoldsTexts home.now.bytes.now home.now.unit entry.now }
        requires sound { (t : TextsMeant) × (texts_by home.now.sections.now base home.now.unit.wide entry.now ≡ Ok t) }
        ensures { (t : TextsMeant) → texts_by home.now.sections.now base home.now.unit.wide entry.now ≡ Ok t → texts_told home.now.sections.now result.name result.linkage ≡ t }
    {
        match (name(entry), linkage(entry)) {
            (Some(name), Some(linkage)) => UnreadTexts { name, linkage },
            _ => {
                let texts = sound_texts(home, base, entry);
                UnreadTexts {
                    name: ItemText::of(texts.name),
                    linkage: ItemText::of(texts.linkage),
                }
            }
        }
    }
}

// The name of an entry, if it needn't be read.
fn name<'f>(entry: &Item<'_>) -> Option<ItemText<'f>>
    ensures { IfSome result (λ text. (ss : List Section) (base : Option ℕ) (wide : Bool) → text_told ss text ≡ some_text (value_of (text_by ss base wide (name_value entry.now)))) }
{
    if let Some(at) = entry.str_at(DW_AT_name) {
        return Some(ItemText::InStr(at));
    }
    if entry.has(DW_AT_name) {
        return None;
    }
    Some(ItemText::Absent)
}

// The linkage name of an entry, if it needn't be read.
fn linkage<'f>(entry: &Item<'_>) -> Option<ItemText<'f>>
    ensures { IfSome result (λ text. (ss : List Section) (base : Option ℕ) (wide : Bool) → text_told ss text ≡ some_text (value_of (text_by ss base wide (linkage_value entry.now)))) }
{
    if let Some(at) = entry.str_at(DW_AT_linkage_name) {
        return Some(ItemText::InStr(at));
    }
    if entry.has(DW_AT_linkage_name) || entry.has(DW_AT_MIPS_linkage_name) {
        return None;
    }
    Some(ItemText::Absent)
}

// The texts of an entry without a fault.
fn sound_texts<'f>(home: &UnitInFile<'_, 'f>, base: Option<u64>, entry: &Item<'_>) -> ItemTexts<'f>
    requires texts { HoldsTexts home.now.bytes.now home.now.unit entry.now }
    requires sound { (t : TextsMeant) × (texts_by home.now.sections.now base home.now.unit.wide entry.now ≡ Ok t) }
    ensures { (t : TextsMeant) → texts_by home.now.sections.now base home.now.unit.wide entry.now ≡ Ok t → texts_seen result ≡ t }
{
    match home.texts(base, entry) {
        Ok(texts) => texts,
        Err(_) => unreachable!(),
    }
}
