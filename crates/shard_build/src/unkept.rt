//! Entries of which nothing is kept, as most are, by a few looks.

ghost use Rattle.std.specs.Prelude.{◌≡◌, true, not, ◌&&◌, None, Ok, reverse};
ghost use Rattle.index_model.specs.Attributes.{attribute as attribute_of};
ghost use Rattle.index_model.specs.Rules.{is_in_table};
ghost use Rattle.entry_scan.specs.Tokens.{token_seen};
ghost use Rattle.shard_build.specs.Kept.{kept_seen, entered, behind, innermost as innermost_of, is_visited_in as is_visited};
ghost use Rattle.shard_build.specs.Unkept.{is_leaf as is_leaf_entry, IsSoundText, AreSoundTexts};

use crate::home::UnitInFile;
use crate::kept::ItemsSoFar;
use crate::open::{innermost, is_visited_in};
use dwarf_codes::attribute::{DW_AT_MIPS_linkage_name, DW_AT_linkage_name, DW_AT_name};
use dwarf_codes::tag::DW_TAG_imported_unit;
use entry_rules::in_table;
use entry_scan::{Item, Token};

impl<'f> ItemsSoFar<'f> {
    /// Whether a few looks tell that nothing is kept of a token and that no text of it has a fault. Made for a token that isn't in
    /// memory, since to write it there costs more than these looks.
    #[inline(always)]
    pub fn passes(&self, home: &UnitInFile<'_, 'f>, token: &Token<'_>) -> bool
        ensures { result ≡ true → behind home.now.sections.now (home.now.number, home.now.unit) (kept_seen self.now) (token_seen token.now) ≡ Ok (kept_seen self.now) }
    {
        match token {
            Token::Null { .. } => false,
            Token::Entry(item) => self.passes_entry(home, item),
        }
    }

    // The same of an entry.
    #[inline(always)]
    fn passes_entry(&self, home: &UnitInFile<'_, 'f>, item: &Item<'_>) -> bool
        ensures { result ≡ true → entered home.now.sections.now (home.now.number, home.now.unit) (kept_seen self.now) item.now ≡ Ok (kept_seen self.now) }
    {
        if self.is_unkept(item) {
            return home.has_sound_texts(item);
        }
        false
    }

    // Whether an entry has no node, children or import.
    #[inline(always)]
    fn is_unkept(&self, item: &Item<'_>) -> bool
        ensures { result ≡ (is_leaf_entry item.now && not (is_in_table item.now.tag && is_visited (innermost_of (reverse self.now.opened.items)) self.now.frame.ada)) }
    {
        is_leaf(item) && !(in_table(item.tag()) && self.is_visited())
    }

    // Whether the next entry is visited, if it isn't the root.
    #[inline(always)]
    fn is_visited(&self) -> bool
        ensures { result ≡ is_visited (innermost_of (reverse self.now.opened.items)) self.now.frame.ada }
    {
        is_visited_in(innermost(&self.opened), self.frame.ada)
    }
}

// Whether an entry isn't the root and has neither children nor an import.
#[inline(always)]
fn is_leaf(item: &Item<'_>) -> bool
    ensures { result ≡ is_leaf_entry item.now }
{
    item.depth() != 0 && !item.children() && item.tag() != DW_TAG_imported_unit
}

impl<'s, 'f> UnitInFile<'s, 'f> {
    // Whether a few looks tell that the texts of an entry are sound.
    #[inline(always)]
    fn has_sound_texts(&self, item: &Item<'_>) -> bool
        ensures { result ≡ true → AreSoundTexts self.now.sections.now self.now.unit.wide item.now }
    {
        if self.is_sound_in(item, DW_AT_name) {
            return self.has_sound_linkage_name(item);
        }
        false
    }

    // Whether a few looks tell that the linkage name of an entry is sound, and that older producers didn't write it.
    #[inline(always)]
    fn has_sound_linkage_name(&self, item: &Item<'_>) -> bool
        ensures { result ≡ true → IsSoundText self.now.sections.now (attribute_of 0x6E item.now) × (attribute_of 0x2007 item.now ≡ None) }
    {
        if item.lacks(DW_AT_MIPS_linkage_name) {
            return self.is_sound_in(item, DW_AT_linkage_name);
        }
        false
    }

    // Whether a few looks tell that an entry has no such attribute, or a sound text of `.debug_str` in it.
    #[inline(always)]
    fn is_sound_in(&self, item: &Item<'_>, attribute: u64) -> bool
        ensures { result ≡ true → IsSoundText self.now.sections.now (attribute_of attribute item.now) }
    {
        match item.str_at(attribute) {
            Some(at) => self.sections.is_sound_str(at),
            None => item.lacks(attribute),
        }
    }
}
