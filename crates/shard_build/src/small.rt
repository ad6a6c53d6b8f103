//! Nodes of entries whose texts needn't be read, as most are.

ghost use Rattle.std.specs.Prelude.{◌≡◌, true, Some, IfSome};
ghost use Rattle.index_model.specs.Attributes.{attribute as attribute_of};
ghost use Rattle.index_model.specs.Forms.{Str};
ghost use Rattle.shard_build.specs.Small.{own_of, HasString, IsPlain, IsSmallNode};
ghost use Rattle.shard_build.specs.Texts.{AreOffsets};

use crate::facts;
use crate::home::UnitInFile;
use crate::texts::TextOffsets;
use dwarf_codes::attribute::{
    DW_AT_high_pc, DW_AT_low_pc, DW_AT_name, DW_AT_ranges, DW_AT_signature,
};
use entry_scan::Item;
use index_model::{OwnFacts, SmallNode};

impl<'s, 'f> UnitInFile<'s, 'f> {
    /// The node of an entry whose parent has this joint offset, if a few looks tell that it has no addresses and no signature, and that
    /// its texts are short strings of `.debug_str`.
    #[inline(always)]
    pub(crate) fn small_node(
        &self,
        parent: Option<u64>,
        entry: &Item<'_>,
        offsets: &TextOffsets,
    ) -> Option<SmallNode>
        requires { AreOffsets entry.now offsets.now }
        ensures { IfSome result (IsSmallNode self.now.sections.now (self.now.number, self.now.unit) parent entry.now) }
    {
        if is_plain(entry) && self.has_short_texts(entry, offsets) {
            Some(SmallNode {
                unit: self.number,
                offset: entry.offset(),
                parent,
                tag: entry.tag(),
                own: own_facts(entry, self.unit.version),
                name: offsets.name,
                linkage: offsets.linkage,
                next: facts::next(entry),
            })
        } else {
            None
        }
    }

    // Whether a few looks tell that the texts of an entry are short strings, where they are there.
    #[inline(always)]
    fn has_short_texts(&self, entry: &Item<'_>, offsets: &TextOffsets) -> bool
        requires { AreOffsets entry.now offsets.now }
        ensures name { result ≡ true → HasString self.now.sections.now entry.now 0x03 offsets.now.name }
        ensures linkage { result ≡ true → HasString self.now.sections.now entry.now offsets.now.linkage_attribute offsets.now.linkage }
    {
        self.has_short_text(entry, DW_AT_name, offsets.name)
            && self.has_short_text(entry, offsets.linkage_attribute, offsets.linkage)
    }

    // Whether two looks tell that an attribute isn't there, or has a short string of `.debug_str`, which stands at this offset.
    #[inline(always)]
    #[tactic(auto, using(crate::proofs::SmallLaws::string_is, crate::proofs::SmallLaws::none_is))]
    fn has_short_text(&self, entry: &Item<'_>, attribute: u64, offset: Option<u64>) -> bool
        requires { IfSome offset (λ at. attribute_of attribute entry.now ≡ Some (Str at)) }
        ensures { result ≡ true → HasString self.now.sections.now entry.now attribute offset }
    {
        match offset {
            Some(at) => self.sections.is_short_str(at),
            None => entry.lacks(attribute),
        }
    }
}

// Whether one look each tells that an entry has no addresses and no signature.
#[inline(always)]
fn is_plain(entry: &Item<'_>) -> bool
    ensures { result ≡ true → IsPlain entry.now }
{
    entry.lacks(DW_AT_low_pc)
        && entry.lacks(DW_AT_high_pc)
        && entry.lacks(DW_AT_ranges)
        && entry.lacks(DW_AT_signature)
}

// What an entry says of itself, in a unit of this version.
#[inline(always)]
fn own_facts(entry: &Item<'_>, version: u16) -> OwnFacts
    ensures { result ≡ own_of version entry.now }
{
    OwnFacts {
        declaration: facts::is_declaration(entry),
        external: facts::is_external(entry),
        enum_class: facts::is_enum_class(entry),
        main: facts::is_main(entry),
        address: facts::has_address(entry, version),
        value: facts::has_value(entry),
    }
}
