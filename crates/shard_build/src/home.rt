//! The unit of an entry, and what it adds to the entry's own facts.

ghost use Rattle.std.specs.Prelude.{◌≡◌, ◌+◌, ◌<◌, ◌≤◌, ◌^◌, nat_lt, slice_get, if◌then◌else◌, length, codes, Ok, Some, None, option_to_list};
ghost use Rattle.index_model.specs.NodeSeen.{node_seen};
ghost use Rattle.index_model.specs.Sections.{section_bytes};
ghost use Rattle.file_image.specs.Images.{image_of, unit_bytes};
ghost use Rattle.shard_build.specs.Kept.{node_by, node_under, target_by, span_from, imports_by};
ghost use Rattle.shard_build.specs.Texts.{texts_seen};

use crate::facts;
use crate::open::Open;
use crate::texts::ItemTexts;
use dwarf_codes::tag::DW_TAG_imported_unit;
use entry_scan::Item;
use file_image::{Image, Sections};
use index_model::{Import, Next, Node, Span, Unit};

/// A unit, its number in section order, its bytes, and the sections of its file (DWARF 5, section 7.5.1).
#[derive(Clone, Copy)]
pub struct UnitInFile<'s, 'f> {
    pub sections: &'s Sections<'f>,
    /// The unit's own bytes, from its first byte to its end.
    pub bytes: &'f [u8],
    pub unit: Unit,
    pub number: u32,
}

impl<'s, 'f> UnitInFile<'s, 'f> {
    /// The unit of a file with this number, counted from 0 over `.debug_info` and then `.debug_types`. It has no error: an image
    /// is opened only where the headers of all its units can be read.
    pub fn of(image: &'s Image<'f>, number: u32) -> UnitInFile<'s, 'f>
        requires { number < length image.now.units }
        ensures sections { result.sections.now ≡ image.now.sections }
        ensures number { result.number ≡ number }
        ensures unit { slice_get image.now.units number ≡ Some result.unit }
        ensures own { result.bytes.now ≡ unit_bytes image.now.sections result.unit }
        ensures header { result.unit.body ≤ length result.bytes.now }
        ensures small { result.unit.start + length result.bytes.now < 2 ^ 63 }
        ensures ends { result.unit.start + result.unit.length < 2 ^ 63 }
        ensures of_file { image_of image.now.file ≡ Ok image.now }
    {
        UnitInFile {
            sections: image.sections(),
            bytes: image.unit_bytes(number as usize),
            unit: image.units()[number as usize],
            number,
        }
    }

    /// The node of an entry in this one, with these texts.
    #[inline(always)]
    #[tactic(auto, unfolding(crate::specs::Kept::node_by))]
    pub(crate) fn node(
        &self,
        outer: Option<Open>,
        entry: &Item<'_>,
        texts: ItemTexts<'f>,
    ) -> Node<'f>
        ensures { node_seen result ≡ node_by self.now.sections.now (self.now.number, self.now.unit) outer entry.now (texts_seen texts.entry) }
    {
        self.node_under(outer.map(|open| open.at), entry, texts)
    }

    /// The node of an entry whose parent has this joint offset, with these texts.
    #[inline(always)]
    #[tactic(auto, unfolding(crate::specs::Kept::node_under))]
    pub(crate) fn node_under(
        &self,
        parent: Option<u64>,
        entry: &Item<'_>,
        texts: ItemTexts<'f>,
    ) -> Node<'f>
        ensures { node_seen result ≡ node_under self.now.sections.now (self.now.number, self.now.unit) parent entry.now (texts_seen texts.entry) }
    {
        let version = self.unit.version;
        Node {
            unit: self.number,
            offset: entry.offset(),
            parent,
            tag: entry.tag(),
            declaration: facts::is_declaration(entry),
            external: facts::is_external(entry),
            enum_class: facts::is_enum_class(entry),
            main: facts::is_main(entry),
            address: facts::has_address(entry, version),
            value: facts::has_value(entry),
            name: texts.name,
            linkage: texts.linkage,
            next: facts::next(entry),
            signature: facts::signature(entry),
            low: facts::low(entry),
            high: facts::high(entry),
            ranges: facts::ranges(entry, version),
        }
    }

    /// The span of an entry, as long as no null ended it.
    pub(crate) fn span(&self, item: &Item<'_>) -> Span
        requires { self.now.unit.start + self.now.unit.length < 2 ^ 63 }
        ensures { result ≡ span_from self.now.sections.now (self.now.number, self.now.unit) item.now }
    {
        Span {
            unit: self.number,
            entry: item.offset(),
            depth: item.depth(),
            from: item.after(),
            to: self.unit.start + self.unit.length,
        }
    }

    /// The import of an entry, if it is an imported unit that names a place.
    pub(crate) fn import(&self, entry: &Item<'_>) -> Option<Import>
        requires { self.now.unit.start + self.now.unit.length < 2 ^ 63 }
        ensures { option_to_list result ≡ imports_by self.now.sections.now (self.now.number, self.now.unit) entry.now }
    {
        if entry.tag() != DW_TAG_imported_unit {
            return None;
        }
        match facts::import(entry) {
            None => None,
            Some(reference) => match self.target(reference) {
                None => None,
                Some(target) => Some(Import {
                    unit: self.number,
                    target,
                }),
            },
        }
    }

    /// The joint offset that a reference names, if it lies in the unit or in `.debug_info`, as its form says (DWARF 5, section
    /// 7.5.5, reference). Nothing says that an entry begins there.
    pub fn target(&self, reference: Next) -> Option<u64>
        requires { self.now.unit.start + self.now.unit.length < 2 ^ 63 }
        ensures { result ≡ target_by self.now.sections.now (self.now.number, self.now.unit) reference }
    {
        if reference.near {
            self.in_unit(reference.target)
        } else {
            self.in_info(reference.target)
        }
    }

    fn in_unit(&self, target: u64) -> Option<u64>
        requires { self.now.unit.start + self.now.unit.length < 2 ^ 63 }
        ensures { result ≡ (if nat_lt target self.now.unit.length then Some (self.now.unit.start + target) else None) }
    {
        if target < self.unit.length {
            Some(self.unit.start + target)
        } else {
            None
        }
    }

    fn in_info(&self, target: u64) -> Option<u64>
        ensures { result ≡ (if nat_lt target (length (section_bytes self.now.sections.now (codes ".debug_info"))) then Some target else None) }
    {
        if target < self.sections.debug_info().len() as u64 {
            Some(target)
        } else {
            None
        }
    }
}
