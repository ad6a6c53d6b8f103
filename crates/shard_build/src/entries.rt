//! The entries of a file: those that a shard keeps, and those that are read again.

ghost use Rattle.std.specs.Prelude.{◌≡◌, map, Contains, IfOk};
ghost use Rattle.std.specs.Arc.{arc_value};
ghost use Rattle.index_model.specs.Attributes.{Reference};
ghost use Rattle.index_model.specs.Program.{Walked, item_with_offset};
ghost use Rattle.index_model.specs.ShardParts.{as_next};
ghost use Rattle.shard_build.specs.Entries.{AreShardsOfFile, ForProgram, IsNodeIn, IsTargetOf, entry_meant};
ghost use Rattle.shard_build.specs.Found.{IsFound, IsWithin};

use crate::found::{NodeOrSpan, node_at};
use crate::home::UnitInFile;
use crate::units_again::UnitsAgain;
use entry_scan::AbbrevTable;
use file_image::Image;
use index_model::{Next, Node, Shard, Span};
use ix_base::NoMemory;
use std::alloc::Global;
use std::marker::Model;
use std::sync::Arc;

/// The entries of a file, by its image and by the shards of all its units.
#[derive(Drop)]
pub struct Entries<'s, 'f> {
    image: &'s Image<'f>,
    shards: &'s [Arc<Shard<'f>>],
    at_hand: Option<AbbrevTable>,
    // Units that were read again, once there was need of it.
    units: Option<UnitsAgain<'f>>,
}

impl<'s, 'f> Model for Entries<'s, 'f> {
    ghost use Rattle.std.specs.Prelude.{map, codes};
    ghost use Rattle.std.specs.Arc.{arc_value};
    ghost use Rattle.std.specs.Option.{ForSome};
    ghost use Rattle.index_model.specs.Sections.{section_bytes};
    ghost use Rattle.shard_build.specs.Entries.{EntriesOf, AreShardsOfFile};
    ghost use Rattle.entry_scan.specs.TablesAtOffsets.{IsAtOffset};
    ghost use Rattle.shard_build.specs.Again.{AreOfUnits};

    ghost Value = { EntriesOf };

    ghost view = { λ e. record { image = e.image.now; shards = map arc_value e.shards.now } };

    ghost invariant = { λ e. AreShardsOfFile e.image.now (map arc_value e.shards.now) × ForSome e.at_hand (IsAtOffset (section_bytes e.image.now.sections (codes ".debug_abbrev"))) × ForSome e.units (λ u. AreOfUnits e.image.now.file u.nodes) };
}

impl<'s, 'f> Entries<'s, 'f> {
    /// The entries of a file. The shards are those of consecutive runs that make up all its units.
    pub fn new(image: &'s Image<'f>, shards: &'s [Arc<Shard<'f>>]) -> Entries<'s, 'f>
        requires { AreShardsOfFile image.now (map arc_value shards.now) }
        ensures { result ≡ record { image = image.now; shards = map arc_value shards.now } }
    {
        Entries {
            image,
            shards,
            at_hand: None,
            units: None,
        }
    }

    /// The image of the file.
    pub fn image(&self) -> &'s Image<'f>
        ensures { result.now ≡ self.now.image }
    {
        self.image
    }

    /// The shards.
    pub fn shards(&self) -> &'s [Arc<Shard<'f>>]
        ensures { map arc_value result.now ≡ self.now.shards }
    {
        self.shards
    }

    /// The node of the entry at a joint offset, None where no entry of the file stands there.
    pub fn at(&mut self, alloc: Global, offset: u64) -> Result<Option<Node<'f>>, NoMemory>
        ensures value { ForProgram self.old (λ p. IfOk result (λ n. IsNodeIn p.sections n (item_with_offset p offset))) }
        ensures kept { self.new ≡ self.old }
    {
        match self.find(offset) {
            NodeOrSpan::Kept(node) => Ok(Some(node)),
            NodeOrSpan::Within(span) => {
                let whole = self.is_too_much(alloc, &span, offset)?;
                self.again(alloc, &span, offset, whole)
            }
            NodeOrSpan::Nowhere => Ok(None),
        }
    }

    // What is known of the entry at a joint offset.
    fn find(&self, offset: u64) -> NodeOrSpan<'f>
        ensures { ForProgram self.now (λ p. IsFound p offset result) }
    {
        if let Some(units) = &self.units {
            if let Some(found) = units.find(self.image, offset) {
                return found;
            }
        }
        NodeOrSpan::of(self.image, self.shards, offset)
    }

    // Whether more bytes than a unit has would be read for single entries of it, with the one at an offset in this span.
    fn is_too_much(&mut self, alloc: Global, span: &Span, offset: u64) -> Result<bool, NoMemory>
        ensures { self.new ≡ self.old }
    {
        let length = match self.image.units().get(span.unit as usize) {
            Some(unit) => unit.length,
            None => 0,
        };
        let mut units = match self.units.take() {
            Some(units) => units,
            None => UnitsAgain::new(alloc),
        };
        let answer = units.is_too_much(span.unit, offset.saturating_sub(span.from), length);
        self.units = Some(units);
        answer
    }

    // The node of the entry at a joint offset in the span of its parent, where it is read again: alone, or with the whole unit,
    // which is kept from then on.
    fn again(
        &mut self,
        alloc: Global,
        span: &Span,
        offset: u64,
        whole: bool,
    ) -> Result<Option<Node<'f>>, NoMemory>
        requires { ForProgram self.old (λ p. IsWithin p offset span.now) }
        ensures value { ForProgram self.old (λ p. IfOk result (λ n. IsNodeIn p.sections n (item_with_offset p offset))) }
        ensures kept { self.new ≡ self.old }
    {
        // The units are those of the image's file, and the span's is one of them.
        let section = self.image.sections().debug_abbrev();
        let home = UnitInFile::of(self.image, span.unit);
        let table = AbbrevTable::of_sound(alloc, section, &home.unit, self.at_hand.take())?;
        let table = self.at_hand.insert(table);
        if !whole {
            return Ok(home.node_within(&table.abbrevs, span, offset));
        }
        let nodes = home.nodes(alloc, self.image.file(), &table.abbrevs)?;
        let node = node_at(&nodes, offset);
        self.units = Some(UnitsAgain::with(alloc, self.units.take(), span.unit, nodes)?);
        Ok(node)
    }

    /// The node of the entry that a reference of a unit's entry names (DWARF 5, section 7.5.5), None where it names none.
    pub fn named(
        &mut self,
        alloc: Global,
        unit: u32,
        reference: Next,
    ) -> Result<Option<Node<'f>>, NoMemory>
        ensures value { ForProgram self.old (λ p. (w : Walked) → Contains p.walks w → w.number ≡ unit → (r : Reference) → reference ≡ as_next r → IfOk result (λ n. IsNodeIn p.sections n (entry_meant p w r))) }
        ensures kept { self.new ≡ self.old }
    {
        match target(self.image, unit, reference) {
            Some(offset) => self.at(alloc, offset),
            None => Ok(None),
        }
    }
}

// The joint offset that a reference of a unit's entry names, if it lies where its form says.
fn target(image: &Image<'_>, unit: u32, reference: Next) -> Option<u64>
    ensures { IsTargetOf image.now.file unit reference result }
{
    if unit as usize >= image.units().len() {
        return None;
    }
    UnitInFile::of(image, unit).target(reference)
}
