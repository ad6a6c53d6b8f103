//! The units of a run, one after the other.

ghost use Rattle.std.specs.Prelude.{◌≡◌, ◌+◌, ◌<◌, ◌≤◌, ◌^◌, List as Sequence, [], Some, codes, length};
ghost use Rattle.index_model.specs.Abbreviations.{table};
ghost use Rattle.index_model.specs.Faults.{scanned};
ghost use Rattle.index_model.specs.Gives.{GivesFor};
ghost use Rattle.index_model.specs.Program.{Walked};
ghost use Rattle.index_model.specs.Sections.{Section, section_bytes};
ghost use Rattle.index_model.specs.Shards.{StandsFor, first_number};
ghost use Rattle.index_model.specs.Strings.{str};
ghost use Rattle.file_image.specs.Images.{unit_bytes};
ghost use Rattle.shard_build.specs.Runs.{Holds, HoldsOneMore};

use crate::frame::UnitFacts;
use crate::home::UnitInFile;
use crate::kept::ItemsSoFar;
use crate::text_places::TextPlaces;
use entry_scan::{Abbrevs, Walk};
use index_model::{List, NodesSoFar, Root, Shard, Spans, TextBytes};
use ix_base::Stop;
use std::alloc::Global;

/// What is kept of the units of a run.
#[derive(Drop)]
pub(crate) struct ShardSoFar<'f> {
    pub roots: Vec<Root>,
    pub kept: ItemsSoFar<'f>,
}

impl<'f> ShardSoFar<'f> {
    /// A run of no units of a file.
    pub fn new(alloc: Global, bytes: TextBytes<'f>) -> ShardSoFar<'f>
        ensures roots { result.roots.items ≡ [] }
        ensures nodes { result.kept.nodes.nodes ≡ [] }
        ensures strings { result.kept.nodes.strings ≡ bytes.entry.strings.now }
        ensures spans { result.kept.spans ≡ [] }
        ensures imports { result.kept.imports.items ≡ [] }
    {
        ShardSoFar {
            roots: Vec::new(alloc),
            kept: ItemsSoFar {
                frame: UnitFacts::blank(),
                opened: Vec::new(alloc),
                nodes: NodesSoFar::new(alloc, bytes),
                spans: Spans::new(alloc),
                imports: Vec::new(alloc),
                places: TextPlaces::of(bytes.file),
            },
        }
    }

    /// Takes in a unit with its abbreviations.
    pub fn unit(&mut self, home: &UnitInFile<'_, 'f>, abbrevs: &Abbrevs) -> Result<(), Stop>
        requires table { table (section_bytes home.now.sections.now (codes ".debug_abbrev")) home.now.unit.«abbrev» ≡ Some abbrevs.now }
        requires own { home.now.bytes.now ≡ unit_bytes home.now.sections.now home.now.unit }
        requires header { home.now.unit.body ≤ length home.now.bytes.now }
        requires small { home.now.unit.start + length home.now.bytes.now < 2 ^ 63 }
        requires ends { home.now.unit.start + home.now.unit.length < 2 ^ 63 }
        requires strings { self.old.kept.nodes.strings ≡ str home.now.sections.now }
        ensures { GivesFor (λ _ w. HoldsOneMore home.now.sections.now self.old self.new w) result (scanned home.now.sections.now (home.now.number, home.now.unit)) }
    {
        self.kept.frame = UnitFacts::blank();
        self.kept.opened.clear();
        self.kept
            .walk(home, Walk::new(home.bytes, &home.unit, abbrevs))?;
        self.roots.push(self.kept.frame.root)?;
        Ok(())
    }

    /// The shard of the run whose first unit has this number.
    pub fn shard(self, first: u32) -> Shard<'f>
        ensures { (ss : Sequence Section) (ws : Sequence Walked) → Holds ss self.entry ws → first_number ws first → StandsFor ss result ws }
    {
        let ShardSoFar { roots, kept } = self;
        let ItemsSoFar {
            frame: _,
            opened: _,
            nodes,
            spans,
            imports,
            places: _,
        } = kept;
        Shard {
            first,
            roots: List::of(roots),
            nodes: nodes.finish(),
            spans,
            imports: List::of(imports),
        }
    }
}
