//! What a unit's root says of the whole unit (DWARF 5, section 3.1.1).

ghost use Rattle.std.specs.Prelude.{◌≡◌};
ghost use Rattle.index_model.specs.Languages.{class_of};
ghost use Rattle.index_model.specs.Rules.{is_ada};
ghost use Rattle.shard_build.specs.Frames.{blank, frame_of, frame_at};

use crate::facts;
use dwarf_codes::tag::DW_TAG_partial_unit;
use entry_rules::{Class, class};
use entry_scan::Item;
use index_model::Root;

/// What is known of the whole unit.
#[derive(Clone, Copy)]
pub(crate) struct UnitFacts {
    pub root: Root,
    /// Where the unit's part of `.debug_str_offsets` begins.
    pub str_offsets_base: Option<u64>,
    /// Whether the unit is one of Ada, or a partial unit without a language, which may turn out to be one.
    pub ada: bool,
}

impl UnitFacts {
    /// That of a unit without entries.
    pub fn blank() -> UnitFacts
        ensures { result ≡ blank }
    {
        UnitFacts {
            root: Root {
                language: None,
                addr_base: None,
                rnglists_base: None,
                partial: false,
            },
            str_offsets_base: None,
            ada: false,
        }
    }

    // What a root says.
    #[tactic(auto, unfolding(crate::specs::Frames::frame_of))]
    fn of(entry: &Item<'_>) -> UnitFacts
        ensures { result ≡ frame_of entry.now }
    {
        let language = facts::language(entry);
        let partial = entry.tag() == DW_TAG_partial_unit;
        UnitFacts {
            root: Root {
                language,
                addr_base: facts::addr_base(entry),
                rnglists_base: facts::rnglists_base(entry),
                partial,
            },
            str_offsets_base: facts::str_offsets_base(entry),
            ada: is_ada(language.unwrap_or(0)) || (partial && language.is_none()),
        }
    }

    /// Takes in what an entry says of the whole unit, if it is the root.
    pub fn learn(&mut self, entry: &Item<'_>)
        ensures { self.new ≡ frame_at self.old entry.now }
    {
        if entry.depth() == 0 {
            *self = UnitFacts::of(entry);
        }
    }
}

// Whether a language is of class Ada.
fn is_ada(language: u16) -> bool
    ensures { result ≡ is_ada (class_of language) }
{
    match class(language) {
        Class::Ada => true,
        _ => false,
    }
}
