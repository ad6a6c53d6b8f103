//! The types that several crates share: units, entries, queries and answers, and the texts of the answers.
//!
//! Units and entries are those of DWARF 5, sections 7.5.1 and 2.3 (DWARF 4 for versions 2 to 4). An index answers questions
//! about them (DWARF 5, section 6.1).
//!
//! Beside the types stand the definitions, in specs/: what the bytes of a file mean, from its sections to the answers, in the
//! words of the standards. The contracts of all crates cite them. docs/DEFINITIONS.md reads them aloud in their order; begin
//! there. `laws` and `index_laws` say what follows from them.
#![tactic(auto)]

mod answer;
mod bits;
mod entry;
mod given;
pub mod index_code;
mod index_laws;
mod job;
mod languages;
mod laws;
mod leaf;
mod list;
mod marks;
mod nodes;
mod nodes_so_far;
mod packing;
mod parents;
mod place;
mod query;
mod range;
mod rules;
mod searches;
mod shard;
mod small_node;
mod span_leaf;
mod spans;
mod staged;
mod steps;
mod text;
mod unit;
mod unpacking;
mod value;
mod write_stop;

pub use answer::{Answer, CacheSize, Hits, Look, Main, MainName, Reply};
pub use entry::{Entry, Kind, Run};
pub use index_laws::{
    core_goes_on, core_is_right, each_job_once, each_name_has_its_slot, path_finds_all,
    path_has_each_slot, pieces_are_maximal,
};
pub use job::{CacheKind, Job, Moment};
pub use languages::{language, root_in, root_of, root_offset};
pub use laws::{
    entries_are_in_order, first_fault_goes_by_phases, inline_texts_stand_in_their_entries,
    simple_names_are_ends, spans_stand_for_children, stages_go_on, unit_at_is_the_least,
    units_tile_their_sections, visited_goes_by_the_parent, walks_are_in_order,
};
pub use list::List;
pub use nodes::Nodes;
pub use nodes_so_far::{NodesSoFar, Places};
pub use place::TextBytes;
pub use query::Query;
pub use range::{Range, UnitRange};
pub use rules::{Class, Facts, Parent};
pub use shard::{Import, Linked, LinkedEntry, Next, Node, Raw, Root, Shard, Span};
pub use small_node::{OwnFacts, SmallNode};
pub use spans::Spans;
pub use staged::Staged;
pub use steps::Steps;
pub use text::Text;
pub use unit::{Part, Unit, UnitSort};
pub use value::Value;
pub use write_stop::{TooLarge, WriteStop};
