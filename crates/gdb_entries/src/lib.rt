//! What gdb lists in the index that it writes itself, by the rules of gdb 16 (gdb/dwarf2: read.c, abbrev.c, cooked-index.c,
//! index-write.c): the classes of languages, which items count, which open their children, their kinds, and which are static.
//!
//! specs/ has the definitions: the owner of a unit, which items are come to and looked at, their chains, scopes and names, and
//! the entries of a file. docs/GDB.md has them in words, with what was measured against gdb.
//!
//! Nothing here refuses a file: a reference that names nothing ends its chain, and so does the greatest number of hops.
#![tactic(auto)]

mod codes;
mod item;
mod kinds;
mod language;
mod separator;
pub mod vectors;

pub use codes::DW_TAG_entry_point;
pub use item::{
    ItemFacts, counts, gives_component, gives_scope_alone, is_allowed_in, is_called, is_static,
    opens,
};
pub use kinds::{Kinds, kinds_of};
pub use language::{LanguageClass, class};
pub use separator::{Separator, separator_of};
