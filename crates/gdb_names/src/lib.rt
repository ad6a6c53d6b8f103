//! Names as gdb lists them, as far as they can be said without a file (gdb/dwarf2: cooked-index.c, read.c, index-write.c): a name
//! spelled by the class of its unit, a name behind the components of its scope, one of Ada decoded and encoded again, and which
//! names an item has.
//!
//! gdb 13 and gdb 16 spell some names differently: each name is given by both, the second only where it is another.
//!
//! What is given is what the definitions of gdb_entries say: who walks over a file puts these together.
#![tactic(auto)]

mod ada;
mod both;
mod by_class;
pub mod file_names;
mod fronts;
mod full_names;
mod items;
mod scope;

pub use both::{BothComponents, BothNames};
pub use by_class::spelled;
pub use fronts::BothFronts;
pub use full_names::ada_full_name;
pub use items::{ItemNames, SecondName, item_names};
