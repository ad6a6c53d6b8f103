//! To which unit gdb gives what stands in a unit, and by which class of language it reads a unit (gdb/dwarf2/read.c,
//! `index_imported_unit` and `prepare_one_comp_unit`), as far as it can be said without a file.
//!
//! A partial unit is read as part of the first unit that imports it, itself or through partial units (DWARF 5, sections 3.1.1
//! and 3.2.5). Who walks over a file says where the roots of its units stand, and what they import; the definitions of the
//! answers are those of gdb_entries.
#![tactic(auto)]

mod imported;
mod language;
mod owners;
mod partial_roots;
mod spread;
mod units;

pub use language::own_class;
pub use owners::Owners;
pub use units::UnitRoot;
