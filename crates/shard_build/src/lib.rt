//! The shard of a run of units: what is kept of their entries in one pass over their bytes (DWARF 5, sections 2.3, 3.1.1
//! and 7.5.3).
#![tactic(auto)]

mod above;
mod again;
mod entries;
mod facts;
mod forms;
mod found;
mod frame;
mod home;
mod kept;
mod open;
mod run;
mod shard;
mod small;
mod tables;
mod text_places;
mod texts;
mod unit;
mod units_again;
mod unkept;

pub use entries::Entries;
pub use facts::reference;
pub use found::unit_at;
pub use home::UnitInFile;
pub use shard::scan;
pub use texts::ItemTexts;
