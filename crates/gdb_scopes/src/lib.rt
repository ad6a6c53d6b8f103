//! Where the items of a program file stand as gdb comes to them, and what their scopes are (gdb/dwarf2/read.c, `index_dies`,
//! `scan_attributes` and `recurse`; parent-map.h).
//!
//! `FilePlaces` goes over the items of a unit once there is need of it, and keeps of each whether gdb looks at it and which open item
//! stands around it. By that it says what is seen of a unit, and of an item of any unit its scope and whether its names are static.
#![tactic(auto)]

mod file;
mod name;
mod place;
mod placed;
mod reading;
mod scope;
mod seen;
mod statics;
mod unit;

pub use file::FilePlaces;
pub use name::name_of;
pub use seen::SeenItem;
