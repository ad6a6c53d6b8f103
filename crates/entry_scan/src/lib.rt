//! The debugging information entries of a unit, one after the other (DWARF 5, sections 7.5.2, 7.5.3 and 2.3).
//!
//! An entry is a code and the values of the attributes that the abbreviation of the code names. Code 0 ends the children
//! of the innermost open entry. The abbreviation of a code says which tag the entry has, whether entries stand below it, and
//! which attributes it has, in which forms; a table of them is read once for its units.
#![tactic(auto)]

mod abbrev_table;
mod abbreviation;
mod abbreviations;
mod attributes;
mod form_numbers;
mod forms;
mod inside;
mod item;
mod jumps;
mod marks;
mod sizes;
mod token;
mod tree;
mod values;
mod walk;
mod written;

pub use abbrev_table::AbbrevTable;
pub use abbreviation::{Damaged, Spec};
pub use abbreviations::{Abbrev, Abbrevs};
pub use attributes::Attributes;
pub use forms::read_value;
pub use inside::item_at;
pub use item::Item;
pub use token::Token;
pub use walk::Walk;
