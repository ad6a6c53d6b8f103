//! The reader of `.debug_names` (DWARF 5, section 6.1.1).
//!
//! An index has, one after the other: its length and its version, seven counts, an augmentation string, the lists of units
//! (offsets of compile units and of local type units, signatures of foreign type units), the buckets and the hashes (none
//! without buckets), for each name the offset of its string in `.debug_str` and of its entries in the pool, the abbreviations
//! of the entries, and the pool. An entry is the code of an abbreviation and the values of its attributes; the code 0 ends
//! the entries of a name.
//!
//! Anyone may have made the bytes. `NameIndex::open` accepts exactly those without a fault, else it gives the first fault, its
//! code (`index_model::index_code`, 50 to 57) and its place in the section. Memory is taken for the abbreviations by their codes
//! and, while `open` reads, for what it has read of the pool; where there is none it does without, so no answer depends on it.
#![tactic(auto)]

mod abbreviation;
mod attributes;
mod buckets;
mod checked;
mod counting;
mod entry;
mod form;
mod hash;
mod hashes;
mod header;
mod hits;
mod index;
mod known;
mod names;
mod numbers;
mod tables;

pub use entry::{NameHit, Sort};
pub use hits::NameHits;
pub use index::NameIndex;
