//! Writes an index of names: the bytes of a `.debug_names` section and the strings that it adds to `.debug_str` (DWARF 5,
//! section 6.1.1).
//!
//! The index has the 32-bit format, no augmentation and no foreign type units. It lists the units of `.debug_info` and their
//! entries. An entry stands under its simple name, one of a linkage name under that name. There are as many buckets as names,
//! and the names are ordered by bucket, then by hash, then by bytes.
#![tactic(auto)]

mod abbreviations;
mod buckets;
mod groups;
mod halves;
mod hash;
mod index;
mod item;
mod limits;
mod listed;
mod name;
mod numbers;
mod part;
mod pool;
mod pool_halves;
mod source;
mod strings;
mod threads;
mod units;
mod writer;

pub use writer::{NameBytes, write};
