//! C++ names of a file's `.debug_str` as gdb spells them, each spelled once for all items that have it.
//!
//! A name stands in `.debug_str` once, and the items of many units have it. So the texts with template arguments, which it takes long
//! to spell, are spelled before any item is gone over, and are found by their places. Who writes a file picks its names, but not
//! more places than the file has bytes: no choice of names makes them be sought long.
#![tactic(auto)]

mod kept;
mod places;
mod spelling;

pub use kept::SpelledTexts;
pub use spelling::Spelling;
