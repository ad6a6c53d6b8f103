//! The entries that gdb lists of a program file, and the `.gdb_index` of them (gdb/dwarf2: cooked-index.c, `full_name` and
//! `write_scope`; index-write.c, `write_cooked_index`).
//!
//! `FileNames` goes along the scope path of an item: what each member of a path gives to names is formed once, by the class of its own
//! unit, and so is what a scope puts before the names in it; both are kept for the other items that stand there. A name with template
//! arguments is spelled once for the whole file, before any unit is gone over (gdb_texts). `list_unit` gives the entries of a unit by it.
//! The units of a file are halved by their bytes for several threads, and each part becomes a run of entries; within a part one
//! `FileNames` serves a few units alone, since it keeps all items of the units that it went over. The table of the runs is written with
//! the units and addresses of the file.
#![tactic(auto)]

mod both_texts;
mod cuts;
mod entries;
mod few;
mod file;
mod front;
mod halves;
mod index;
mod item;
mod item_names;
pub mod laws;
mod main_listed;
mod names;
mod part;
mod path;
mod places;
mod step;
mod table;
mod text;
mod turned;
mod unit;

pub use index::listed_index;
