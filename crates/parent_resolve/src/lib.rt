//! What the references of a file's entries give: their chains, the names that these spell, and which entries are followed
//! (DWARF 5, sections 2.13.2, 3.3.8 and 7.32).
#![tactic(auto)]

mod chain;
mod classes;
mod components;
mod entry;
mod importers;
mod languages;
mod links;
mod members;
mod paths;
mod references;
mod scope;
mod signatures;
mod traced;
mod visits;

pub use languages::Languages;
pub use links::link;
pub use references::References;
pub use traced::Traced;
