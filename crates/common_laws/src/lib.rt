//! Laws of Booleans, options, lists and numbers that the proofs of several crates use and the library doesn't have.
//!
//! It has no code: a law that speaks of a definition of ours stands in the crate of that definition.
#![tactic(auto)]
