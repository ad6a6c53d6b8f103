//! Tests of the crates on which threads meet, and of those that stand between the program and what is outside.
//!
//! What no clause can say: that threads do make turns while others wait or read, that jobs run at once and in any order, and that
//! real files and streams give what was put into them.
#![tactic(auto)]

#[cfg(test)]
mod boards;
#[cfg(test)]
mod builds;
#[cfg(test)]
mod gates;
#[cfg(test)]
mod locks;
#[cfg(test)]
mod replaced;
#[cfg(test)]
mod streams;
#[cfg(test)]
mod wanting;
