//! Tests of the lines that ask and of those that reply.
//!
//! One happy path of each public call, as rows in rows/vectors write lines down, and what no clause can say: how many writes lines
//! take, and what a gate is told.
#![tactic(auto)]

#[cfg(test)]
mod lines;
#[cfg(test)]
mod sessions;
