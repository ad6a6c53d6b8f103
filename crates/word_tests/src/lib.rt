//! Tests of the sentences on standard error and of help.
//!
//! One happy path of each public call, with the text that stands there, which no clause has.
#![tactic(auto)]

#[cfg(test)]
mod sentences;
