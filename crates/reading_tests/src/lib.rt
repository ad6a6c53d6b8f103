//! Tests of the crates that read programs.
//!
//! One happy path of each public call, whose values come from the standards, from readelf or from what a file was written as. Faults
//! and rare cases are rows in rows/vectors.
#![tactic(auto)]

#[cfg(test)]
mod abbreviations;
#[cfg(test)]
mod entries;
#[cfg(test)]
mod files;
#[cfg(test)]
mod numbers;
#[cfg(test)]
mod rules;
#[cfg(test)]
mod sections;
#[cfg(test)]
mod shared;
#[cfg(test)]
mod strings;
#[cfg(test)]
mod values;
