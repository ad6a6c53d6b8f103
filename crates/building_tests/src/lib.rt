//! Tests of the crates that make an index of what was read.
//!
//! One happy path of each public call, over programs of rows/. Faults and rare cases are rows of their own there.
#![tactic(auto)]

#[cfg(test)]
mod address_tables;
#[cfg(test)]
mod addresses;
#[cfg(test)]
mod links;
#[cfg(test)]
mod names;
#[cfg(test)]
mod ranges;
#[cfg(test)]
mod shards;
#[cfg(test)]
mod tables;
#[cfg(test)]
mod whole;
