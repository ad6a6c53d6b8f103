//! Tests of what gdb does of names, items and units.
//!
//! Names with the form that gdb has for them in an index that it writes, which no clause speaks of: the definitions are ours. Items and
//! the owners of units by gdb's rules, by hand.
#![tactic(auto)]

#[cfg(test)]
mod ada_names;
#[cfg(test)]
mod full_names;
#[cfg(test)]
mod gdb_items;
#[cfg(test)]
mod names;
#[cfg(test)]
mod unit_owners;
