//! Tests of the commands, by the top call.
//!
//! What no clause can say: that the work is done on several threads, and that readers are answered while it is done; and what stands
//! where a device fails, at each call of it. What each command writes is a row in rows/, which are run on the program itself.
#![tactic(auto)]

#[cfg(test)]
mod added;
#[cfg(test)]
mod called;
#[cfg(test)]
mod cases;
#[cfg(test)]
mod devices;
#[cfg(test)]
mod faults;
#[cfg(test)]
mod gated;
