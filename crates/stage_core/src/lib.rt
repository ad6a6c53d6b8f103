//! The core of a build: the machine that hands out jobs, takes what they bring and publishes the parts of an index.
//!
//! It has no threads. Each call is one event of the machine of index_model (specs/Machine and specs/MachineEvents), so the law
//! over every list of events of any actors (specs/LawsCore) holds of every `Core`.
#![tactic(auto)]

mod build;
mod machine;
mod made;
mod opening;
mod output;
mod place;
mod progress;
mod slots;
mod stages;
mod stock;
mod task;
mod tasks;

pub use machine::{Core, core_is_right};
pub use output::{Cache, Output, Parts, Summary};
pub use stages::About;
pub use task::{Links, Shards, Task};
