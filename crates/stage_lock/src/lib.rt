//! A lock over one value that goes from stage to stage, and a word from which anyone reads its stage without waiting.
//!
//! It stands for no format. The stages are those of a build (docs/DEFINITIONS.md), and docs/LOCK.md shows the lock's words, its
//! slot, its steps and the facts that hold between any two of them.
#![tactic(auto)]

mod known;
mod laws;
mod lock;
mod moves;
mod pass;

pub use laws::facts_hold_between_steps;
pub use lock::StageLock;
pub use pass::Pass;
