//! A build's jobs, and the workers that do them (DWARF 5, section 6.1).
//!
//! What a job makes of what the core hands out with it knows no turns, and only the sorting of the table has threads. The workers
//! know nothing of that: each has a pass of its own on the board, draws jobs in turns, has them done outside of its turns and
//! finishes them. They hand their passes back, and the caller's own pass then knows how the build ended.
#![tactic(auto)]

mod crew;
mod ended;
mod job;
mod next_job;
mod outputs;
mod pool;
mod ranges;
mod sizes;
mod summary;
mod team;
mod worker;
mod write;

pub use crew::Crew;
pub use ended::Ended;
pub use job::perform;
pub use pool::{build, build_to, work, work_to};
pub use sizes::sections_are_small;
pub use write::{name_cache, name_index};
