//! An index that is kept by the build-id of its program, so that the program need not be read again (GNU ld, "--build-id"; GDB
//! manual, "Index Files").
//!
//! A kept index is what it begins with (`GDBIXC1` and a zero), the length of the build-id in 4 bytes, the build-id, and a
//! `.gdb_index`. Anyone may have made its bytes, or cut them: `open` accepts exactly those without a fault, else it gives the first
//! fault, its code (`reach_model::code`, 80 and 81, and `index_model::index_code`, 40 to 47) and its place.
#![tactic(auto)]

mod kept;
mod name;
mod note;

pub use kept::{make, open};
pub use name::cache_name;
pub use note::build_id;
