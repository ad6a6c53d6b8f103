//! The name of an index that is kept by a build-id.

ghost use Rattle.std.specs.Prelude.{◌≡◌, IfOk};
ghost use Rattle.std.specs.String.{string_bytes};
ghost use Rattle.reach_model.specs.BuildIds.{cache_name};

use ix_base::NoMemory;
use std::alloc::Global;

/// The name of the index that is kept for the program with this build-id: what stands before all names of the store, two
/// lower-case hexadecimal digits for each byte of the id, and `.gdb-index`.
pub fn cache_name(alloc: Global, store: &str, id: &[u8]) -> Result<String, NoMemory>
    ensures { IfOk result (λ name. string_bytes name ≡ cache_name store.now id.now) }
{
    let digits = hex::encode(alloc, id)?;
    let mut name = String::from_str(alloc, store)?;
    name.push_str(&digits)?;
    name.push_str(".gdb-index")?;
    Ok(name)
}
