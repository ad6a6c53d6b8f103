//! How many entries a table may have.

ghost use Rattle.std.specs.Prelude.{◌≡◌, ◌<◌, ◌≤◌, ◌^◌, true, false, flat_map, length};

use index_model::Run;

const LIMIT: u64 = 4_294_967_296;

/// Whether the runs have fewer than 4,294,967,296 entries together.
pub(crate) fn are_few(runs: &[Run<'_>]) -> bool
    ensures few { result ≡ true → length (flat_map (λ run. run) runs.now) < 2 ^ 32 }
    ensures many { result ≡ false → 2 ^ 32 ≤ length (flat_map (λ run. run) runs.now) }
{
    let mut left = LIMIT;
    for run in runs {
        let count = run.as_slice().len() as u64;
        if count >= left {
            return false;
        }
        left -= count;
    }
    true
}
