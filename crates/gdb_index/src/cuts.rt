//! Where a range of units is cut, by their bytes.

ghost use Rattle.std.specs.Prelude.{◌<◌, ◌≤◌, ◌+◌, length};

use index_model::Unit;

// So many bytes of units are gone over together.
const GROUP_BYTES: u64 = 4_194_304;

/// Where the units end that are gone over together from the first of this range on: it alone, or as many as have no more than
/// `GROUP_BYTES` bytes together.
pub(crate) fn group_end(units: &[Unit], first: u32, end: u32) -> u32
    requires some { first < end }
    requires within { end ≤ length units.now }
    ensures above { first < result }
    ensures below { result ≤ end }
{
    let mut bytes = units[first as usize].length;
    for unit in first + 1..end {
        bytes = bytes.saturating_add(units[unit as usize].length);
        if bytes > GROUP_BYTES {
            return unit;
        }
    }
    end
}

/// The unit of this range behind the first that begins where about half of the range's bytes stand before it.
pub(crate) fn middle_of(units: &[Unit], first: u32, end: u32) -> u32
    requires two { first + 2 ≤ end }
    requires within { end ≤ length units.now }
    ensures above { first < result }
    ensures below { result < end }
{
    let last = end - 1;
    let half = units[first as usize].start / 2 + units[last as usize].start / 2;
    for unit in first + 1..last {
        if units[unit as usize].start >= half {
            return unit;
        }
    }
    last
}
