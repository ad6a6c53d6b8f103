//! The numbers that units have in the index: first those that aren't type units, then the type units, each in section order.

ghost use Rattle.std.specs.Prelude.{◌≡◌, ◌≤◌, ◌<◌, not, length, map, count_by, All, IfOk};
ghost use Rattle.index_model.specs.Layout.{below};
ghost use Rattle.index_model.specs.GdbIndex.{index_number, is_type_unit};

use crate::units::is_type_unit;
use index_model::Unit;
use ix_base::NoMemory;
use std::alloc::Global;

/// The number of each unit in the index.
pub(crate) fn index_numbers(alloc: Global, units: &[Unit]) -> Result<Vec<u32>, NoMemory>
    requires { length units.now ≤ 16777215 }
    ensures exact { IfOk result (λ v. v.items ≡ map (index_number units.now) (below (length units.now))) }
    ensures small { IfOk result (λ v. All (λ n. n < 16777216) v.items) }
{
    let mut numbers = Vec::with_capacity(alloc, units.len())?;
    let mut next = 0;
    let mut next_type = count_plain(units);
    for unit in units {
        if is_type_unit(unit) {
            numbers.push(next_type)?;
            next_type += 1;
        } else {
            numbers.push(next)?;
            next += 1;
        }
    }
    Ok(numbers)
}

/// How many units aren't type units.
pub(crate) fn count_plain(units: &[Unit]) -> u32
    requires { length units.now ≤ 16777215 }
    ensures { result ≡ count_by (λ u. not (is_type_unit u)) units.now }
{
    let mut count = 0;
    for unit in units {
        if !is_type_unit(unit) {
            count += 1;
        }
    }
    count
}
