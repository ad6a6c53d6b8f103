//! What is left of an Ada name without `_ada_` in front and without a number at the end.

ghost use Rattle.std.specs.Prelude.{◌≡◌, ◌≤◌, length};
ghost use Rattle.index_model.specs.AdaNames.{without_prefix, without_number, before_digits, shortened};

use crate::pieces::CUT;

// Stands before the name of a library-level subprogram.
const PREFIX: &[u8] = b"_ada_";

/// The name without a leading `_ada_`, and then without a final `__` with digits that something stands before.
pub(crate) fn shortened(name: &[u8]) -> &[u8]
    ensures { result.now ≡ shortened name.now }
{
    without_number(without_prefix(name))
}

fn without_prefix(name: &[u8]) -> &[u8]
    ensures { result.now ≡ without_prefix name.now }
{
    match name.strip_prefix(PREFIX) {
        Some(rest) => rest,
        None => name,
    }
}

#[tactic(auto, unfolding(index_model::specs::AdaNames::without_number))]
fn without_number(name: &[u8]) -> &[u8]
    ensures { result.now ≡ without_number name.now }
{
    let stem = before_digits(name);
    if stem.len() < name.len() && stem.ends_with(CUT) && CUT.len() < stem.len() {
        &stem[..stem.len() - CUT.len()]
    } else {
        name
    }
}

// What stands before the digits at the end.
fn before_digits(name: &[u8]) -> &[u8]
    ensures bytes { result.now ≡ before_digits name.now }
    ensures length { length result.now ≤ length name.now }
{
    let mut end = name.len();
    while 0 < end && name[end - 1].is_ascii_digit() {
        end -= 1;
    }
    &name[..end]
}
