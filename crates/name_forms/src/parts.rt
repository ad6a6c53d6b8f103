//! Whether a name is coded, told in one pass over its bytes.

ghost use Rattle.std.specs.Prelude.{◌≡◌};
ghost use Rattle.name_forms.specs.Coded.{first, further, is_good, part_after};

use crate::pieces::LINE;

/// What stands before a byte of a name.
#[derive(Clone, Copy)]
pub(crate) enum Before {
    /// Nothing, or a `__`: a piece begins.
    Begin,
    /// A letter or a digit of a piece.
    Inside,
    /// One `_` of a piece.
    Line,
}

impl Before {
    // What stands before the next byte; none where no coded name has the byte here.
    fn after(self, b: u8) -> Option<Before>
        ensures { result ≡ part_after self b }
    {
        match self {
            Before::Begin => first(b),
            Before::Inside => {
                if b == LINE {
                    Some(Before::Line)
                } else {
                    further(b)
                }
            }
            Before::Line => {
                if b == LINE {
                    Some(Before::Begin)
                } else {
                    further(b)
                }
            }
        }
    }
}

// A piece begins with a letter.
fn first(b: u8) -> Option<Before>
    ensures { result ≡ first b }
{
    if b.is_ascii_lowercase() {
        Some(Before::Inside)
    } else {
        None
    }
}

// It goes on with letters and digits.
fn further(b: u8) -> Option<Before>
    ensures { result ≡ further b }
{
    if b.is_ascii_lowercase() || b.is_ascii_digit() {
        Some(Before::Inside)
    } else {
        None
    }
}

/// Whether all bytes of a name are good, and all of its pieces: each piece begins with a letter, and none ends with `_`.
pub(crate) fn is_good(name: &[u8]) -> bool
    ensures { result ≡ is_good name.now }
{
    let mut part = Before::Begin;
    for b in name {
        let Some(next) = part.after(*b) else {
            return false;
        };
        part = next;
    }
    matches!(part, Before::Inside)
}
