//! The pieces of an Ada name between the `__`.

ghost use Rattle.std.specs.Prelude.{◌≡◌, ◌+◌, ◌∷◌, length, MatchOption};
ghost use Rattle.std.specs.Iterator.{YieldsFirstRef, item_count};
ghost use Rattle.index_model.specs.AdaNames.{pieces as pieces_of};
ghost use Rattle.name_forms.specs.Pieces.{left, HasNoCut, IsFirstCut};

use std::marker::Model;

/// Stands between two pieces, and before a number that tells overloaded subprograms apart.
pub(crate) const CUT: &[u8] = b"__";

/// The byte of which a cut is made.
pub(crate) const LINE: u8 = b'_';

/// The pieces that are still to come, from the left. Contracts see them as a list.
#[derive(Drop)]
pub(crate) struct Pieces<'n> {
    rest: Option<&'n [u8]>,
}

impl<'n> Model for Pieces<'n> {
    ghost use Rattle.std.specs.Prelude.{List, ℕ};
    ghost use Rattle.name_forms.specs.Pieces.{left};

    ghost Value = { List (List ℕ) };

    ghost view = { λ p. left p.rest };
}

impl<'n> Pieces<'n> {
    /// All pieces of a name.
    pub fn of(name: &'n [u8]) -> Pieces<'n>
        ensures { result ≡ pieces_of name.now }
    {
        Pieces { rest: Some(name) }
    }
}

impl<'n> Iterator for Pieces<'n> {
    type Item = &'n [u8];

    ghost next_gives = { YieldsFirstRef (λ pieces. pieces) };

    ghost remaining = { item_count (λ pieces. pieces) };

    fn next(&mut self) -> Option<&'n [u8]> {
        let (piece, rest) = first_piece(self.rest?);
        self.rest = rest;
        Some(piece)
    }
}

// The first piece, and what stands behind the `__` that ends it.
fn first_piece(name: &[u8]) -> (&[u8], Option<&[u8]>)
    ensures { pieces_of name.now ≡ result.0.now ∷ left result.1 }
{
    match first_cut(name) {
        Some(at) => (&name[..at], Some(&name[at + CUT.len()..])),
        None => (name, None),
    }
}

// Where the first `__` begins. Pieces are short, so it is looked for byte by byte: a search that prepares itself for its
// text costs more than the piece.
fn first_cut(name: &[u8]) -> Option<usize>
    ensures { MatchOption result (HasNoCut name.now) (IsFirstCut name.now) }
{
    for second in 1..name.len() {
        if name[second - 1] == LINE && name[second] == LINE {
            return Some(second - 1);
        }
    }
    None
}
