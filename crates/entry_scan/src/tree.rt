//! The tree of a unit's entries, from a place on.

ghost use Rattle.std.specs.Prelude.{◌≡◌, ◌≤◌, ◌<◌, ◌+◌, ◌^◌, length, false, position, not, ◌==◌, IfSome};
ghost use Rattle.ix_base.specs.Moves.{MovesOn};
ghost use Rattle.index_model.specs.Walk.{is_over, tail_of};

use crate::token::{Levels, Token, UnitAbbrevs};
use ix_base::code::TRAILING_BYTES;
use ix_base::{Cursor, Fault};

/// The tokens of a unit from a place on.
#[derive(Drop)]
pub(crate) struct Tree<'a> {
    pub frame: UnitAbbrevs<'a>,
    pub cursor: Cursor<'a>,
    pub levels: Levels,
}

impl<'a> Tree<'a> {
    ghost use Rattle.entry_scan.specs.Tokens.{levels_seen, joint};
    ghost use Rattle.entry_scan.specs.Ahead.{ahead, GivesNext, FollowsRead};

    // Whether the tree ends here: with the bytes, or where all its levels are closed. It is empty where the first byte
    // is zero.
    pub fn is_over(&self) -> bool
        ensures { result ≡ is_over (levels_seen self.now.levels) self.now.cursor }
    {
        match self.cursor.rest() {
            [] => true,
            [byte, ..] => if self.levels.root {
                self.levels.depth == 0
            } else {
                *byte == 0
            },
        }
    }

    // The fault of the bytes behind the tree: the first that isn't zero.
    #[tactic(auto, unfolding(index_model::specs::Walk::tail_of))]
    pub fn tail_fault(&self) -> Option<Fault>
        requires { self.now.frame.unit.start + self.now.cursor.at + length self.now.cursor.rest < 2 ^ 63 }
        ensures { result ≡ (tail_of (joint self.now.frame.unit.start self.now.cursor)).end }
    {
        let k = first_not_zero(self.cursor.rest())?;
        Some(Fault {
            code: TRAILING_BYTES,
            at: self.frame.offset(&self.cursor) + k as u64,
        })
    }

    /// The token at the place, which is passed.
    #[inline(always)]
    pub fn step(&mut self) -> Result<Token<'a>, Fault>
        requires small { self.old.frame.unit.start + self.old.cursor.at + length self.old.cursor.rest < 2 ^ 63 }
        requires goes_on { is_over (levels_seen self.old.levels) self.old.cursor ≡ false }
        ensures value { GivesNext (ahead self.old) (ahead self.new) result }
        ensures order { FollowsRead (ahead self.new) result }
        ensures frame { self.new.frame ≡ self.old.frame }
        ensures place { MovesOn self.old.cursor self.new.cursor }
    {
        let at = self.frame.offset(&self.cursor);
        match self.frame.token(self.levels, &mut self.cursor) {
            Err(code) => Err(Fault { code, at }),
            Ok(token) => {
                self.levels = self.levels.behind(&token);
                Ok(token)
            }
        }
    }
}

// The index of the first byte that isn't zero.
fn first_not_zero(bytes: &[u8]) -> Option<usize>
    ensures value { result ≡ position (λ b. not (b == 0)) bytes.now }
    ensures inside { IfSome result (λ k. k < length bytes.now) }
{
    bytes.iter().position(|b| *b != 0)
}
