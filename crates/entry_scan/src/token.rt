//! What stands at a place of a unit: an entry or a null.

ghost use Rattle.std.specs.Prelude.{◌≡◌, ◌<◌, ◌≤◌, ◌+◌, ◌^◌, length, IfOk, ◌||◌, ◌&&◌, ◌==◌};
ghost use Rattle.ix_base.specs.Moves.{MovesOn};
ghost use Rattle.index_model.specs.Gives.{GivesAlways};
ghost use Rattle.index_model.specs.Tags.{is_root_tag};
ghost use Rattle.entry_scan.specs.Fronts.{IsFront};
ghost use Rattle.entry_scan.specs.Marks.{AreMarks};
ghost use Rattle.entry_scan.specs.Jumps.{AreJumps};

use crate::abbreviations::{Abbrevs, Shape};
use crate::item::Item;
use crate::values::{UnitFormat, pass_all};
use crate::written::Written;
use dwarf_codes::tag::{
    DW_TAG_compile_unit, DW_TAG_partial_unit, DW_TAG_skeleton_unit, DW_TAG_type_unit,
};
use index_model::Unit;
use ix_base::code::{BAD_CODE, BAD_ROOT, DEPTH, TRUNCATED};
use ix_base::{Cursor, MAX_DEPTH};

/// What stands at a place of a unit's tree.
#[derive(Drop)]
pub enum Token<'a> {
    /// A code 0, which ends the children of the innermost open entry.
    Null {
        /// The depth of the children that it ends.
        depth: u32,
        /// The joint offset of the first byte behind it.
        after: u64,
    },
    /// An entry.
    Entry(Item<'a>),
}

/// Where in the tree a place stands.
#[derive(Clone, Copy)]
pub(crate) struct Levels {
    /// Whether the root was read.
    pub root: bool,
    /// How many levels are open.
    pub depth: u32,
}

impl Levels {
    ghost use Rattle.index_model.specs.WalkLeft.{levels_after};
    ghost use Rattle.entry_scan.specs.Tokens.{token_seen, levels_seen, OnEntry};

    // The levels behind a token: a null closes one, and an entry with children opens one.
    pub fn behind(self, token: &Token<'_>) -> Levels
        requires { OnEntry token.now (self.depth ≤ 1024) }
        ensures { levels_seen result ≡ levels_after (levels_seen self) (token_seen token.now) }
    {
        let depth = match token {
            Token::Null { .. } => self.depth.saturating_sub(1),
            Token::Entry(item) => if item.children() {
                self.depth + 1
            } else {
                self.depth
            },
        };
        Levels { root: true, depth }
    }
}

/// A unit and its abbreviations.
#[derive(Clone, Copy)]
pub(crate) struct UnitAbbrevs<'a> {
    pub unit: Unit,
    pub abbrevs: &'a Abbrevs,
}

impl<'a> UnitAbbrevs<'a> {
    ghost use Rattle.index_model.specs.Walk.{token_at, entry_at};
    ghost use Rattle.entry_scan.specs.SeenAbbreviations.{abbrev_seen};
    ghost use Rattle.entry_scan.specs.Tokens.{token_seen, levels_seen, joint, OnEntry};

    /// The joint offset of the cursor's place.
    pub fn offset(&self, cursor: &Cursor<'a>) -> u64
        requires { self.now.unit.start + cursor.now.at < 2 ^ 63 }
        ensures { result ≡ self.now.unit.start + cursor.now.at }
    {
        self.unit.start + cursor.at() as u64
    }

    /// The token at the cursor. The error is the code of the fault at its place.
    #[inline(always)]
    pub fn token(&self, levels: Levels, cursor: &mut Cursor<'a>) -> Result<Token<'a>, u8>
        requires small { self.now.unit.start + cursor.old.at + length cursor.old.rest < 2 ^ 63 }
        ensures value { GivesAlways (λ t. (token_seen t, joint self.now.unit.start cursor.new)) result
            (token_at self.now.unit self.now.abbrevs.now (levels_seen levels) (joint self.now.unit.start cursor.old)) }
        ensures place { MovesOn cursor.old cursor.new }
        ensures shallow { IfOk result (λ t. OnEntry t (levels.depth ≤ 1024)) }
    {
        let at = self.offset(cursor);
        let Some(code) = cursor.uleb() else {
            return Err(TRUNCATED);
        };
        if is_null(levels.root, code) {
            return Ok(Token::Null {
                depth: levels.depth,
                after: self.offset(cursor),
            });
        }
        let Some(shape) = self.abbrevs.shape(code) else {
            return Err(BAD_CODE);
        };
        self.entry(levels, at, shape, cursor)
    }

    // The entry at a place whose abbreviation is known. The values of its attributes begin at the cursor.
    #[inline(always)]
    fn entry(
        &self,
        levels: Levels,
        at: u64,
        shape: Shape<'a>,
        cursor: &mut Cursor<'a>,
    ) -> Result<Token<'a>, u8>
        requires place { at < 2 ^ 63 }
        requires front { IsFront shape.abbrev.specs.now shape.front }
        requires marks { AreMarks shape.abbrev.specs.now shape.marks }
        requires jumps { AreJumps shape.abbrev.specs.now shape.jumps.now }
        requires small { self.now.unit.start + cursor.old.at + length cursor.old.rest < 2 ^ 63 }
        ensures value { GivesAlways (λ t. (token_seen t, joint self.now.unit.start cursor.new)) result
            (entry_at self.now.unit self.now.abbrevs.now (levels_seen levels) at (abbrev_seen 0 shape.entry.abbrev) (joint self.now.unit.start cursor.old)) }
        ensures place { MovesOn cursor.old cursor.new }
        ensures shallow { IfOk result (λ t. OnEntry t (levels.depth ≤ 1024)) }
    {
        if levels.depth > MAX_DEPTH {
            return Err(DEPTH);
        }
        let Shape {
            abbrev,
            front,
            marks,
            jumps,
        } = shape;
        if !may_stand(levels.root, abbrev.tag) {
            return Err(BAD_ROOT);
        }
        let format = UnitFormat {
            version: self.unit.version,
            wide: self.unit.wide,
        };
        let begin = cursor.copied();
        if let Err(code) = pass_all(abbrev.specs, front, format, cursor) {
            return Err(code);
        }
        Ok(Token::Entry(Item {
            at,
            after: self.offset(cursor),
            depth: levels.depth,
            children: abbrev.children,
            tag: abbrev.tag,
            marks,
            values: Written {
                specs: abbrev.specs,
                jumps,
                cursor: begin,
                format,
            },
        }))
    }
}

// Whether the code is a null: code 0, but in the root's place.
fn is_null(root: bool, code: u64) -> bool
    ensures { result ≡ (code == 0 && root) }
{
    code == 0 && root
}

// Whether an entry of the tag may stand here: the root is a compile_unit, partial_unit, type_unit or skeleton_unit.
fn may_stand(root: bool, tag: u64) -> bool
    ensures { result ≡ (root || is_root_tag tag) }
{
    root || matches!(
        tag,
        DW_TAG_compile_unit | DW_TAG_partial_unit | DW_TAG_type_unit | DW_TAG_skeleton_unit
    )
}
