//! The walk over the entries of a unit.

ghost use Rattle.std.specs.Prelude.{◌≡◌, ◌≤◌, ◌<◌, ◌+◌, ◌^◌, length, drop};

use crate::abbreviations::Abbrevs;
use crate::item::Item;
use crate::token::{Levels, Token, UnitAbbrevs};
use crate::tree::Tree;
use index_model::{Span, Unit};
use ix_base::{Cursor, Fault};
use std::marker::Model;

/// The entries of a unit that are still to come. Contracts see the tokens that are still to come, and how they end.
#[derive(Drop)]
pub struct Walk<'a> {
    tree: Tree<'a>,
    fault: Option<Fault>,
}

impl<'a> Model for Walk<'a> {
    ghost use Rattle.std.specs.Prelude.{◌+◌, ◌<◌, ◌^◌, length};
    ghost use Rattle.index_model.specs.Walk.{Walk as Tokens};

    ghost Value = { Tokens };

    ghost use Rattle.entry_scan.specs.Ahead.{ahead, unless_stopped};

    ghost view = { λ w. unless_stopped w.fault (ahead w.tree) };

    ghost invariant = { λ w. w.tree.frame.unit.start + w.tree.cursor.at + length w.tree.cursor.rest < 2 ^ 63 };
}

impl<'a> Walk<'a> {
    ghost use Rattle.index_model.specs.Walk.{walk_of};
    ghost use Rattle.entry_scan.specs.Ahead.{GivesToken, GivesItem, FollowsToken, FollowsItem};
    ghost use Rattle.entry_scan.specs.Inside.{inside_of};

    /// The entries of a unit. `bytes` are the unit's own, from its first byte to its end, and `abbrevs` are those at its
    /// abbreviation offset.
    pub fn new(bytes: &'a [u8], unit: &Unit, abbrevs: &'a Abbrevs) -> Walk<'a>
        requires header { unit.now.body ≤ length bytes.now }
        requires small { unit.now.start + length bytes.now < 2 ^ 63 }
        ensures { result ≡ walk_of unit.now abbrevs.now (record { at = unit.now.start + unit.now.body; rest = drop unit.now.body bytes.now }) }
    {
        let levels = Levels {
            root: false,
            depth: 0,
        };
        let frame = UnitAbbrevs {
            unit: *unit,
            abbrevs,
        };
        let cursor = Cursor::new(bytes, unit.body as usize);
        Walk {
            tree: Tree {
                frame,
                cursor,
                levels,
            },
            fault: None,
        }
    }

    // The entries from the place on where a span begins, one level below the entry of the span.
    pub(crate) fn inside(
        bytes: &'a [u8],
        unit: &Unit,
        abbrevs: &'a Abbrevs,
        span: &Span,
    ) -> Walk<'a>
        requires begins { unit.now.start ≤ span.now.from }
        requires ends { span.now.from ≤ unit.now.start + length bytes.now }
        requires deep { span.now.depth ≤ 1024 }
        requires small { unit.now.start + length bytes.now < 2 ^ 63 }
        ensures { result ≡ inside_of unit.now abbrevs.now bytes.now span.now }
    {
        let levels = Levels {
            root: true,
            depth: span.depth + 1,
        };
        let frame = UnitAbbrevs {
            unit: *unit,
            abbrevs,
        };
        let cursor = Cursor::new(bytes, (span.from - unit.start) as usize);
        Walk {
            tree: Tree {
                frame,
                cursor,
                levels,
            },
            fault: None,
        }
    }

    /// The next entry, or None at the unit's end. Behind the root's tree only zeros may stand.
    ///
    /// After a fault each call gives it again, and after None each call gives None.
    pub fn next(&mut self) -> Result<Option<Item<'a>>, Fault>
        ensures value { GivesItem self.old self.new result }
        ensures order { FollowsItem self.new result }
    {
        loop {
            match self.token() {
                Err(fault) => return Err(fault),
                Ok(None) => return Ok(None),
                Ok(Some(Token::Entry(item))) => return Ok(Some(item)),
                Ok(Some(Token::Null { .. })) => {}
            }
        }
    }

    /// The next entry or null, or None at the unit's end, else as `next`. It stands where it is called, so that a token needn't be
    /// written into memory before it is looked at.
    #[inline(always)]
    pub fn token(&mut self) -> Result<Option<Token<'a>>, Fault>
        ensures value { GivesToken self.old self.new result }
        ensures order { FollowsToken self.new result }
    {
        if let Some(fault) = self.fault {
            return Err(fault);
        }
        if self.tree.is_over() {
            if let Some(fault) = self.tree.tail_fault() {
                return Err(fault);
            }
            return Ok(None);
        }
        match self.tree.step() {
            Ok(token) => Ok(Some(token)),
            Err(fault) => {
                self.fault = Some(fault);
                Err(fault)
            }
        }
    }
}
