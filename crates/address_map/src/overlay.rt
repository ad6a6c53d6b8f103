//! The pieces of ranges, by halves: the pieces of the ranges in front are laid over those of the ranges behind them.
//!
//! Each merge is one pass, so n ranges cost n log n whatever their overlaps. Ranges that ascend cost one pass.

ghost use Rattle.std.specs.Prelude.{◌≡◌, ◌<◌, ◌≤◌, ◌↔◌, ◌∷◌, ◌++◌, length, IsTrue, IfOk, OnOk};
ghost use Rattle.std.specs.Bool.{OnFalse};
ghost use Rattle.index_model.specs.Pieces.{AreApart, IsPieces};
ghost use Rattle.address_map.specs.Overlay.{EndsBy, IsAscending, IsFilled, IsFollowed, IsLeft, part_of};

use index_model::{Range, UnitRange};
use ix_base::NoMemory;
use std::alloc::Global;

// The pieces of ranges that stand in section order.
pub(crate) fn overlay(alloc: Global, ranges: &[UnitRange]) -> Result<Vec<UnitRange>, NoMemory>
    ensures { IfOk result (λ ps. IsPieces ranges.now ps.items) }
{
    if is_ascending(ranges) {
        return join(alloc, ranges);
    }
    let (front, behind) = ranges.split_at(ranges.len() / 2);
    let first = overlay(alloc, front)?;
    let second = overlay(alloc, behind)?;
    over(alloc, &first, &second)
}

// Whether each range begins where those before it have ended, or behind it, as where a linker has put the units in order.
fn is_ascending(ranges: &[UnitRange]) -> bool
    ensures ascending { IsTrue result ↔ IsAscending 0 ranges.now }
    ensures two { OnFalse result (1 < length ranges.now) }
{
    let mut from = 0;
    'pass: for range in ranges {
        if range.range.low < from {
            return false;
        }
        from = range.range.low.max(range.range.end);
    }
    true
}

// The pieces of ascending ranges.
fn join(alloc: Global, ranges: &[UnitRange]) -> Result<Vec<UnitRange>, NoMemory>
    requires { IsAscending 0 ranges.now }
    ensures { IfOk result (λ ps. IsPieces ranges.now ps.items) }
{
    let mut pieces = Vec::with_capacity(alloc, ranges.len())?;
    'pass: for range in ranges {
        add(&mut pieces, *range)?;
    }
    Ok(pieces)
}

// The pieces of two lists of pieces, of which the first wins where both have a unit.
fn over(
    alloc: Global,
    first: &[UnitRange],
    second: &[UnitRange],
) -> Result<Vec<UnitRange>, NoMemory>
    requires first { AreApart first.now }
    requires second { AreApart second.now }
    ensures { IfOk result (λ ps. IsPieces (first.now ++ second.now) ps.items) }
{
    // Each piece of the first can cut one of the second in two.
    let room = first.len().saturating_mul(2).saturating_add(second.len());
    let mut pieces = Vec::with_capacity(alloc, room)?;
    let mut rest = second;
    let mut from = 0;
    'first: for piece in first {
        let gap = Range {
            low: from,
            end: piece.range.low,
        };
        rest = fill(&mut pieces, rest, gap)?;
        add(&mut pieces, *piece)?;
        from = piece.range.end;
    }
    follow(&mut pieces, rest, from)?;
    Ok(pieces)
}

// Adds what others have in a gap behind the pieces, and answers those of the others that go on behind the gap.
fn fill<'p>(
    pieces: &mut Vec<UnitRange>,
    others: &'p [UnitRange],
    gap: Range,
) -> Result<&'p [UnitRange], NoMemory>
    requires apart { AreApart pieces.old.items }
    requires others { AreApart others.now }
    requires gap { gap.low ≤ gap.end }
    requires behind { EndsBy gap.low pieces.old.items }
    ensures filled { OnOk result (IsFilled gap pieces.old.items others.now pieces.new.items) }
    ensures left { IfOk result (λ left. IsLeft gap.end others.now left.now) }
{
    'others: for (count, other) in others.iter().enumerate() {
        if gap.end <= other.range.low {
            return Ok(&others[count..]);
        }
        add(pieces, part(other, gap))?;
        if gap.end < other.range.end {
            return Ok(&others[count..]);
        }
    }
    Ok(&[])
}

// Adds what others have from an address on, behind the pieces.
fn follow(pieces: &mut Vec<UnitRange>, others: &[UnitRange], from: u64) -> Result<(), NoMemory>
    requires apart { AreApart pieces.old.items }
    requires others { AreApart others.now }
    requires behind { EndsBy from pieces.old.items }
    ensures { OnOk result (IsFollowed from pieces.old.items others.now pieces.new.items) }
{
    'others: for other in others {
        let gap = Range {
            low: from,
            end: other.range.end,
        };
        add(pieces, part(other, gap))?;
    }
    Ok(())
}

// The part of a piece that lies in the gap.
fn part(piece: &UnitRange, gap: Range) -> UnitRange
    ensures { result ≡ part_of piece.now gap }
{
    UnitRange {
        unit: piece.unit,
        range: Range {
            low: piece.range.low.max(gap.low),
            end: piece.range.end.min(gap.end),
        },
    }
}

// Adds a piece behind the others, unless it has no address. If the last touches it and has its unit, the two are one.
fn add(pieces: &mut Vec<UnitRange>, piece: UnitRange) -> Result<(), NoMemory>
    requires apart { AreApart pieces.old.items }
    requires behind { EndsBy piece.range.low pieces.old.items }
    ensures { OnOk result (IsPieces (piece ∷ pieces.old.items) pieces.new.items) }
{
    if piece.range.end <= piece.range.low {
        return Ok(());
    }
    if let Some(last) = pieces.last_mut() {
        if last.unit == piece.unit && last.range.end == piece.range.low {
            last.range.end = piece.range.end;
            return Ok(());
        }
    }
    pieces.push(piece)?;
    Ok(())
}
