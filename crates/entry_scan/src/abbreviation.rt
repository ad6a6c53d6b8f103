//! The parts of a table, read one after the other.

ghost use Rattle.std.specs.Prelude.{◌≡◌, ◌≤◌, length, map, drop, All, OnOk, IfOk};
ghost use Rattle.ix_base.specs.Moves.{Reads};
ghost use Rattle.index_model.specs.Abbreviations.{is_end, spec_at, specs_at, abbrev_with, table};
ghost use Rattle.entry_scan.specs.GivesTable.{GivesOrFails, AddsOrFails};
ghost use Rattle.entry_scan.specs.SeenAbbreviations.{spec_seen};
ghost use Rattle.entry_scan.specs.AbbreviationTables.{head_seen, heads_seen, IsWithin, IsSplit, Extends};

use crate::jumps::Jumps;
use crate::marks::AttributeBits;
use crate::sizes::{Front, front_of};
use dwarf_codes::form::DW_FORM_implicit_const;
use ix_base::{Cursor, OrMemory};
use std::alloc::Global;

/// An attribute and its form.
#[derive(Clone, Copy, Debug, PartialEq, Eq)]
pub struct Spec {
    pub attribute: u64,
    pub form: u64,
    /// The value of form implicit_const, which stands in the table. It is 0 for other forms.
    pub constant: i64,
}

impl Spec {
    // (0, 0) ends the attributes of an abbreviation.
    fn is_end(&self) -> bool
        ensures { result ≡ is_end (spec_seen self.now) }
    {
        self.attribute == 0 && self.form == 0
    }
}

/// There is no table: the offset lies past the section, the bytes end before code 0, or a LEB128 number is too large.
#[derive(Clone, Copy, Debug, PartialEq, Eq)]
pub struct Damaged;

// What stands of an abbreviation before its attributes, and which of all attributes are its own.
#[derive(Clone, Copy)]
pub(crate) struct AbbrevHead {
    pub(crate) code: u64,
    pub(crate) tag: u64,
    pub(crate) start: usize,
    pub(crate) end: usize,
    pub(crate) front: Front,
    pub(crate) marks: AttributeBits,
    pub(crate) jumps: Jumps,
    pub(crate) children: bool,
}

// Where the head of a code stands.
#[derive(Clone, Copy, PartialEq, Eq, PartialOrd, Ord)]
pub(crate) struct CodeIndex {
    pub(crate) code: u64,
    pub(crate) index: usize,
}

// The abbreviations that were read so far, in the order in which they stand in the table.
#[derive(Drop)]
pub(crate) struct AbbrevsSoFar {
    pub(crate) heads: Vec<AbbrevHead>,
    // The attributes of all heads, one head's after another's.
    pub(crate) specs: Vec<Spec>,
    // The places of the heads behind those at the front that have the codes 1, 2, 3 and so on.
    pub(crate) others: Vec<CodeIndex>,
}

// The attribute and the form at the cursor, with the value of implicit_const.
#[tactic(auto, unfolding(index_model::specs::Abbreviations::spec_at))]
fn read_spec(cursor: &mut Cursor<'_>) -> Option<Spec>
    ensures { Reads spec_seen spec_at cursor.old cursor.new result }
{
    let attribute = cursor.uleb()?;
    let form = cursor.uleb()?;
    let constant = if form == DW_FORM_implicit_const {
        cursor.sleb()?
    } else {
        0
    };
    Some(Spec {
        attribute,
        form,
        constant,
    })
}

// Adds the attributes up to (0, 0).
fn read_specs(specs: &mut Vec<Spec>, cursor: &mut Cursor<'_>) -> Result<(), OrMemory<Damaged>>
    ensures kept { Extends specs.old.items specs.new.items }
    ensures value { GivesOrFails (λ _. (map spec_seen (drop (length specs.old.items) specs.new.items), cursor.new)) result (specs_at (length cursor.old.rest) cursor.old) }
{
    // There are fewer attributes than bytes.
    'attributes: for _ in 0..cursor.rest().len() {
        let spec = read_spec(cursor).ok_or(OrMemory::Cause(Damaged))?;
        if spec.is_end() {
            return Ok(());
        }
        specs.push(spec)?;
    }
    Err(OrMemory::Cause(Damaged))
}

// The head of the abbreviation of a code, whose attributes are added to those of the others.
#[tactic(auto, unfolding(index_model::specs::Abbreviations::abbrev_with))]
fn read_head(
    code: u64,
    specs: &mut Vec<Spec>,
    cursor: &mut Cursor<'_>,
) -> Result<AbbrevHead, OrMemory<Damaged>>
    ensures kept { Extends specs.old.items specs.new.items }
    ensures within { IfOk result (λ h. IsWithin specs.new.items h) }
    ensures code { IfOk result (λ h. h.code ≡ code) }
    ensures value { GivesOrFails (λ h. (head_seen specs.new.items h, cursor.new)) result (abbrev_with code cursor.old) }
{
    let tag = cursor.uleb().ok_or(OrMemory::Cause(Damaged))?;
    let children = cursor.u8().ok_or(OrMemory::Cause(Damaged))? != 0;
    let start = specs.len();
    read_specs(specs, cursor)?;
    let end = specs.len();
    Ok(AbbrevHead {
        code,
        tag,
        start,
        end,
        front: front_of(&specs[start..end]),
        marks: AttributeBits::of(&specs[start..end]),
        jumps: Jumps::of(&specs[start..end]),
        children,
    })
}

// Adds the abbreviation of a code, which stands at the cursor.
fn read_abbrev(
    code: u64,
    parts: &mut AbbrevsSoFar,
    cursor: &mut Cursor<'_>,
) -> Result<(), OrMemory<Damaged>>
    requires within { All (IsWithin parts.old.specs.items) parts.old.heads.items }
    requires split { IsSplit parts.old.heads.items parts.old.others.items }
    ensures within { OnOk result (All (IsWithin parts.new.specs.items) parts.new.heads.items) }
    ensures split { OnOk result (IsSplit parts.new.heads.items parts.new.others.items) }
    ensures value { AddsOrFails (heads_seen parts.old.specs.items parts.old.heads.items) (heads_seen parts.new.specs.items parts.new.heads.items) cursor.new result (abbrev_with code cursor.old) }
{
    let head = read_head(code, &mut parts.specs, cursor)?;
    let index = parts.heads.len();
    if !parts.others.is_empty() || code != index as u64 + 1 {
        parts.others.push(CodeIndex { code, index })?;
    }
    parts.heads.push(head)?;
    Ok(())
}

// The abbreviations up to code 0.
pub(crate) fn read_parts(
    alloc: Global,
    bytes: &[u8],
    at: usize,
) -> Result<AbbrevsSoFar, OrMemory<Damaged>>
    requires { at ≤ length bytes.now }
    ensures within { IfOk result (λ p. All (IsWithin p.specs.items) p.heads.items) }
    ensures split { IfOk result (λ p. IsSplit p.heads.items p.others.items) }
    ensures value { GivesOrFails (λ p. heads_seen p.specs.items p.heads.items) result (table bytes.now at) }
{
    let mut cursor = Cursor::new(bytes, at);
    let mut parts = AbbrevsSoFar {
        heads: Vec::new(alloc),
        specs: Vec::new(alloc),
        others: Vec::new(alloc),
    };
    // There are fewer abbreviations than bytes.
    'abbreviations: for _ in 0..bytes.len() {
        let code = cursor.uleb().ok_or(OrMemory::Cause(Damaged))?;
        if code == 0 {
            return Ok(parts);
        }
        read_abbrev(code, &mut parts, &mut cursor)?;
    }
    Err(OrMemory::Cause(Damaged))
}
