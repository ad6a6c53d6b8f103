//! The short texts of replies, and what stands before a name. Each waits in room that is there.

ghost use Rattle.std.specs.Prelude.{◌≡◌, ◌+◌, ◌≤◌, ◌++◌, ◌∷◌, [], None, length, codes, decimal};
ghost use Rattle.index_model.specs.Answers.{InUnit, MainIs, CacheIs};
ghost use Rattle.index_model.specs.Texts.{kind_word, scope_word, way_word, hex, line, text_of_answer, text_of_fault};
ghost use Rattle.query_text.specs.Heads.{head_of};
ghost use Rattle.query_text.specs.Sending.{room};

use crate::waiting::Waiting;
use index_model::{CacheSize, Entry, Kind};
use ix_base::Fault;

/// How long a text of this module is at most.
pub(crate) const SHORT: usize = 96;

/// How many entries were found.
pub(crate) fn push_count(waiting: &mut Waiting, count: u64)
    requires { length waiting.old + 96 ≤ room }
    ensures { waiting.new ≡ waiting.old ++ line (codes "found" ∷ decimal count ∷ []) }
{
    waiting.push(b"found ");
    waiting.push_decimal(count);
    waiting.push(b"\n");
}

/// Unit, offset, tag, kind, scope and way of an entry, each with a space behind it.
pub(crate) fn push_head(waiting: &mut Waiting, entry: &Entry<'_>)
    requires { length waiting.old + 96 ≤ room }
    ensures { waiting.new ≡ waiting.old ++ head_of entry.now }
{
    waiting.push_decimal(u64::from(entry.unit));
    waiting.push(b" ");
    waiting.push_hex(entry.offset);
    waiting.push(b" ");
    waiting.push_hex(u64::from(entry.tag));
    waiting.push(kind_word(entry.kind));
    waiting.push(scope_word(entry.local));
    waiting.push(way_word(entry.linkage));
}

/// The number of a unit, or none.
#[tactic(auto, unfolding(index_model::specs::Texts::text_of_answer))]
pub(crate) fn push_unit(waiting: &mut Waiting, unit: Option<u32>)
    requires { length waiting.old + 96 ≤ room }
    ensures { waiting.new ≡ waiting.old ++ text_of_answer (InUnit unit) }
{
    let Some(unit) = unit else {
        return waiting.push(b"none\n");
    };
    waiting.push(b"unit ");
    waiting.push_decimal(u64::from(unit));
    waiting.push(b"\n");
}

/// What stands before the name of the main program.
pub(crate) fn push_main(waiting: &mut Waiting, language: u16)
    requires { length waiting.old + 96 ≤ room }
    ensures { waiting.new ≡ waiting.old ++ (codes "main " ++ hex language ++ codes " ") }
{
    waiting.push(b"main ");
    waiting.push_hex(u64::from(language));
    waiting.push(b" ");
}

/// That there is no main program.
#[tactic(auto, unfolding(index_model::specs::Texts::text_of_answer))]
pub(crate) fn push_no_main(waiting: &mut Waiting)
    requires { length waiting.old + 96 ≤ room }
    ensures { waiting.new ≡ waiting.old ++ text_of_answer (MainIs None) }
{
    waiting.push(b"none\n");
}

/// The length of an index.
#[tactic(auto, unfolding(index_model::specs::Texts::text_of_answer))]
pub(crate) fn push_size(waiting: &mut Waiting, size: CacheSize)
    requires { length waiting.old + 96 ≤ room }
    ensures { waiting.new ≡ waiting.old ++ text_of_answer (CacheIs size) }
{
    let CacheSize::Bytes(size) = size else {
        return waiting.push(b"too large\n");
    };
    waiting.push(b"cache ");
    waiting.push_decimal(size);
    waiting.push(b"\n");
}

/// The code and the place of a refusal.
#[tactic(auto, unfolding(index_model::specs::Texts::text_of_fault))]
pub(crate) fn push_fault(waiting: &mut Waiting, fault: Fault)
    requires { length waiting.old + 96 ≤ room }
    ensures { waiting.new ≡ waiting.old ++ text_of_fault fault }
{
    waiting.push(b"refused ");
    waiting.push_decimal(u64::from(fault.code));
    waiting.push(b" ");
    waiting.push_hex(fault.at);
    waiting.push(b"\n");
}

// The word of a kind, between spaces.
fn kind_word(kind: Kind) -> &'static [u8]
    ensures word { result.now ≡ codes " " ++ kind_word kind ++ codes " " }
    ensures most { length result.now ≤ 10 }
{
    match kind {
        Kind::TypeName => b" type ",
        Kind::Variable => b" variable ",
        Kind::Function => b" function ",
        Kind::Other => b" other ",
    }
}

/// The word of a scope, and a space.
pub(crate) fn scope_word(local: bool) -> &'static [u8]
    ensures word { result.now ≡ scope_word local ++ codes " " }
    ensures most { length result.now ≤ 7 }
{
    if local { b"static " } else { b"global " }
}

// The word of a way, and a space.
fn way_word(linkage: bool) -> &'static [u8]
    ensures word { result.now ≡ way_word linkage ++ codes " " }
    ensures most { length result.now ≤ 8 }
{
    if linkage { b"linkage " } else { b"name " }
}
