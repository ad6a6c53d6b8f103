//! The reply by published parts.

ghost use Rattle.std.specs.Prelude.{◌≡◌, ◌<◌, ◌≤◌, option_map};
ghost use Rattle.index_model.specs.Parts.{answer_by, reply_by};
ghost use Rattle.index_model.specs.Queries.{need_of};
ghost use Rattle.index_model.specs.Stages.{cache_written};
ghost use Rattle.index_model.specs.Seen.{answer_seen, query_seen, reply_seen};
ghost use Rattle.stage_core.specs.Outputs.{cache_seen, parts_seen, summary_seen};
ghost use Rattle.index_model.specs.Cache.{size_of};
ghost use Rattle.index_board.specs.Kept.{answers};
ghost use Rattle.index_model.specs.Answers.{CacheIs, Entries, MainIs, places, is_named, is_simply_named};

use index_model::{Answer, CacheSize, Hits, MainName, Query, Reply, Steps};
use query_engine::Table;
use stage_core::{Cache, Parts, Summary};
use std::marker::Brand;
use std::sync::ledger::{Blank, Ledger};

/// The reply to a query at a stage by these parts; None where the part that it needs isn't among them. Takes no memory.
pub(crate) fn reply<'r>(parts: &'r Parts<'_>, query: &Query<'_>, stage: u8) -> Option<Reply<'r>>
    ensures { option_map reply_seen result ≡ reply_by (parts_seen parts.now) (query_seen query.now) stage }
{
    if stage < need_of(query) {
        return Some(Reply::Pending);
    }
    match stage {
        0..=3 => match answer(parts, query) {
            Some(answer) => Some(Reply::Answer(answer)),
            None => None,
        },
        4 => match parts.fault {
            Some(fault) => Some(Reply::Refused(fault)),
            None => None,
        },
        _ => Some(Reply::Stopped),
    }
}

/// Whether these parts answer the query, once the stage is the one that it needs. A file with a fault has no other answer.
pub(crate) fn answers(parts: &Parts<'_>, query: &Query<'_>) -> bool
    ensures { result ≡ answers (parts_seen parts.now) (query_seen query.now) }
{
    parts.fault.is_some() || answer(parts, query).is_some()
}

/// The stage at which a query is answered: at an earlier one its reply is `Pending`.
pub fn need_of(query: &Query<'_>) -> u8
    ensures need { result ≡ need_of (query_seen query.now) }
    ensures range { result ≤ cache_written }
{
    match query {
        Query::Addr(_) | Query::Main => 1,
        Query::Name(_) | Query::Simple(_) => 2,
        Query::Cache => 3,
    }
}

fn answer<'r>(parts: &'r Parts<'_>, query: &Query<'_>) -> Option<Answer<'r>>
    ensures { option_map answer_seen result ≡ answer_by (parts_seen parts.now) (query_seen query.now) }
{
    match query {
        Query::Name(name) => Some(named(parts.table.as_ref()?, name)),
        Query::Simple(name) => Some(simply_named(parts.table.as_ref()?, name)),
        Query::Addr(address) => {
            let summary = parts.summary.as_ref()?;
            Some(Answer::Unit(summary.map.unit_at(*address)))
        }
        Query::Main => Some(main(parts.summary.as_ref()?)),
        Query::Cache => Some(size(parts.cache.as_ref()?)),
    }
}

// All entries with this name.
fn named<'r>(table: &'r Table<'_>, name: &[u8]) -> Answer<'r>
    ensures { answer_seen result ≡ Entries table.now (places (is_named name.now) table.now) }
{
    let places = counted_by_name::<Brand>(table, name, Blank::new(1));
    Answer::Entries(Hits {
        entries: table.entries(),
        places,
    })
}

// All entries with this simple name.
fn simply_named<'r>(table: &'r Table<'_>, name: &[u8]) -> Answer<'r>
    ensures { answer_seen result ≡ Entries table.now (places (is_simply_named name.now) table.now) }
{
    let places = counted_by_simple::<Brand>(table, name, Blank::new(1));
    Answer::Entries(Hits {
        entries: table.entries(),
        places,
    })
}

// The steps that the look-up takes are counted on a ledger of its own.
fn counted_by_name<'r, L: Ledger>(table: &'r Table<'_>, name: &[u8], blank: Blank) -> &'r [u32]
    requires name { blank.name ≡ L.name }
    requires parts { blank.parts ≡ L.parts }
    requires some { 0 < blank.parts }
    ensures { result.now ≡ places (is_named name.now) table.now }
{
    let mut steps: Steps<L> = Steps::new(blank);
    table.by_name(name, &mut steps)
}

fn counted_by_simple<'r, L: Ledger>(table: &'r Table<'_>, name: &[u8], blank: Blank) -> &'r [u32]
    requires name { blank.name ≡ L.name }
    requires parts { blank.parts ≡ L.parts }
    requires some { 0 < blank.parts }
    ensures { result.now ≡ places (is_simply_named name.now) table.now }
{
    let mut steps: Steps<L> = Steps::new(blank);
    table.by_simple(name, &mut steps)
}

// The main program.
fn main<'r>(summary: &'r Summary<'_>) -> Answer<'r>
    ensures { answer_seen result ≡ MainIs (summary_seen summary.now).main }
{
    match &summary.main {
        Some(main) => Answer::Main(Some(MainName {
            language: main.language,
            name: main.name.bytes(),
        })),
        None => Answer::Main(None),
    }
}

// How many bytes the index has.
fn size<'r>(cache: &'r Cache) -> Answer<'r>
    ensures { answer_seen result ≡ CacheIs (size_of (cache_seen cache.now)) }
{
    Answer::Cache(match cache {
        Cache::Gdb(bytes) => CacheSize::Bytes(bytes.as_slice().len() as u64),
        Cache::Names(names, _) => CacheSize::Bytes(names.as_slice().len() as u64),
        Cache::TooLarge => CacheSize::TooLarge,
    })
}
