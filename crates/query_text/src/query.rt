//! The lines that ask.

ghost use Rattle.std.specs.Prelude.{◌≡◌, option_map};
ghost use Rattle.index_model.specs.Queries.{query_of, asks_name, AskName, AskSimple};
ghost use Rattle.index_model.specs.Seen.{query_seen};
ghost use Rattle.query_text.specs.Lines.{word_asked, argument_asked};

use crate::hex::hex_number;
use index_model::Query;
use name_quotes::Spelling;

/// A query, and how the names in its reply are written.
#[derive(Clone, Copy)]
pub struct Question<'q> {
    pub query: Query<'q>,
    pub spelling: Spelling,
}

/// What a line asks, without its newline; None exactly where it is a bad query.
#[tactic(auto, using(crate::proofs::LineLaws::by_word, crate::proofs::LineLaws::by_argument), unfolding(index_model::specs::Queries::query_of))]
pub fn parse(line: &[u8]) -> Option<Query<'_>>
    ensures { option_map query_seen result ≡ query_of line.now }
{
    if line.contains(&b'\n') {
        return None;
    }
    match word_asked(line) {
        Some(query) => Some(query),
        None => argument_asked(line),
    }
}

// What a line of one word asks.
fn word_asked(line: &[u8]) -> Option<Query<'static>>
    ensures { option_map query_seen result ≡ word_asked line.now }
{
    if line == b"main".as_slice() {
        return Some(Query::Main);
    }
    if line == b"cache".as_slice() {
        return Some(Query::Cache);
    }
    None
}

// What a line of a word, one space and an argument asks.
fn argument_asked(line: &[u8]) -> Option<Query<'_>>
    ensures { option_map query_seen result ≡ argument_asked line.now }
{
    if let Some(name) = line.strip_prefix(b"name ") {
        return asks_name(name);
    }
    if let Some(name) = line.strip_prefix(b"simple ") {
        return asks_simple(name);
    }
    let digits = line.strip_prefix(b"addr ")?;
    let address = hex_number(digits)?;
    Some(Query::Addr(address))
}

// A name has one byte or more.
fn asks_name(name: &[u8]) -> Option<Query<'_>>
    ensures { option_map query_seen result ≡ asks_name AskName name.now }
{
    if name.is_empty() {
        return None;
    }
    Some(Query::Name(name))
}

// A simple name has one byte or more.
fn asks_simple(name: &[u8]) -> Option<Query<'_>>
    ensures { option_map query_seen result ≡ asks_name AskSimple name.now }
{
    if name.is_empty() {
        return None;
    }
    Some(Query::Simple(name))
}
