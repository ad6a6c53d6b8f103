//! The words of the command that answers from an index that is kept by the build-id of its program.

ghost use Rattle.std.specs.Prelude.{◌≡◌, option_map};
ghost use Rattle.std.specs.Option.{ForSome};
ghost use Rattle.command_words.specs.KeptWords.{kept_of, store_and_query};
ghost use Rattle.command_words.specs.SeenWords.{seen_cached, words_of, IsWorkers};

use crate::options::{Quoting, split_quoting, split_two_files, split_workers};
use name_quotes::Spelling;

/// `cached [--workers N] [--quote] FILE STORE QUERY`.
#[derive(Clone, Copy)]
pub struct Cached<'w> {
    pub workers: u32,
    pub spelling: Spelling,
    pub file: &'w str,
    /// What stands before the names of kept indexes.
    pub store: &'w str,
    /// The words of the query, one at least.
    pub query: &'w [String],
}

pub(crate) fn parse_cached(words: &[String]) -> Option<Cached<'_>>
    ensures value { option_map seen_cached result ≡ kept_of (words_of words.now) }
    ensures workers { ForSome result (λ c. IsWorkers c.workers) }
{
    let workers = split_workers(words)?;
    let Quoting { spelling, others } = split_quoting(workers.others);
    store_and_query(workers.number, spelling, others)
}

// A file's name, that of a store, and a query.
fn store_and_query(workers: u32, spelling: Spelling, words: &[String]) -> Option<Cached<'_>>
    requires { IsWorkers workers }
    ensures value { option_map seen_cached result ≡ store_and_query workers spelling (words_of words.now) }
    ensures workers { ForSome result (λ c. IsWorkers c.workers) }
{
    let names = split_two_files(words)?;
    if names.others.is_empty() {
        return None;
    }
    Some(Cached {
        workers,
        spelling,
        file: names.first,
        store: names.second,
        query: names.others,
    })
}
