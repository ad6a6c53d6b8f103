//! The line of a query.

ghost use Rattle.std.specs.Prelude.{◌≡◌, IfOk, Some, option_map};
ghost use Rattle.std.specs.Option.{ForSome};
ghost use Rattle.index_model.specs.Seen.{query_seen};
ghost use Rattle.command_words.specs.Words.{query_text};
ghost use Rattle.command_base.specs.GdbLooks.{offer_gdb};
ghost use Rattle.index_cmd.specs.Requests.{offered_gdb, offered_name};
ghost use Rattle.command_words.specs.SeenWords.{words_of};

use index_model::Query;
use ix_base::NoMemory;
use query_text::parse;
use std::alloc::Global;

/// The words of a query, joined by one space each.
pub(crate) fn query_line(alloc: Global, words: &[String]) -> Result<Vec<u8>, NoMemory>
    ensures { IfOk result (λ text. text.items ≡ query_text (words_of words.now)) }
{
    let mut text = Vec::new(alloc);
    for (i, word) in words.iter().enumerate() {
        if i > 0 {
            text.push(b' ')?;
        }
        text.extend_from_slice(word.as_bytes())?;
    }
    Ok(text)
}

/// The query of a line that a `.gdb_index` answers, of a name, an address or main; None where it is another or a bad query.
pub(crate) fn offered_gdb(line: &[u8]) -> Option<Query<'_>>
    ensures value { option_map query_seen result ≡ offered_gdb line.now }
    ensures offered { ForSome result (λ q. offer_gdb (query_seen q) ≡ Some (query_seen q)) }
{
    match parse(line)? {
        Query::Simple(_) | Query::Cache => None,
        query => Some(query),
    }
}

/// The name that a line asks for, which alone a `.debug_names` answers; None where it is another or a bad query.
pub(crate) fn offered_name(line: &[u8]) -> Option<&[u8]>
    ensures { option_map (λ name. name.now) result ≡ offered_name line.now }
{
    match parse(line)? {
        Query::Name(name) => Some(name),
        Query::Simple(_) | Query::Addr(_) | Query::Main | Query::Cache => None,
    }
}
