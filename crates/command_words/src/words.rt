//! The words of a command line.

ghost use Rattle.std.specs.Prelude.{◌≡◌, option_map};
ghost use Rattle.std.specs.Option.{ForSome};
ghost use Rattle.command_words.specs.Words.{about, ask_of, command_of, file_and_query, index_and_query, look_gdb_of, look_names_of, longer_command, look_of, names_and_query, other_command, session_command, table_command};
ghost use Rattle.command_words.specs.SeenWords.{seen_ask, seen_look, seen_names, seen_command, words_of, HasWorkers, IsWorkers};

use crate::drill_words::{Drill, parse_drill};
use crate::index_words::{Index, parse_index};
use crate::kept_words::{Cached, parse_cached};
use crate::options::{
    Named, Quoting, split_base, split_file, split_quoting, split_two_files, split_workers,
};
use crate::session_words::{Race, Serve, parse_race, parse_serve};
use crate::table_words::{Aranges, Files, parse_aranges, parse_files};
use name_quotes::Spelling;

/// What a command line asks for.
#[derive(Clone, Copy)]
pub enum Command<'w> {
    Help,
    Version,
    Ask(Ask<'w>),
    Index(Index<'w>),
    Add(Index<'w>),
    LookGdb(LookGdb<'w>),
    LookNames(LookNames<'w>),
    Serve(Serve<'w>),
    Race(Race<'w>),
    Drill(Drill),
    Aranges(Aranges<'w>),
    Files(Files<'w>),
    Cached(Cached<'w>),
}

/// `ask [--workers N] [--quote] FILE QUERY`.
#[derive(Clone, Copy)]
pub struct Ask<'w> {
    pub workers: u32,
    pub spelling: Spelling,
    pub file: &'w str,
    /// The words of the query, one at least.
    pub query: &'w [String],
}

/// `look gdb [--quote] INDEX QUERY`.
#[derive(Clone, Copy)]
pub struct LookGdb<'w> {
    pub spelling: Spelling,
    pub index: &'w str,
    /// The words of the query, one at least.
    pub query: &'w [String],
}

/// `look names [--base B] [--quote] INDEX STRINGS QUERY`.
#[derive(Clone, Copy)]
pub struct LookNames<'w> {
    /// The offset in the string section of the first byte of the strings.
    pub base: u32,
    pub spelling: Spelling,
    pub index: &'w str,
    pub strings: &'w str,
    /// The words of the query, one at least.
    pub query: &'w [String],
}

/// The command that the words after the program's name ask for; None where they aren't in the grammar.
pub fn parse_command(words: &[String]) -> Option<Command<'_>>
    ensures value { option_map seen_command result ≡ command_of (words_of words.now) }
    ensures workers { ForSome result HasWorkers }
{
    let (word, others) = words.split_first()?;
    if word.as_str() == "ask" {
        Some(Command::Ask(parse_ask(others)?))
    } else if word.as_str() == "index" {
        Some(Command::Index(parse_index(others)?))
    } else {
        other_command(word.as_str(), others)
    }
}

// A command that isn't `ask` or `index`.
fn other_command<'w>(word: &str, others: &'w [String]) -> Option<Command<'w>>
    ensures value { option_map seen_command result ≡ other_command word.now (words_of others.now) }
    ensures workers { ForSome result HasWorkers }
{
    if others.is_empty() {
        about(word)
    } else {
        longer_command(word, others)
    }
}

// One that has words behind it.
fn longer_command<'w>(word: &str, others: &'w [String]) -> Option<Command<'w>>
    ensures value { option_map seen_command result ≡ longer_command word.now (words_of others.now) }
    ensures workers { ForSome result HasWorkers }
{
    if word == "look" {
        parse_look(others)
    } else if word == "add" {
        Some(Command::Add(parse_index(others)?))
    } else if word == "drill" {
        Some(Command::Drill(parse_drill(others)?))
    } else {
        session_command(word, others)
    }
}

// One that answers while it builds, or reads a table.
fn session_command<'w>(word: &str, others: &'w [String]) -> Option<Command<'w>>
    ensures value { option_map seen_command result ≡ session_command word.now (words_of others.now) }
    ensures workers { ForSome result HasWorkers }
{
    if word == "serve" {
        Some(Command::Serve(parse_serve(others)?))
    } else if word == "race" {
        Some(Command::Race(parse_race(others)?))
    } else {
        table_command(word, others)
    }
}

// One that reads a table of a program, or answers from a kept index.
fn table_command<'w>(word: &str, others: &'w [String]) -> Option<Command<'w>>
    ensures value { option_map seen_command result ≡ table_command word.now (words_of others.now) }
    ensures workers { ForSome result HasWorkers }
{
    if word == "aranges" {
        Some(Command::Aranges(parse_aranges(others)?))
    } else if word == "files" {
        Some(Command::Files(parse_files(others)?))
    } else if word == "cached" {
        Some(Command::Cached(parse_cached(others)?))
    } else {
        None
    }
}

// The one word that asks about the program itself.
fn about<'w>(word: &str) -> Option<Command<'w>>
    ensures value { option_map seen_command result ≡ about word.now }
    ensures workers { ForSome result HasWorkers }
{
    match word {
        "--help" => Some(Command::Help),
        "--version" => Some(Command::Version),
        _ => None,
    }
}

fn parse_ask(words: &[String]) -> Option<Ask<'_>>
    ensures value { option_map seen_ask result ≡ ask_of (words_of words.now) }
    ensures workers { ForSome result (λ x. IsWorkers x.workers) }
{
    let workers = split_workers(words)?;
    let Quoting { spelling, others } = split_quoting(workers.others);
    ask_file(workers.number, spelling, others)
}

// A file's name, and then a query.
fn ask_file(workers: u32, spelling: Spelling, words: &[String]) -> Option<Ask<'_>>
    requires { IsWorkers workers }
    ensures value { option_map seen_ask result ≡ file_and_query workers spelling (words_of words.now) }
    ensures workers { ForSome result (λ x. IsWorkers x.workers) }
{
    let Named { file, others } = split_file(words)?;
    if others.is_empty() {
        return None;
    }
    Some(Ask {
        workers,
        spelling,
        file,
        query: others,
    })
}

fn parse_look(words: &[String]) -> Option<Command<'_>>
    ensures value { option_map seen_command result ≡ look_of (words_of words.now) }
    ensures workers { ForSome result HasWorkers }
{
    let (word, others) = words.split_first()?;
    if word.as_str() == "gdb" {
        Some(Command::LookGdb(parse_look_gdb(others)?))
    } else if word.as_str() == "names" {
        Some(Command::LookNames(parse_look_names(others)?))
    } else {
        None
    }
}

fn parse_look_gdb(words: &[String]) -> Option<LookGdb<'_>>
    ensures { option_map seen_look result ≡ look_gdb_of (words_of words.now) }
{
    let Quoting { spelling, others } = split_quoting(words);
    look_gdb_file(spelling, others)
}

// The name of an index, and a query.
fn look_gdb_file(spelling: Spelling, words: &[String]) -> Option<LookGdb<'_>>
    ensures { option_map seen_look result ≡ index_and_query spelling (words_of words.now) }
{
    let Named { file, others } = split_file(words)?;
    if others.is_empty() {
        return None;
    }
    Some(LookGdb {
        spelling,
        index: file,
        query: others,
    })
}

fn parse_look_names(words: &[String]) -> Option<LookNames<'_>>
    ensures { option_map seen_names result ≡ look_names_of (words_of words.now) }
{
    let base = split_base(words)?;
    let Quoting { spelling, others } = split_quoting(base.others);
    look_names_files(base.number, spelling, others)
}

// The names of an index and of its strings, and a query.
fn look_names_files(base: u32, spelling: Spelling, words: &[String]) -> Option<LookNames<'_>>
    ensures { option_map seen_names result ≡ names_and_query base spelling (words_of words.now) }
{
    let files = split_two_files(words)?;
    if files.others.is_empty() {
        return None;
    }
    Some(LookNames {
        base,
        spelling,
        index: files.first,
        strings: files.second,
        query: files.others,
    })
}
