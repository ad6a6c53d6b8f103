//! What several commands share: options with a number behind them, and names of files.

ghost use Rattle.std.specs.Prelude.{◌≡◌, ◌≤◌, option_map};
ghost use Rattle.std.specs.Option.{ForSome};
ghost use Rattle.command_words.specs.SeenWords.{seen_based, seen_counted, seen_named, seen_named_two, seen_quoting, seen_workers, words_of, IsWorkers};
ghost use Rattle.command_words.specs.SessionWords.{number_before, option_and_others};
ghost use Rattle.command_words.specs.Taken.{file_and_others, two_files_and_others};
ghost use Rattle.command_words.specs.Words.{base_and_others};
ghost use Rattle.command_words.specs.WordParts.{is_file_name, quoting_and_others, workers_and_others};

use crate::number::number;
use name_quotes::Spelling;

/// An option with a number behind it.
#[derive(Clone, Copy)]
pub(crate) struct NumberOption {
    pub name: &'static str,
    pub low: u32,
    pub high: u32,
    /// The number where the option isn't given.
    pub default: u32,
}

/// How many workers build an index.
pub(crate) const WORKERS: NumberOption = NumberOption {
    name: "--workers",
    low: 1,
    high: 64,
    default: 4,
};

/// The stage of the first mark after which a session begins.
pub(crate) const WAIT: NumberOption = NumberOption {
    name: "--wait",
    low: 0,
    high: 3,
    default: 0,
};

/// How many readers ask at once.
pub(crate) const READERS: NumberOption = NumberOption {
    name: "--readers",
    low: 1,
    high: 16,
    default: 2,
};

/// Where the strings begin in the string section.
pub(crate) const BASE: NumberOption = NumberOption {
    name: "--base",
    low: 0,
    high: u32::MAX,
    default: 0,
};

/// A number, and the words behind it.
#[derive(Clone, Copy)]
pub(crate) struct Counted<'w> {
    pub number: u32,
    pub others: &'w [String],
}

/// How names are written, and the words behind that.
#[derive(Clone, Copy)]
pub(crate) struct Quoting<'w> {
    pub spelling: Spelling,
    pub others: &'w [String],
}

/// A file's name, and the words behind it.
#[derive(Clone, Copy)]
pub(crate) struct Named<'w> {
    pub file: &'w str,
    pub others: &'w [String],
}

/// The names of two files, and the words behind them.
#[derive(Clone, Copy)]
pub(crate) struct NamedTwo<'w> {
    pub first: &'w str,
    pub second: &'w str,
    pub others: &'w [String],
}

/// The number behind an option, or the default where the option isn't there.
pub(crate) fn split_number(option: NumberOption, words: &[String]) -> Option<Counted<'_>>
    requires low { option.low ≤ option.default }
    requires high { option.default ≤ option.high }
    ensures value { option_map seen_counted result ≡ option_and_others option.name.now option.low option.high option.default (words_of words.now) }
    ensures least { ForSome result (λ c. option.low ≤ c.number) }
    ensures most { ForSome result (λ c. c.number ≤ option.high) }
{
    match words.split_first() {
        Some((word, others)) if word.as_str() == option.name => {
            number_before(option.low, option.high, others)
        }
        _ => Some(Counted {
            number: option.default,
            others: words,
        }),
    }
}

/// The workers that are asked for, and the words behind that.
#[tactic(auto, using(crate::proofs::Counting::workers_are_counted))]
pub(crate) fn split_workers(words: &[String]) -> Option<Counted<'_>>
    ensures value { option_map seen_workers result ≡ workers_and_others (words_of words.now) }
    ensures workers { ForSome result (λ c. IsWorkers c.number) }
{
    split_number(WORKERS, words)
}

/// The base of the strings, and the words behind that.
#[tactic(auto, using(crate::proofs::Counting::base_is_counted))]
pub(crate) fn split_base(words: &[String]) -> Option<Counted<'_>>
    ensures { option_map seen_based result ≡ base_and_others (words_of words.now) }
{
    split_number(BASE, words)
}

// A number within bounds, and the words behind it.
fn number_before(low: u32, high: u32, words: &[String]) -> Option<Counted<'_>>
    ensures value { option_map seen_counted result ≡ number_before low high (words_of words.now) }
    ensures least { ForSome result (λ c. low ≤ c.number) }
    ensures most { ForSome result (λ c. c.number ≤ high) }
{
    let (word, others) = words.split_first()?;
    let number = number(word.as_bytes(), low, high)?;
    Some(Counted { number, others })
}

/// Whether names are quoted, and the words behind that.
pub(crate) fn split_quoting(words: &[String]) -> Quoting<'_>
    ensures { seen_quoting result ≡ quoting_and_others (words_of words.now) }
{
    match words.split_first() {
        Some((word, others)) if word.as_str() == "--quote" => Quoting {
            spelling: Spelling::Quoted,
            others,
        },
        _ => Quoting {
            spelling: Spelling::Plain,
            others: words,
        },
    }
}

/// The name of a file, and the words behind it.
pub(crate) fn split_file(words: &[String]) -> Option<Named<'_>>
    ensures { option_map seen_named result ≡ file_and_others (words_of words.now) }
{
    let (word, others) = words.split_first()?;
    if !is_file_name(word.as_str()) {
        return None;
    }
    Some(Named {
        file: word.as_str(),
        others,
    })
}

/// The names of two files, and the words behind them.
pub(crate) fn split_two_files(words: &[String]) -> Option<NamedTwo<'_>>
    ensures { option_map seen_named_two result ≡ two_files_and_others (words_of words.now) }
{
    let first = split_file(words)?;
    let second = split_file(first.others)?;
    Some(NamedTwo {
        first: first.file,
        second: second.file,
        others: second.others,
    })
}

// A file's name is a word that isn't empty and doesn't look like an option.
fn is_file_name(word: &str) -> bool
    ensures { result ≡ is_file_name word.now }
{
    !word.is_empty() && !word.as_bytes().starts_with(b"--")
}
