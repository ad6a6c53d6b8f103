//! The words of the commands that store an index.

ghost use Rattle.std.specs.Prelude.{◌≡◌, option_map};
ghost use Rattle.std.specs.Option.{ForSome};
ghost use Rattle.command_words.specs.IndexWords.{files_of, form_and_others, form_before, index_as, index_of, kind_named};
ghost use Rattle.command_words.specs.SeenWords.{seen_formed, seen_index, words_of, IsWorkers};

use crate::options::{split_two_files, split_workers};
use index_forms::IndexForm;
use index_model::CacheKind;

/// `index --as KIND [--rules gdb] [--workers N] FILE OUT`, or `add` with such words.
#[derive(Clone, Copy)]
pub struct Index<'w> {
    pub form: IndexForm,
    pub workers: u32,
    pub file: &'w str,
    /// The name under which the index is stored, or the program with it.
    pub out: &'w str,
}

// The form of an index, and the words behind it.
#[derive(Clone, Copy)]
pub(crate) struct Formed<'w> {
    pub form: IndexForm,
    pub others: &'w [String],
}

/// What the words behind `index` or `add` ask for.
pub(crate) fn parse_index(words: &[String]) -> Option<Index<'_>>
    ensures value { option_map seen_index result ≡ index_of (words_of words.now) }
    ensures workers { ForSome result (λ x. IsWorkers x.workers) }
{
    match words.split_first() {
        Some((word, others)) if word.as_str() == "--as" => index_as(others),
        _ => None,
    }
}

// The words behind `--as`.
fn index_as(words: &[String]) -> Option<Index<'_>>
    ensures value { option_map seen_index result ≡ index_as (words_of words.now) }
    ensures workers { ForSome result (λ x. IsWorkers x.workers) }
{
    let (word, others) = words.split_first()?;
    let kind = kind_named(word.as_str())?;
    let formed = split_form(kind, others)?;
    let workers = split_workers(formed.others)?;
    index_files(formed.form, workers.number, workers.others)
}

// The form of an index of this kind, and the words behind it.
fn split_form(kind: CacheKind, words: &[String]) -> Option<Formed<'_>>
    ensures { option_map seen_formed result ≡ form_and_others kind (words_of words.now) }
{
    match words.split_first() {
        Some((word, others)) if word.as_str() == "--rules" => form_before(kind, others),
        _ => Some(Formed {
            form: IndexForm::ByDwarf(kind),
            others: words,
        }),
    }
}

// The same, where rules are named.
fn form_before(kind: CacheKind, words: &[String]) -> Option<Formed<'_>>
    ensures { option_map seen_formed result ≡ form_before kind (words_of words.now) }
{
    let (word, others) = words.split_first()?;
    if word.as_str() != "gdb" {
        return None;
    }
    let form = IndexForm::by_gdb(kind)?;
    Some(Formed { form, others })
}

// Two files' names and nothing behind them.
fn index_files(form: IndexForm, workers: u32, words: &[String]) -> Option<Index<'_>>
    requires { IsWorkers workers }
    ensures value { option_map seen_index result ≡ files_of form workers (words_of words.now) }
    ensures workers { ForSome result (λ x. IsWorkers x.workers) }
{
    let files = split_two_files(words)?;
    if !files.others.is_empty() {
        return None;
    }
    Some(Index {
        form,
        workers,
        file: files.first,
        out: files.second,
    })
}

fn kind_named(word: &str) -> Option<CacheKind>
    ensures { result ≡ kind_named word.now }
{
    match word {
        "gdb8" => Some(CacheKind::Gdb8),
        "gdb9" => Some(CacheKind::Gdb9),
        "names" => Some(CacheKind::Names),
        _ => None,
    }
}
