//! The words of the commands that read a table of a program beside its entries.

ghost use Rattle.std.specs.Prelude.{◌≡◌, option_map};
ghost use Rattle.std.specs.Option.{ForSome};
ghost use Rattle.command_words.specs.SeenWords.{seen_aranges, seen_files, words_of, IsWorkers};
ghost use Rattle.command_words.specs.TableWords.{aranges_file, aranges_of, file_and_name, sought_of};

use crate::options::{Named, split_file, split_two_files, split_workers};

/// `aranges [--workers N] FILE`.
#[derive(Clone, Copy)]
pub struct Aranges<'w> {
    pub workers: u32,
    pub file: &'w str,
}

pub(crate) fn parse_aranges(words: &[String]) -> Option<Aranges<'_>>
    ensures value { option_map seen_aranges result ≡ aranges_of (words_of words.now) }
    ensures workers { ForSome result (λ a. IsWorkers a.workers) }
{
    let workers = split_workers(words)?;
    aranges_file(workers.number, workers.others)
}

// One file's name and nothing behind it.
fn aranges_file(workers: u32, words: &[String]) -> Option<Aranges<'_>>
    requires { IsWorkers workers }
    ensures value { option_map seen_aranges result ≡ aranges_file workers (words_of words.now) }
    ensures workers { ForSome result (λ a. IsWorkers a.workers) }
{
    let Named { file, others } = split_file(words)?;
    if !others.is_empty() {
        return None;
    }
    Some(Aranges { workers, file })
}

/// `files [--workers N] FILE NAME`.
#[derive(Clone, Copy)]
pub struct Files<'w> {
    pub workers: u32,
    pub file: &'w str,
    /// The name of a source file.
    pub name: &'w str,
}

pub(crate) fn parse_files(words: &[String]) -> Option<Files<'_>>
    ensures value { option_map seen_files result ≡ sought_of (words_of words.now) }
    ensures workers { ForSome result (λ f. IsWorkers f.workers) }
{
    let workers = split_workers(words)?;
    file_and_name(workers.number, workers.others)
}

// A file's name and that of a source file, and nothing behind them.
fn file_and_name(workers: u32, words: &[String]) -> Option<Files<'_>>
    requires { IsWorkers workers }
    ensures value { option_map seen_files result ≡ file_and_name workers (words_of words.now) }
    ensures workers { ForSome result (λ f. IsWorkers f.workers) }
{
    let names = split_two_files(words)?;
    if !names.others.is_empty() {
        return None;
    }
    Some(Files {
        workers,
        file: names.first,
        name: names.second,
    })
}
