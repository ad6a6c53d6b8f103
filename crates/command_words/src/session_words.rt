//! The words of the commands that answer while they build.

ghost use Rattle.std.specs.Prelude.{◌≡◌, ◌≤◌, option_map};
ghost use Rattle.std.specs.Option.{ForSome};
ghost use Rattle.command_words.specs.SessionWords.{race_files, race_of, serve_file, serve_of};
ghost use Rattle.command_words.specs.SeenWords.{seen_race, seen_serve, words_of, IsRace, IsReaders, IsServe, IsWorkers};

use crate::options::{
    Named, Quoting, READERS, WAIT, split_file, split_number, split_quoting, split_two_files,
    split_workers,
};
use name_quotes::Spelling;

/// `serve [--workers N] [--wait S] [--quote] FILE`.
#[derive(Clone, Copy)]
pub struct Serve<'w> {
    pub workers: u32,
    /// The session begins after a mark of at least this stage, 0 to 3.
    pub wait: u8,
    pub spelling: Spelling,
    pub file: &'w str,
}

/// `race [--workers N] [--readers M] [--quote] FILE SCRIPT`.
#[derive(Clone, Copy)]
pub struct Race<'w> {
    pub workers: u32,
    pub readers: u32,
    pub spelling: Spelling,
    pub file: &'w str,
    pub script: &'w str,
}

pub(crate) fn parse_serve(words: &[String]) -> Option<Serve<'_>>
    ensures value { option_map seen_serve result ≡ serve_of (words_of words.now) }
    ensures range { ForSome result IsServe }
{
    let workers = split_workers(words)?;
    let wait = split_number(WAIT, workers.others)?;
    let Quoting { spelling, others } = split_quoting(wait.others);
    serve_file(workers.number, wait.number as u8, spelling, others)
}

// One file's name and nothing behind it.
fn serve_file(workers: u32, wait: u8, spelling: Spelling, words: &[String]) -> Option<Serve<'_>>
    requires workers { IsWorkers workers }
    requires wait { wait ≤ 3 }
    ensures value { option_map seen_serve result ≡ serve_file workers wait spelling (words_of words.now) }
    ensures range { ForSome result IsServe }
{
    let Named { file, others } = split_file(words)?;
    if !others.is_empty() {
        return None;
    }
    Some(Serve {
        workers,
        wait,
        spelling,
        file,
    })
}

pub(crate) fn parse_race(words: &[String]) -> Option<Race<'_>>
    ensures value { option_map seen_race result ≡ race_of (words_of words.now) }
    ensures range { ForSome result IsRace }
{
    let workers = split_workers(words)?;
    let readers = split_number(READERS, workers.others)?;
    let Quoting { spelling, others } = split_quoting(readers.others);
    race_files(workers.number, readers.number, spelling, others)
}

// The names of a file and of a script, and nothing behind them.
fn race_files(workers: u32, readers: u32, spelling: Spelling, words: &[String]) -> Option<Race<'_>>
    requires workers { IsWorkers workers }
    requires readers { IsReaders readers }
    ensures value { option_map seen_race result ≡ race_files workers readers spelling (words_of words.now) }
    ensures range { ForSome result IsRace }
{
    let files = split_two_files(words)?;
    if !files.others.is_empty() {
        return None;
    }
    Some(Race {
        workers,
        readers,
        spelling,
        file: files.first,
        script: files.second,
    })
}
