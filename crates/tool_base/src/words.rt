//! The words behind the program's name, and what is wrong with them that only the system can tell.

use command_words::{Command, parse_command};
use index_model::CacheKind;
use outside::is_same_file;
use std::alloc::{AllocError, AllocFailed};
use std::env;
use std::io::{self, ErrorKind};
use std::rt::{Env, Files};

/// Why a command doesn't begin.
#[derive(Clone, Copy)]
pub enum NotBegun {
    /// A word isn't UTF-8, so it is none of the grammar.
    NotUtf8,
    /// An index would take the place of the program that it is made of.
    OverItsFile,
    NoMemory,
}

impl From<AllocError> for NotBegun {
    fn from(_error: AllocError) -> NotBegun {
        NotBegun::NoMemory
    }
}

impl<T: Drop> From<AllocFailed<T>> for NotBegun {
    fn from(_refused: AllocFailed<T>) -> NotBegun {
        NotBegun::NoMemory
    }
}

// The words are all there or refused for want of memory, but for one that isn't UTF-8.
impl From<io::Error> for NotBegun {
    fn from(error: io::Error) -> NotBegun {
        match error.kind() {
            ErrorKind::OutOfMemory => NotBegun::NoMemory,
            _ => NotBegun::NotUtf8,
        }
    }
}

/// The words behind the program's name, by which nothing is stored over the file that it is made of.
pub fn checked_words<R: Env + Files + AllocGlobal>(rt: &R) -> Result<Vec<String>, NotBegun> {
    let words = words(rt)?;
    if stores_over_its_file(rt, &words)? {
        return Err(NotBegun::OverItsFile);
    }
    Ok(words)
}

// The words behind the program's name. `-h` alone is `--help`.
fn words<R: Env + AllocGlobal>(rt: &R) -> Result<Vec<String>, NotBegun> {
    let mut words = Vec::new(rt.alloc());
    for word in env::args(rt)?.skip(1) {
        words.push(word)?;
    }
    match &words[..] {
        [word] if word.as_str() == "-h" => {
            let help = String::from_str(rt.alloc(), "--help")?;
            Ok(Vec::from_array(rt.alloc(), [help])?)
        }
        _ => Ok(words),
    }
}

// Whether `index` is to store its index, or the strings of one, in the very file that it reads.
fn stores_over_its_file<R: Files + AllocGlobal>(
    rt: &R,
    words: &[String],
) -> Result<bool, AllocError> {
    let Some(Command::Index(index)) = parse_command(words) else {
        return Ok(false);
    };
    if is_same_file(rt, index.file, index.out) {
        return Ok(true);
    }
    match index.form.kind() {
        CacheKind::Gdb8 | CacheKind::Gdb9 => Ok(false),
        CacheKind::Names => {
            let mut strings = String::from_str(rt.alloc(), index.out)?;
            strings.push_str(".debug_str")?;
            Ok(is_same_file(rt, index.file, strings.as_str()))
        }
    }
}
