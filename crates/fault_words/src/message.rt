//! The sentence for standard error.

ghost use Rattle.std.specs.Prelude.{◌≡◌, ◌==◌, not, is_some};

use crate::end::{FilesMeant, StatusText, end_of};
use crate::fault::{FaultText, PlaceKind, fault_of};
use crate::help::help_name;
use crate::usage::{Usage, usage_of};
use std::fmt;

/// What is said of a run on standard error.
#[derive(Clone, Copy)]
pub struct Message<'w> {
    /// The file that it speaks of, empty where it speaks of none.
    pub file: &'w str,
    /// Another file that may be meant, empty where there is none.
    pub other: &'w str,
    /// The name of the section that it speaks of, empty where that isn't known.
    pub section_name: &'w str,
    pub problem: Problem<'w>,
}

impl<'w> Message<'w> {
    /// The number of the section that it speaks of, where it speaks of one.
    pub fn section(&self) -> Option<u64> {
        match self.problem {
            Problem::Fault(fault, at) if matches!(fault.place, PlaceKind::Section) && at > 0 =>
                Some(at),
            _ => None,
        }
    }

    /// The same with the name of the section that it speaks of.
    pub fn with_section(self, name: &'w str) -> Message<'w> {
        Message {
            section_name: name,
            ..self
        }
    }
}

/// What is said.
#[derive(Clone, Copy)]
pub enum Problem<'w> {
    /// A fault of a file, an index or a table, and its place.
    Fault(&'static FaultText, u64),
    /// The words aren't in the grammar, and the help that says more: a command or nothing.
    Usage(Usage<'w>, &'static str),
    End(&'static StatusText),
}

/// What is said of a run that ended with a status after it wrote a line last: nothing where it answered.
pub fn message_for<'w>(status: u8, line: &[u8], words: &'w [String]) -> Option<Message<'w>>
    ensures { is_some result ≡ not (status == 0) }
{
    match status {
        0 => None,
        2 => Some(Message {
            file: "",
            other: "",
            section_name: "",
            problem: Problem::Usage(usage_of(words), helped(words)),
        }),
        _ => Some(about(status, line, words)),
    }
}

/// What is said of a kept index that couldn't be used, where a run's first line says that.
pub fn note_for<'w>(line: &[u8], words: &'w [String]) -> Option<Message<'w>> {
    if !line.starts_with(b"stale ") {
        return None;
    }
    let (fault, at) = fault_in(line)?;
    let (file, _) = files_of(words);
    Some(Message {
        file,
        other: "",
        section_name: "",
        problem: Problem::Fault(fault, at),
    })
}

// The command of the words, where it has a help of its own; nothing where it has none.
fn helped(words: &[String]) -> &'static str {
    match words {
        [command, ..] => help_name(command.as_str()),
        [] => "",
    }
}

// What is said of a status that isn't one of usage.
fn about<'w>(status: u8, line: &[u8], words: &'w [String]) -> Message<'w> {
    let (first, second) = files_of(words);
    if matches!(status, 1 | 8 | 14 | 15)
        && let Some((fault, at)) = fault_in(line)
    {
        return Message {
            file: first,
            other: "",
            section_name: "",
            problem: Problem::Fault(fault, at),
        };
    }
    let end = end_of(status);
    let (file, other) = match end.about {
        FilesMeant::Nothing => ("", ""),
        FilesMeant::Stored => (second, ""),
        FilesMeant::Read if reads_two(words) => (first, second),
        FilesMeant::Read => (first, ""),
    };
    Message {
        file,
        other,
        section_name: "",
        problem: Problem::End(end),
    }
}

// The fault in a line that ends with its code and its place, and the place.
fn fault_in(line: &[u8]) -> Option<(&'static FaultText, u64)> {
    let text = str::from_utf8(line).ok()?;
    let (before, place) = text.trim_end().rsplit_once(' ')?;
    let (_, code) = before.rsplit_once(' ')?;
    let at = u64::from_str_radix(place, 16).ok()?;
    let fault = fault_of(code.parse::<u8>().ok()?)?;
    Some((fault, at))
}

// The first two words of a command that aren't its own or its options', empty where they aren't there.
fn files_of(words: &[String]) -> (&str, &str) {
    let behind = match words {
        [look, _, others @ ..] if look.as_str() == "look" => others,
        [drill, ..] if drill.as_str() == "drill" => &[],
        [_, others @ ..] => others,
        [] => &[],
    };
    match behind_option(behind_option(behind)) {
        [] => ("", ""),
        [first] => (first.as_str(), ""),
        [first, second, ..] => (first.as_str(), second.as_str()),
    }
}

fn behind_option(words: &[String]) -> &[String] {
    match words {
        [option, _, others @ ..] if option.as_str().starts_with("--") => others,
        _ => words,
    }
}

// Whether a command reads its second file too.
fn reads_two(words: &[String]) -> bool {
    match words {
        [look, names, ..] if look.as_str() == "look" => names.as_str() == "names",
        [race, ..] => race.as_str() == "race",
        [] => false,
    }
}

impl fmt::Display for Message<'_> {
    fn fmt<W: fmt::Write>(&self, f: &mut fmt::Formatter<W>) -> fmt::Result {
        let file = self.file;
        let other = self.other;
        if !file.is_empty() {
            write!(f, "{file}")?;
        }
        if !other.is_empty() {
            write!(f, " or {other}")?;
        }
        if !file.is_empty() {
            write!(f, ": ")?;
        }
        match self.problem {
            Problem::Usage(usage, "") => write!(f, "usage: {usage}; try 'gdbix --help'"),
            Problem::Usage(usage, of) => write!(f, "usage: {usage}; try 'gdbix {of} --help'"),
            Problem::Fault(fault, at) => write_fault(f, fault, at, self.section_name),
            Problem::End(end) => {
                let sentence = end.sentence;
                let remedy = end.remedy;
                write!(f, "{sentence}; {remedy}")
            }
        }
    }
}

// The sentence of a fault, its place and its remedy.
fn write_fault<W: fmt::Write>(
    f: &mut fmt::Formatter<W>,
    fault: &FaultText,
    at: u64,
    name: &str,
) -> fmt::Result {
    let sentence = fault.sentence;
    let remedy = fault.remedy;
    write!(f, "{sentence}")?;
    match fault.place {
        PlaceKind::Nowhere => {}
        PlaceKind::Byte => write!(f, " (byte {at:#x} of the file)")?,
        PlaceKind::Section if at == 0 => {}
        PlaceKind::Section if name.is_empty() => write!(f, " (section [{at}])")?,
        PlaceKind::Section => write!(f, " (section [{at}] {name})")?,
        PlaceKind::Unit => write!(f, " (unit at {at:#x})")?,
        PlaceKind::Entry => write!(f, " (entry <{at:x}>)")?,
        PlaceKind::Info => write!(f, " (byte {at:#x} of .debug_info)")?,
        PlaceKind::Index => write!(f, " (byte {at:#x} of the index)")?,
        PlaceKind::Set => write!(f, " (set at {at:#x})")?,
    }
    write!(f, "; {remedy}")
}
