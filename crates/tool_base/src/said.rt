//! What is said on standard error, beside the line and the status of a command. It changes neither, and may get lost.

use crate::lines::Remembering;
use crate::section::{NAME, section_name};
use crate::words::NotBegun;
use command_base::Status;
use fault_words::{Message, message_for, note_for};
use outside::{
    Failed, Failure, FileShelf, Shelf, Sink, StreamSink, StreamSource, system_words, write_all,
};
use std::io::{self, Eprint, Read, Write};
use std::rt::Files;

/// Ends a command that doesn't begin, with its line and its status.
pub fn stop<R: Eprint, K: Sink>(rt: &R, why: NotBegun, out: &mut K) -> u8 {
    let (status, line) = match why {
        NotBegun::NotUtf8 => {
            let _ = eprintln!(rt; "gdbix: usage: a word isn't UTF-8");
            (Status::Usage, "usage\n")
        }
        NotBegun::OverItsFile => {
            let _ = eprintln!(rt;
                "gdbix: usage: OUT is FILE itself; name another file, or put the index into FILE with gdbix add"
            );
            (Status::Usage, "usage\n")
        }
        NotBegun::NoMemory => {
            if let Some(message) = message_for(Status::NoMemory.code(), b"", &[]) {
                say(rt, message);
            }
            (Status::NoMemory, "no memory\n")
        }
    };
    write(out, line, status)
}

/// Writes a text that was asked for.
pub fn answer<K: Sink>(text: &str, out: &mut K) -> u8 {
    write(out, text, Status::Answered)
}

fn write<K: Sink>(out: &mut K, text: &str, status: Status) -> u8 {
    match write_all(out, text.as_bytes()) {
        Ok(()) => status.code(),
        Err(Failed) => Status::WriteFault.code(),
    }
}

/// Says why a command ended with this status: in the system's words, where a call on what lies outside failed, else by the last line
/// that it wrote. Of a kept index that couldn't be used it says why, whatever the status is.
pub fn say_end<R: Eprint, F: Files + Drop, T: Read + Drop, W: Write + Drop>(
    rt: &R,
    status: u8,
    words: &[String],
    shelf: FileShelf<F>,
    input: StreamSource<T>,
    out: Remembering<StreamSink<W>>,
) {
    if let Some(note) = note_for(out.first_line(), words) {
        say(rt, note);
    }
    match status {
        3 | 4 if let Some(failure) = shelf.failure() => say_failure(rt, failure),
        5 if let Some(error) = out.inner().error() => say_error(rt, "standard output", error),
        6 if let Some(error) = input.error() => say_error(rt, "standard input", error),
        _ => {
            if let Some(message) = message_for(status, out.last_line(), words) {
                say_of_file(rt, message, shelf);
            }
        }
    }
}

// Says it with the name of the section that it speaks of.
fn say_of_file<R: Eprint, S: Shelf + Drop>(rt: &R, message: Message<'_>, mut shelf: S) {
    let mut room = [0; NAME];
    let name = match message.section() {
        Some(number) => section_name(&mut shelf, message.file, number, &mut room),
        None => None,
    };
    say(rt, message.with_section(name.unwrap_or("")));
}

fn say<R: Eprint>(rt: &R, message: Message<'_>) {
    let _ = eprintln!(rt; "gdbix: {message}");
}

fn say_failure<R: Eprint>(rt: &R, failure: &Failure) {
    let name = failure.name().unwrap_or("a file");
    let words = failure.cause().words();
    let _ = eprintln!(rt; "gdbix: {name}: {words}");
}

fn say_error<R: Eprint>(rt: &R, what: &str, error: io::Error) {
    let words = system_words(&error);
    let _ = eprintln!(rt; "gdbix: {what}: {words}");
}
