//! `gdbix`: the symbol index of a program with DWARF, on the command line.
#![tactic(auto)]

use fault_words::help_for;
use index_cmd::run;
use outside::{FileShelf, NoGate, StreamSink, StreamSource};
use std::process::ExitCode;
use tool_base::{NotBegun, Remembering, answer, checked_words, say_end, stop, take_closed};

fn main(rt: HostRuntime) -> ExitCode {
    let _closed = take_closed(&rt);
    let mut out = Remembering::over(StreamSink::new(&rt));
    let words = match checked_words(&rt) {
        Ok(words) => words,
        Err(why) => return ExitCode::from(stop(&rt, why, &mut out)),
    };
    let mut shelf = match FileShelf::new(&rt, rt.alloc()) {
        Ok(shelf) => shelf,
        Err(_) => return ExitCode::from(stop(&rt, NotBegun::NoMemory, &mut out)),
    };
    let mut input = StreamSource::new(rt.reader());
    let status = match help_for(&words) {
        Some(text) => answer(text, &mut out),
        None => run(
            &rt,
            rt.alloc(),
            &words,
            &mut shelf,
            &mut input,
            &mut out,
            &NoGate,
        ),
    };
    say_end(&rt, status, &words, shelf, input, out);
    ExitCode::from(status)
}
