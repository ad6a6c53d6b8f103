//! outside: real files and streams.

use outside::{
    Failed, FileShelf, MemSink, Shelf, Sink, Source, StreamSink, StreamSource, write_all,
};
use std::alloc::{AllocError, Global};
use std::fs;
use std::test::Fail;

// How many bytes were read from a place on, and what three dots are then.
fn piece<S: Shelf>(shelf: &mut S, name: &str, at: u64) -> Result<(usize, [u8; 3]), Failed> {
    let mut into = *b"...";
    match shelf.read_at(name, at, &mut into) {
        Ok(count) => Ok((count, into)),
        Err(failed) => Err(failed),
    }
}

// The same, of a file that was kept.
fn kept_piece<S: Shelf>(shelf: &mut S, name: &str, at: u64) -> Result<(usize, [u8; 3]), Failed> {
    let mut into = *b"...";
    match shelf.read_kept(name, at, &mut into) {
        Ok(count) => Ok((count, into)),
        Err(failed) => Err(failed),
    }
}

const PLACES: [(u64, Result<(usize, [u8; 3]), Failed>); 5] = [
    (0, Ok((3, *b"abc"))),
    (3, Ok((3, *b"def"))),
    (6, Ok((1, *b"g.."))),
    (7, Ok((0, *b"..."))),
    (1, Ok((3, *b"bcd"))),
];

// The first of the places from which another piece is read.
fn first_other<S: Shelf>(shelf: &mut S, name: &str) -> Option<u64> {
    for (at, want) in &PLACES {
        if piece(shelf, name, *at) != *want {
            return Some(*at);
        }
    }
    None
}

// Whether the later of two texts is kept.
fn stores<S: Shelf>(shelf: &mut S, name: &str) -> bool {
    let first = shelf.store(name, b"a longer text");
    let second = shelf.store(name, b"abcdefg");
    first.is_ok() && second.is_ok()
}

#[test]
fn a_real_file_is_read_back_in_pieces(rt: HostRuntime) -> Result<(), Fail> {
    let name = "read_back_in_pieces.bin";
    let mut shelf = FileShelf::new(&rt, rt.alloc())?;
    let stored = stores(&mut shelf, name);
    let other = first_other(&mut shelf, name);
    let kept = kept_piece(&mut shelf, name, 3);
    fs::remove_file(&rt, name)?;
    let gone = [piece(&mut shelf, name, 0), kept_piece(&mut shelf, name, 0)];
    let no_folder = shelf.store("no_such_folder/a.bin", b"a");
    assert_eq!(rt; (stored, other, kept), (true, None, Ok((3, *b"def"))));
    assert_eq!(rt;
        (gone, no_folder),
        ([Err(Failed), Err(Failed)], Err(Failed))
    );
    Ok(())
}

// How many bytes come, and what four dots are then.
fn next<S: Source>(input: &mut S) -> Result<(usize, [u8; 4]), Failed> {
    let mut into = *b"....";
    match input.read(&mut into) {
        Ok(count) => Ok((count, into)),
        Err(failed) => Err(failed),
    }
}

fn pieces<S: Source>(input: &mut S) -> [Result<(usize, [u8; 4]), Failed>; 4] {
    [next(input), next(input), next(input), next(input)]
}

#[test]
fn a_real_stream_is_read_in_pieces_to_its_end(rt: HostRuntime) -> Result<(), Fail> {
    let name = "a_stream_in_pieces.txt";
    fs::write(&rt, name, b"main\nname f")?;
    let mut input = StreamSource::new(fs::open(&rt, name)?);
    let pieces = pieces(&mut input);
    fs::remove_file(&rt, name)?;
    let wanted = [
        Ok((4, *b"main")),
        Ok((4, *b"\nnam")),
        Ok((3, *b"e f.")),
        Ok((0, *b"....")),
    ];
    assert_eq!(rt; pieces, wanted);
    Ok(())
}

// What reaches the streams isn't seen here: a program's run shows it.
#[test]
fn standard_streams_take_and_give(rt: HostRuntime) {
    let read = StreamSource::new(rt.reader()).read(&mut []);
    let mut out = StreamSink::new(&rt);
    let taken = write_all(&mut out, b"taken\n");
    let none = out.write(b"");
    assert_eq!(rt; (read, taken, none), (Ok(0), Ok(()), Ok(0)));
}

// A call takes one byte, the next two, and this one fails.
fn plan(out: &mut MemSink, fails: u64) -> Result<(), AllocError> {
    out.take_at_most(1)?;
    out.take_at_most(2)?;
    out.fail_write(fails)
}

// Whether writing ends so, and what was taken is this.
fn ends(
    alloc: Global,
    fails: u64,
    end: Result<(), Failed>,
    held: &[u8],
) -> Result<bool, AllocError> {
    let mut out = MemSink::new(alloc);
    plan(&mut out, fails)?;
    let same = write_all(&mut out, b"abcdef") == end;
    Ok(same && out.bytes() == held)
}

#[test]
fn all_is_written_in_pieces_or_a_prefix(rt: HostRuntime) -> Result<(), Fail> {
    let all = ends(rt.alloc(), 0, Ok(()), b"abcdef")?;
    let prefix = ends(rt.alloc(), 3, Err(Failed), b"abc")?;
    assert_eq!(rt; (all, prefix), (true, true));
    Ok(())
}
