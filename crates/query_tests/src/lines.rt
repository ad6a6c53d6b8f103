//! query_text: the lines that ask, and those that reply, as rows write them down.

ghost use Rattle.index_model.specs.Seen.{reply_seen};
ghost use Rattle.query_text.specs.Places.{PlacesFit};

use gdbindex_read::GdbIndex;
use index_model::{Answer, CacheSize, Entry, Hits, Kind, MainName, Query, Reply, Text};
use ix_base::Fault;
use name_quotes::Spelling;
use outside::MemSink;
use query_text::{parse, write_elements, write_index_fault, write_reply};
use std::alloc::{AllocError, Global};
use std::test::Fail;
use test_files::indexes::GDB8;

const LINES: [(&[u8], Option<Query<'static>>); 7] = [
    (b"main", Some(Query::Main)),
    (b"cache", Some(Query::Cache)),
    (b"name  x", Some(Query::Name(b" x"))),
    (b"simple f", Some(Query::Simple(b"f"))),
    (b"addr 000000000000101F", Some(Query::Addr(0x101f))),
    (b"addr 0x10", None),
    (b"", None),
];

// The number of the first row whose line asks something else.
fn first_other() -> Option<usize> {
    for (number, (line, query)) in LINES.iter().enumerate() {
        if parse(line) != *query {
            return Some(number);
        }
    }
    None
}

#[test]
fn lines_that_ask(rt: HostRuntime) {
    assert_eq!(rt; first_other(), None);
}

const MAIN: MainName<'static> = MainName {
    language: 0x1d,
    name: b"main",
};

const FAULT: Fault = Fault { code: 19, at: 0xc };

fn is_written(alloc: Global, reply: &Reply<'_>, text: &[u8]) -> bool
    requires { PlacesFit (reply_seen reply.now) }
{
    let mut out = MemSink::new(alloc);
    let written = write_reply(&mut out, Spelling::Plain, reply).is_ok();
    written && out.bytes() == text
}

#[test]
fn replies_without_entries(rt: HostRuntime) {
    let alloc = rt.alloc();
    let too_large = Answer::Cache(CacheSize::TooLarge);
    let written = [
        is_written(alloc, &Reply::Answer(Answer::Unit(None)), b"none\n"),
        is_written(
            alloc,
            &Reply::Answer(Answer::Main(Some(MAIN))),
            b"main 1d main\n",
        ),
        is_written(alloc, &Reply::Answer(too_large), b"too large\n"),
        is_written(alloc, &Reply::Pending, b"pending\n"),
        is_written(alloc, &Reply::Refused(FAULT), b"refused 19 c\n"),
    ];
    assert_eq!(rt; written, [true; 5]);
}

// A name that forges a reply, in each spelling.
fn is_forged(alloc: Global, spelling: Spelling, text: &[u8]) -> bool {
    let reply = Reply::Answer(Answer::Main(Some(MainName {
        language: 0x1d,
        name: b"a\nfound 9\x1b\x7f\\\xc3",
    })));
    let mut out = MemSink::new(alloc);
    let written = write_reply(&mut out, spelling, &reply).is_ok();
    written && out.bytes() == text
}

#[test]
fn names_that_forge_lines(rt: HostRuntime) {
    let alloc = rt.alloc();
    let plain = is_forged(
        alloc,
        Spelling::Plain,
        b"main 1d a\nfound 9\x1b\x7f\\\xc3\n",
    );
    let quoted = is_forged(
        alloc,
        Spelling::Quoted,
        b"main 1d a\\x0afound 9\\x1b\\x7f\\x5c\xc3\n",
    );
    assert_eq!(rt; [plain, quoted], [true; 2]);
}

fn entry(offset: u64, kind: Kind, local: bool, name: &'static [u8]) -> Entry<'static> {
    Entry {
        unit: 0,
        offset,
        tag: if kind == Kind::TypeName { 0x24 } else { 0x2e },
        kind,
        local,
        linkage: name.starts_with(b"_Z"),
        name: Text::lent(name),
        tail: 0,
    }
}

// Whether a reply with two entries is this text. The sink takes a byte, then two, and then all.
fn are_written(alloc: Global, text: &[u8]) -> Result<bool, AllocError> {
    let mut out = MemSink::new(alloc);
    out.take_at_most(1)?;
    out.take_at_most(2)?;
    let entries = [
        entry(0x13, Kind::Function, false, b"_Z1gv"),
        entry(0x2e, Kind::TypeName, true, b"int"),
    ];
    let hits = Hits {
        entries: &entries,
        places: &[0, 1],
    };
    let reply = Reply::Answer(Answer::Entries(hits));
    let written = write_reply(&mut out, Spelling::Plain, &reply).is_ok();
    Ok(written && out.bytes() == text)
}

#[test]
fn replies_with_entries(rt: HostRuntime) -> Result<(), Fail> {
    let text = b"found 2\n0 13 2e function global linkage _Z1gv\n0 2e 24 type static name int\n";
    assert!(rt; are_written(rt.alloc(), text)?);
    Ok(())
}

// Whether a reply that has one entry two hundred times is written, and by how many calls.
fn calls(alloc: Global) -> (bool, u64) {
    let entries = [entry(0x2e, Kind::TypeName, true, b"int")];
    let hits = Hits {
        entries: &entries,
        places: &[0; 200],
    };
    let mut out = MemSink::new(alloc);
    let reply = Reply::Answer(Answer::Entries(hits));
    let written = write_reply(&mut out, Spelling::Plain, &reply).is_ok();
    (written, out.calls())
}

// Lines wait for one another, so that a sink that takes all sees few calls.
#[test]
fn two_hundred_entries_take_two_writes(rt: HostRuntime) {
    assert_eq!(rt; calls(rt.alloc()), (true, 2));
}

// Whether the elements of a name and a fault of the index are written as this text.
fn are_told(alloc: Global, gdb: &GdbIndex<'_>, name: &[u8], fault: Fault, text: &[u8]) -> bool {
    let mut out = MemSink::new(alloc);
    let elements = write_elements(&mut out, Spelling::Plain, name, &gdb.find(name)).is_ok();
    let refused = write_index_fault(&mut out, fault).is_ok();
    elements && refused && out.bytes() == text
}

#[test]
fn look_ups_in_a_gdb_index(rt: HostRuntime) -> Result<(), Fail> {
    let gdb = GdbIndex::open(rt.alloc(), &GDB8).map_err(|_| "refused")?;
    let fault = Fault { code: 40, at: 0xc };
    let text = b"found 1\n0 function global main\nindex refused 40 c\n";
    assert!(rt; are_told(rt.alloc(), &gdb, b"main", fault, text));
    Ok(())
}
