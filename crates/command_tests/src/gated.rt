//! index_cmd: commands whose jobs and readers are held until others have come.

use crate::called::{asked, assert_tells, begins_after, goes_on_after};
use index_model::{Job, Moment};
use outside::GateEvent;
use std::test::Fail;
use test_files::programs::{PLAIN, TWO_DAMAGED_UNITS};

const OF_2000_UNITS: &str =
    "units 2000 entries 7001 names 4004 gdb8 230591 dbgnames 107720 30021 main main\n";

// One thread can't begin a job while it is held in another.
#[test]
fn commands_scan_on_two_threads(rt: HostRuntime) -> Result<(), Fail> {
    let begin = |run| GateEvent::Job(Job::Scan(run), Moment::Begin);
    let holds = [
        begins_after(Job::Scan(0), begin(1)),
        begins_after(Job::Scan(1), begin(0)),
    ];
    let rows: [(&[&str], &str); 3] = [
        (&["ask", "--workers", "2", "X", "main"], "main c main\n"),
        (&["index", "--as", "gdb8", "--workers", "2", "X", "Y"], ""),
        (&["drill", "7", "2000", "8"], OF_2000_UNITS),
    ];
    for (words, text) in rows {
        assert_tells(
            &rt,
            rt.alloc(),
            [&PLAIN, b""],
            b"",
            words,
            &holds,
            (0, text),
        )?;
    }
    Ok(())
}

#[test]
fn two_readers_ask_before_main_begins(rt: HostRuntime) -> Result<(), Fail> {
    let holds = [
        begins_after(Job::Main, asked(0, 1)),
        begins_after(Job::Main, asked(1, 1)),
    ];
    let words = ["race", "--readers", "2", "X", "T"];
    let text =
        "during 0\n0 pending\nduring 1\n0 pending\nafter 0\n3 main c main\nafter 1\n3 main c main\n";
    let files = [PLAIN.as_slice(), b"main\n"];
    assert_tells(&rt, rt.alloc(), files, b"", &words, &holds, (0, text))
}

#[test]
fn a_reader_sees_the_stages_in_order(rt: HostRuntime) -> Result<(), Fail> {
    let holds = [
        begins_after(Job::Main, asked(0, 1)),
        goes_on_after(1, Job::Merge),
        begins_after(Job::Write, asked(0, 3)),
    ];
    let files = [PLAIN.as_slice(), b"main\nname x\ncache\n"];
    let words = ["race", "--readers", "1", "X", "T"];
    let text =
        "during 0\n0 pending\n2 found 0\n2 pending\nafter 0\n3 main c main\n3 found 0\n3 cache 89\n";
    assert_tells(&rt, rt.alloc(), files, b"", &words, &holds, (0, text))
}

const SERVE: [&str; 4] = ["serve", "--workers", "1", "X"];

#[test]
fn a_session_before_main_begins_and_after_write_ends(rt: HostRuntime) -> Result<(), Fail> {
    let holds = [
        begins_after(Job::Main, asked(0, 1)),
        goes_on_after(1, Job::Write),
    ];
    let input = b"main\nmain\ncache\n";
    let want = (0, "0 pending\n3 main c main\n3 cache 89\n");
    assert_tells(&rt, rt.alloc(), [&PLAIN, b""], input, &SERVE, &holds, want)
}

// The ten units are cut into four runs, of which the second has the first fault and the last is held.
#[test]
fn a_session_before_a_fault_is_found_and_after_it(rt: HostRuntime) -> Result<(), Fail> {
    let holds = [
        begins_after(Job::Scan(3), asked(0, 1)),
        goes_on_after(1, Job::Scan(3)),
    ];
    let files = [TWO_DAMAGED_UNITS.as_slice(), b""];
    let want = (1, "0 pending\n4 refused 11 60\n");
    assert_tells(
        &rt,
        rt.alloc(),
        files,
        b"main\nmain\n",
        &SERVE,
        &holds,
        want,
    )
}
