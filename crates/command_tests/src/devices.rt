//! outside and index_cmd: each call of each device fails in turn, until a run has no failure. What a command gives where none fails is
//! that of its row in rows/vectors.

use crate::cases::{Case, Device};
use std::alloc::Global;
use std::process::Abort;
use std::sync::Wait;
use std::test::Fail;
use std::thread::Threads;
use test_files::indexes::{GDB8, GDB9, KEPT, NAMES};
use test_files::programs::{
    ADDRESS_TABLE, FILES_OF_VERSION_4, PLAIN, PLAIN_WITH_GDB8, WITH_BUILD_ID,
};

/// More calls than one device has in a run of these.
const MOST: u64 = 64;

/// How many bytes the output takes at most.
const SIZE: u64 = 3;

// One run, whose call with this number fails. Whether it came to that call.
fn run_once<R: Abort + Threads + Wait + Sync>(
    rt: &R,
    alloc: Global,
    case: &Case<'_>,
    device: Device,
    call: u64,
) -> Result<bool, Fail> {
    let mut outside = case.outside(alloc)?;
    for _ in 0..MOST {
        outside.out.take_at_most(SIZE)?;
    }
    device.fail(&mut outside, call)?;
    let status = outside.run(rt, alloc, case.words, &[])?;
    let has_failed = device.faults(&outside) > case.missing_of(device);
    if has_failed {
        case.assert_failed(rt, device, call, status, &outside);
    } else {
        case.assert_whole(rt, status, &outside);
    }
    Ok(has_failed)
}

// Each call of a device fails in turn. Whether there are some.
fn each_call_fails<R: Abort + Threads + Wait + Sync>(
    rt: &R,
    alloc: Global,
    case: &Case<'_>,
    device: Device,
) -> Result<bool, Fail> {
    for call in 1..=MOST {
        if !run_once(rt, alloc, case, device, call)? {
            return Ok(call > 1);
        }
    }
    Err(Fail::from("each run had a failure"))
}

// Each call of each device fails in turn. Whether there are some: reads, stores, reads of kept files, writes, and reads of the input.
fn each_device_fails<R: Abort + Threads + Wait + Sync>(
    rt: &R,
    alloc: Global,
    case: &Case<'_>,
) -> Result<[bool; 5], Fail> {
    Ok([
        each_call_fails(rt, alloc, case, Device::Read)?,
        each_call_fails(rt, alloc, case, Device::Store)?,
        each_call_fails(rt, alloc, case, Device::KeptRead)?,
        each_call_fails(rt, alloc, case, Device::Write)?,
        each_call_fails(rt, alloc, case, Device::Input)?,
    ])
}

/// A command without an input that stores nothing.
const QUIET: Case<'static> = Case {
    words: &[],
    files: &[],
    input: b"",
    text: b"",
    stored: &[],
    unstored: (4, b"store fault\n"),
    unread: b"",
    missing: 0,
};

#[test]
fn devices_of_ask(rt: HostRuntime) -> Result<(), Fail> {
    let case = Case {
        words: &["ask", "X", "name", "main"],
        files: &[("X", &PLAIN)],
        text: b"found 1\n0 1e 2e function global name main\n",
        ..QUIET
    };
    let calls = each_device_fails(&rt, rt.alloc(), &case)?;
    assert_eq!(rt; calls, [true, false, false, true, false]);
    Ok(())
}

#[test]
fn devices_of_index(rt: HostRuntime) -> Result<(), Fail> {
    let case = Case {
        words: &["index", "--as", "gdb8", "X", "Y"],
        files: &[("X", &PLAIN)],
        stored: &[("Y", &GDB8)],
        ..QUIET
    };
    let calls = each_device_fails(&rt, rt.alloc(), &case)?;
    assert_eq!(rt; calls, [true, true, false, false, false]);
    let case = Case {
        words: &["index", "--as", "gdb9", "X", "Y"],
        stored: &[("Y", &GDB9)],
        ..case
    };
    let calls = each_device_fails(&rt, rt.alloc(), &case)?;
    assert_eq!(rt; calls, [true, true, false, false, false]);
    let case = Case {
        words: &["index", "--as", "names", "X", "Y"],
        stored: &[("Y", &NAMES), ("Y.debug_str", b"main\0")],
        ..case
    };
    let calls = each_device_fails(&rt, rt.alloc(), &case)?;
    assert_eq!(rt; calls, [true, true, false, false, false]);
    Ok(())
}

#[test]
fn devices_of_add(rt: HostRuntime) -> Result<(), Fail> {
    let case = Case {
        words: &["add", "--as", "gdb8", "X", "X"],
        files: &[("X", &PLAIN)],
        stored: &[("X", &PLAIN_WITH_GDB8)],
        ..QUIET
    };
    let calls = each_device_fails(&rt, rt.alloc(), &case)?;
    assert_eq!(rt; calls, [true, true, false, false, false]);
    Ok(())
}

#[test]
fn devices_of_look(rt: HostRuntime) -> Result<(), Fail> {
    let case = Case {
        words: &["look", "gdb", "X", "name", "main"],
        files: &[("X", &GDB9)],
        text: b"found 1\n0 function global main\n",
        ..QUIET
    };
    let calls = each_device_fails(&rt, rt.alloc(), &case)?;
    assert_eq!(rt; calls, [true, false, false, true, false]);
    let case = Case {
        words: &["look", "names", "X", "S", "name", "main"],
        files: &[("X", &NAMES), ("S", b"main\0")],
        text: b"found 1\ncompile 0 1e 2e main\n",
        ..QUIET
    };
    let calls = each_device_fails(&rt, rt.alloc(), &case)?;
    assert_eq!(rt; calls, [true, false, false, true, false]);
    Ok(())
}

#[test]
fn devices_of_tables(rt: HostRuntime) -> Result<(), Fail> {
    let case = Case {
        words: &["aranges", "X"],
        files: &[("X", &ADDRESS_TABLE)],
        text: b"differs 1010 none 0\n",
        ..QUIET
    };
    let calls = each_device_fails(&rt, rt.alloc(), &case)?;
    assert_eq!(rt; calls, [true, false, false, true, false]);
    let case = Case {
        words: &["files", "X", "h.h"],
        files: &[("X", &FILES_OF_VERSION_4)],
        text: b"found 1\n0 2 1 h.h\n",
        ..QUIET
    };
    let calls = each_device_fails(&rt, rt.alloc(), &case)?;
    assert_eq!(rt; calls, [true, false, false, true, false]);
    Ok(())
}

#[test]
fn devices_of_cached(rt: HostRuntime) -> Result<(), Fail> {
    let case = Case {
        words: &["cached", "X", "c_", "name", "main"],
        files: &[("X", &WITH_BUILD_ID)],
        text: b"stored\nfound 1\n0 function global main\n",
        stored: &[("c_ab01.gdb-index", &KEPT)],
        unstored: (0, b"unsaved\nfound 1\n0 function global main\n"),
        missing: 1,
        ..QUIET
    };
    let calls = each_device_fails(&rt, rt.alloc(), &case)?;
    assert_eq!(rt; calls, [true, true, false, true, false]);
    let case = Case {
        files: &[("X", &WITH_BUILD_ID), ("c_ab01.gdb-index", &KEPT)],
        text: b"hit\nfound 1\n0 function global main\n",
        missing: 0,
        unread: b"stored\nfound 1\n0 function global main\n",
        ..case
    };
    let calls = each_device_fails(&rt, rt.alloc(), &case)?;
    assert_eq!(rt; calls, [true, false, true, true, false]);
    Ok(())
}

#[test]
fn devices_of_serve(rt: HostRuntime) -> Result<(), Fail> {
    let case = Case {
        words: &["serve", "--wait", "3", "X"],
        files: &[("X", &PLAIN)],
        input: b"main\n\nmain",
        text: b"3 main c main\n- bad query\n3 main c main\n",
        ..QUIET
    };
    let calls = each_device_fails(&rt, rt.alloc(), &case)?;
    assert_eq!(rt; calls, [true, false, false, true, true]);
    Ok(())
}

#[test]
fn devices_of_race(rt: HostRuntime) -> Result<(), Fail> {
    let case = Case {
        words: &["race", "X", "T"],
        files: &[("X", &PLAIN), ("T", b"x\n")],
        text: b"during 0\n- bad query\nduring 1\n- bad query\nafter 0\n- bad query\nafter 1\n- bad query\n",
        ..QUIET
    };
    let calls = each_device_fails(&rt, rt.alloc(), &case)?;
    assert_eq!(rt; calls, [true, false, false, true, false]);
    Ok(())
}
