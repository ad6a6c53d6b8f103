//! outside and index_cmd: a store, an input and an output that fail as planned, and a file that is missing.

use crate::called::Outside;
use outside::{Leaves, MemShelf};
use std::alloc::AllocError;
use std::test::Fail;
use test_files::indexes::NAMES;
use test_files::programs::PLAIN;

/// Whether the name holds these bytes.
pub(crate) fn holds(shelf: &MemShelf, name: &str, bytes: &[u8]) -> bool {
    match shelf.bytes(name) {
        Some(held) => held == bytes,
        None => false,
    }
}

// The line that says so, the index, and a prefix of its strings.
fn has_stored_once(outside: &Outside) -> bool {
    let told = outside.has_written(b"store fault\n");
    let index = holds(&outside.shelf, "Y", &NAMES);
    told && index && holds(&outside.shelf, "Y.debug_str", b"mai")
}

#[test]
fn a_second_store_that_fails(rt: HostRuntime) -> Result<(), Fail> {
    let mut outside = Outside::new(rt.alloc(), &PLAIN, b"", b"")?;
    outside.shelf.fail_store(2, Leaves::Prefix(3))?;
    let words = ["index", "--as", "names", "X", "Y"];
    let status = outside.run(&rt, rt.alloc(), &words, &[])?;
    assert_eq!(rt; (status, has_stored_once(&outside)), (4, true));
    Ok(())
}

const SERVE: [&str; 4] = ["serve", "--wait", "3", "X"];

// The first read gives a line and the begin of another, and the second fails.
fn plan_reads(outside: &mut Outside) -> Result<(), AllocError> {
    outside.input.give_at_most(7)?;
    outside.input.fail_read(2)
}

#[test]
fn a_second_read_that_fails(rt: HostRuntime) -> Result<(), Fail> {
    let mut outside = Outside::new(rt.alloc(), &PLAIN, b"", b"main\nmain\n")?;
    plan_reads(&mut outside)?;
    let status = outside.run(&rt, rt.alloc(), &SERVE, &[])?;
    let told = outside.has_written(b"3 main c main\n");
    assert_eq!(rt; (status, told), (6, true));
    Ok(())
}

fn plan_writes(outside: &mut Outside) -> Result<(), AllocError> {
    outside.out.take_at_most(5)?;
    outside.out.fail_write(2)
}

#[test]
fn a_second_write_that_fails(rt: HostRuntime) -> Result<(), Fail> {
    let mut outside = Outside::new(rt.alloc(), &PLAIN, b"", b"main\n")?;
    plan_writes(&mut outside)?;
    let status = outside.run(&rt, rt.alloc(), &SERVE, &[])?;
    assert_eq!(rt; (status, outside.has_written(b"3 mai")), (5, true));
    Ok(())
}

// Where the first file isn't there, the second isn't read.
#[test]
fn files_are_read_in_the_order_of_the_words(rt: HostRuntime) -> Result<(), Fail> {
    let mut outside = Outside::new(rt.alloc(), &PLAIN, b"main\n", b"")?;
    let words = ["look", "names", "A", "T", "name", "main"];
    let status = outside.run(&rt, rt.alloc(), &words, &[])?;
    assert_eq!(rt; (status, outside.shelf.reads()), (3, 1));
    let status = outside.run(&rt, rt.alloc(), &["race", "A", "T"], &[])?;
    assert_eq!(rt; (status, outside.shelf.reads()), (3, 2));
    Ok(())
}
