//! elf_add and index_cmd: a program that is stored with its index over itself.

use crate::called::Outside;
use crate::faults::holds;
use outside::Leaves;
use std::test::Fail;
use test_files::programs::{PLAIN, PLAIN_WITH_GDB8};

const OVER_ITSELF: [&str; 5] = ["add", "--as", "gdb8", "X", "X"];

#[test]
fn a_program_gets_its_index(rt: HostRuntime) -> Result<(), Fail> {
    let mut outside = Outside::new(rt.alloc(), &PLAIN, b"", b"")?;
    let status = outside.run(&rt, rt.alloc(), &OVER_ITSELF, &[])?;
    let stored = holds(&outside.shelf, "X", &PLAIN_WITH_GDB8);
    assert_eq!(rt; (status, stored, outside.has_written(b"")), (0, true, true));
    Ok(())
}

#[test]
fn a_program_stays_where_the_store_fails(rt: HostRuntime) -> Result<(), Fail> {
    let mut outside = Outside::new(rt.alloc(), &PLAIN, b"", b"")?;
    outside.shelf.fail_store(1, Leaves::Old)?;
    let status = outside.run(&rt, rt.alloc(), &OVER_ITSELF, &[])?;
    let stays = holds(&outside.shelf, "X", &PLAIN);
    assert_eq!(rt;
        (status, stays, outside.has_written(b"store fault\n")),
        (4, true, true)
    );
    Ok(())
}
