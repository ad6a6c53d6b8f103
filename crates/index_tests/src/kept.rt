//! index_cache: the index of one small program, kept by its build-id. Faults are rows in rows/vectors.

use file_image::Sections;
use index_cache::{build_id, cache_name, make, open};
use ix_base::Fault;
use reach_model::code::KEPT_BUILD_ID;
use std::test::Fail;
use test_files::indexes::{GDB9, KEPT};
use test_files::programs::{PLAIN, WITH_BUILD_ID};

const ID: [u8; 2] = *b"\xab\x01";

#[test]
fn a_program_says_its_build_id(rt: HostRuntime) -> Result<(), Fail> {
    let with = Sections::open(rt.alloc(), &WITH_BUILD_ID).map_err(|_| "refused")?;
    let without = Sections::open(rt.alloc(), &PLAIN).map_err(|_| "refused")?;
    assert_eq!(rt;
        [build_id(&with), build_id(&without)],
        [Some(ID.as_slice()), None]
    );
    Ok(())
}

#[test]
fn an_index_is_kept_under_its_name(rt: HostRuntime) -> Result<(), Fail> {
    let name = cache_name(rt.alloc(), "c/", &ID).map_err(|_| "no memory")?;
    let kept = make(rt.alloc(), &ID, &GDB9).map_err(|_| "no memory")?;
    assert_eq!(rt;
        (name.as_str(), kept.as_slice()),
        ("c/ab01.gdb-index", KEPT.as_slice())
    );
    Ok(())
}

#[test]
fn what_was_kept_opens_with_its_build_id(rt: HostRuntime) -> Result<(), Fail> {
    let index = open(rt.alloc(), &KEPT, &ID).map_err(|_| "refused")?;
    let other = open(rt.alloc(), &KEPT, b"\xac\x01").err();
    assert_eq!(rt;
        (index.find(b"main").len(), index.find(b"mai").len()),
        (1, 0)
    );
    assert_eq!(rt;
        other,
        Some(Fault {
            code: KEPT_BUILD_ID,
            at: 0
        })
    );
    Ok(())
}
