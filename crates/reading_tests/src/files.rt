//! The files of line tables, as readelf shows them.

ghost use Rattle.ix_base.specs.declared.limits.TheConstants.{MAX_FILE_BYTES};
ghost use Rattle.std.specs.Prelude.{◌≤◌, length};

use file_image::Image;
use ix_base::{Fault, Stop};
use line_files::{FileHit, FileName, list, table};
use std::alloc::Global;
use std::test::Fail;
use std::thread::Threads;
use test_files::programs::{
    DAMAGED_LINE_TABLES, FILES_OF_THREE_UNITS, FILES_OF_VERSION_4, FILES_OF_VERSION_5,
};

type Shown<'f> = (u64, u64, &'f [u8]);

fn shown<'f>(file: &FileName<'f>) -> Shown<'f> {
    (file.index, file.dir, file.name)
}

fn is_file(file: Option<&FileName<'_>>, wanted: Shown<'_>) -> bool {
    match file {
        Some(file) => shown(file) == wanted,
        None => false,
    }
}

// Whether a file is that of this unit.
fn is_hit(hit: Option<&FileHit<'_>>, unit: u32, wanted: Shown<'_>) -> bool {
    match hit {
        Some(hit) => hit.unit == unit && is_file(Some(&hit.file), wanted),
        None => false,
    }
}

// Whether these are the files of the first unit.
fn has_files(alloc: Global, bytes: &[u8], first: Shown<'_>, second: Shown<'_>) -> Result<bool, Fail>
    requires { length bytes.now ≤ MAX_FILE_BYTES }
{
    let image = Image::open(alloc, bytes)?;
    if image.units().is_empty() {
        return Ok(false);
    }
    let files = table(alloc, &image, 0)?;
    Ok(files.len() == 2 && is_file(files.get(0), first) && is_file(files.get(1), second))
}

#[test]
fn files_of_one_unit(rt: HostRuntime) -> Result<(), Fail> {
    let old = has_files(
        rt.alloc(),
        &FILES_OF_VERSION_4,
        (1, 0, b"a.c"),
        (2, 1, b"h.h"),
    )?;
    let new = has_files(
        rt.alloc(),
        &FILES_OF_VERSION_5,
        (0, 0, b"three.h"),
        (1, 0, b"/d/four.h"),
    )?;
    assert_eq!(rt; (old, new), (true, true));
    Ok(())
}

#[test]
fn files_of_three_units(rt: HostRuntime) -> Result<(), Fail> {
    let image = Image::open(rt.alloc(), &FILES_OF_THREE_UNITS)?;
    for workers in 1..4 {
        let hits = list(&rt, rt.alloc(), &image, b"h.h", workers)?;
        let first = is_hit(hits.get(0), 0, (2, 1, b"h.h"));
        let second = is_hit(hits.get(1), 1, (2, 1, b"h.h"));
        let third = is_hit(hits.get(2), 2, (1, 1, b"sub/h.h"));
        assert_eq!(rt; (hits.len(), first, second, third), (3, true, true, true));
    }
    Ok(())
}

// The fault that stopped the listing.
fn fault_of<R: Threads + Sync>(
    rt: &R,
    alloc: Global,
    bytes: &[u8],
    workers: u32,
) -> Result<Option<Fault>, Fail>
    requires { length bytes.now ≤ MAX_FILE_BYTES }
{
    let image = Image::open(alloc, bytes)?;
    match list(rt, alloc, &image, b"h.h", workers) {
        Err(Stop::Cause(fault)) => Ok(Some(fault)),
        Err(Stop::Memory) | Ok(_) => Ok(None),
    }
}

#[test]
fn the_first_fault_in_section_order(rt: HostRuntime) -> Result<(), Fail> {
    for workers in 1..4 {
        let fault = fault_of(&rt, rt.alloc(), &DAMAGED_LINE_TABLES, workers)?;
        assert_eq!(rt; fault, Some(Fault { code: 70, at: 0x35 }));
    }
    Ok(())
}
