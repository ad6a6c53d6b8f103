//! qualified_names and name_forms.

use crate::whole::{linked, scanned};
use file_image::Image;
use index_model::{Entry, Main, Run};
use name_forms::{ada, ada_length, ada_tail, scoped, scoped_length};
use qualified_names::{main_of, run_of};
use std::alloc::Global;
use std::test::Fail;
use test_files::programs::{LINKAGE_NAME, MAIN_MARK, THREE_UNITS};

// Offset, name, and how long the simple part of the name is.
type Row = (u64, &'static [u8], u32);

fn is(entry: &Entry<'_>, row: &Row) -> bool {
    (entry.offset, entry.name.bytes(), entry.tail) == *row
}

// Whether the entries are the rows.
fn are(entries: &[Entry<'_>], rows: &[Row]) -> bool {
    let mut same = entries.len() == rows.len();
    for (entry, row) in entries.iter().zip(rows) {
        same = same && is(entry, row);
    }
    same
}

// The entries of a file.
fn entries<'f>(alloc: Global, image: &Image<'f>) -> Result<Run<'f>, Fail> {
    let shards = scanned(alloc, image)?;
    let links = linked(alloc, image, &shards)?;
    Ok(run_of(alloc, image, &shards, &links, 0)?)
}

// Its main program.
fn main_program<'f>(alloc: Global, image: &Image<'f>) -> Result<Option<Main<'f>>, Fail> {
    let shards = scanned(alloc, image)?;
    let links = linked(alloc, image, &shards)?;
    Ok(main_of(alloc, image, &shards, &links)?)
}

fn has_entries(alloc: Global, image: &Image<'_>, rows: &[Row]) -> Result<bool, Fail> {
    let run = entries(alloc, image)?;
    Ok(are(run.as_slice(), rows))
}

#[test]
fn scopes_stand_before_names(rt: HostRuntime) -> Result<(), Fail> {
    let image = Image::open(rt.alloc(), &THREE_UNITS)?;
    let rows: [Row; 3] = [
        (0x13, b"ns::C::f", 1),
        (0x51, b"ns", 2),
        (0x55, b"ns::C", 1),
    ];
    assert!(rt; has_entries(rt.alloc(), &image, &rows)?);
    Ok(())
}

#[test]
fn a_linkage_name_stands_behind_the_own(rt: HostRuntime) -> Result<(), Fail> {
    let image = Image::open(rt.alloc(), &LINKAGE_NAME)?;
    let rows: [Row; 2] = [(0x13, b"g", 1), (0x13, b"_Z1gv", 0)];
    assert!(rt; has_entries(rt.alloc(), &image, &rows)?);
    Ok(())
}

fn says(main: &Option<Main<'_>>, language: u16, name: &[u8]) -> bool {
    match main {
        Some(main) => main.language == language && main.name.bytes() == name,
        None => false,
    }
}

fn has_main(alloc: Global, image: &Image<'_>, language: u16, name: &[u8]) -> Result<bool, Fail> {
    let main = main_program(alloc, image)?;
    Ok(says(&main, language, name))
}

#[test]
fn the_main_program_says_so(rt: HostRuntime) -> Result<(), Fail> {
    let image = Image::open(rt.alloc(), &MAIN_MARK)?;
    assert!(rt; has_main(rt.alloc(), &image, 0x22, b"start")?);
    Ok(())
}

const CODED: &[u8; 10] = b"a__b_c__12";

fn is_decoded(alloc: Global, name: &[u8]) -> Result<bool, Fail> {
    let decoded = ada(alloc, CODED)?;
    Ok(decoded.as_slice() == name)
}

// As GNAT codes them: a suffix of digits goes, and an underscore is a part of a name.
#[test]
fn coded_names(rt: HostRuntime) -> Result<(), Fail> {
    let decoded = is_decoded(rt.alloc(), b"a.b_c")?;
    let lengths = (ada_length(CODED), ada_tail(CODED));
    assert_eq!(rt; (decoded, lengths), (true, (5, 3)));
    Ok(())
}

// A package and a subprogram as GNAT codes them, joined by these bytes.
fn joined(alloc: Global, joint: &[u8]) -> Result<Vec<u8>, Fail> {
    let mut name = Vec::new(alloc);
    name.extend_from_slice(&[b'p'; 200])?;
    name.extend_from_slice(joint)?;
    name.extend_from_slice(&[b's'; 100])?;
    Ok(name)
}

// A coded name has no greatest length.
#[test]
fn long_coded_names(rt: HostRuntime) -> Result<(), Fail> {
    let coded = joined(rt.alloc(), b"__")?;
    let decoded = ada(rt.alloc(), &coded)? == joined(rt.alloc(), b".")?;
    let lengths = (ada_length(&coded), ada_tail(&coded));
    assert_eq!(rt; (decoded, lengths), (true, (301, 100)));
    Ok(())
}

const PATH: [Option<&'static [u8]>; 3] = [Some(b"inner"), Some(b"outer"), None];

fn is_scoped(alloc: Global, name: &[u8]) -> Result<bool, Fail> {
    let scoped = scoped(alloc, &PATH, b"f")?;
    Ok(scoped.as_slice() == name)
}

#[test]
fn scoped_names(rt: HostRuntime) -> Result<(), Fail> {
    let scoped = is_scoped(rt.alloc(), b"outer::inner::f")?;
    assert_eq!(rt; (scoped, scoped_length(&PATH, b"f")), (true, 15));
    Ok(())
}
