//! Names of Ada with the form that gdb 13 decodes them to, and with the one in which it lists them in an index that it writes.

use ada_spelling::{decode, encode};
use std::alloc::{AllocError, Global};
use std::process::Abort;
use std::test::Fail;

type Row = (&'static [u8], &'static [u8]);

// What `info functions` shows of symbols with these names.
const AROUND: &[Row] = &[
    (b"_ada_demo", b"demo"),
    (b".a__b", b"a.b"),
    (b"___ghost_a__b", b"a.b"),
    (b"_ada____ghost_a", b"a"),
    (b"a__b.cold", b"a.b[cold]"),
    (b"a__b.", b"a.b[]"),
    (b"a__b.constprop.0", b"a.b.constprop"),
    (b"$5.cold", b"[cold]"),
];

const ENDS: &[Row] = &[
    (b"pkg__proc__2", b"pkg.proc"),
    (b"pkg__proc$2", b"pkg.proc"),
    (b"a__b.5", b"a.b"),
    (b"a__b__12_3", b"a.b"),
    (b"a__1__2", b"a"),
    (b"a___2", b"a"),
    (b"a__getN", b"a.get"),
    (b"a__b___XR12", b"a.b"),
    (b"a__b___", b"a.b._"),
    (b"worker__taskTKB", b"worker.task"),
    (b"workerTB", b"worker"),
    (b"bodyB", b"body"),
    (b"a__bN__2", b"a.b"),
];

const MARKS: &[Row] = &[
    (b"a__tTK__e", b"a.t.e"),
    (b"a__B_1__inner", b"a.inner"),
    (b"a__wait_E28b", b"a.wait"),
    (b"a__e_E2s__c", b"a.e.c"),
    (b"a__bN__c", b"a.b.c"),
    (b"aN__b", b"a.b"),
    (b"a__N__b", b"a..b"),
    (b"aX", b"a"),
    (b"aXb", b"a"),
    (b"a__bXnb", b"a.b"),
];

const PARTS: &[Row] = &[
    (b"a", b"a"),
    (b"a__b__c", b"a.b.c"),
    (b"a_b__c", b"a_b.c"),
    (b"a__9b", b"a.9b"),
    (b"9__b", b"9__b"),
    (b"a__", b"a__"),
];

// What it shows as it stands, since it isn't one of Ada's coding.
const REFUSED: &[&[u8]] = &[
    b"__line",
    b"_a",
    b"<a",
    b"a__b___Y12",
    b"a___b",
    b"a____b",
    b"a___b___c",
    b"aXx",
    b"aXb__c",
];

// How names are listed.
const LISTED: &[Row] = &[
    (b"a__b__c__2", b"a__b__c"),
    (b"_ada_demo", b"demo"),
    (b"a__B_22", b"a__B_22"),
    (b"a__B_22__B_3__b", b"a__B_3__b"),
    (b"aTKBTB", b"aTK"),
    (b"a__putP", b"a__putP"),
    (b"a_bN__c", b"a_bN__c"),
    (b"Xb", b"Xb"),
    (b"a_Xb", b"a_Xb"),
    (b"aTK__", b"aTK__"),
    (b"a__wait__B27s", b"a__wait__B27s"),
    (b"a__b___Y12", b"a__b___Y12"),
    (b"a__b.cold", b"a__b.cold"),
    (b"$5.cold", b".cold"),
    (b"_ada_", b"_ada_"),
    (b"a.b.c", b"a__b.c"),
    (b"a__b.co1d", b"a__b__co1d"),
    (b"a[b]", b"a.b"),
    (b"a__b[cold", b"a__b.cold"),
    (b"a__b[co1d]", b"a__b[co1d]"),
    (b"a__b[]", b"a__b."),
    (b"[", b"."),
];

fn are_decoded(rt: &impl Abort, alloc: Global, rows: &[Row]) -> Result<(), Fail> {
    for row in rows {
        let text = decode(alloc, row.0)?.expect(rt, "a name of Ada");
        assert_eq!(rt; text.as_slice(), row.1);
    }
    Ok(())
}

// A name as it is listed: where it can't be decoded, it stands for itself.
fn listed(alloc: Global, name: &[u8]) -> Result<Vec<u8>, AllocError> {
    match decode(alloc, name)? {
        Some(text) => encode(alloc, text.as_slice()),
        None => encode(alloc, name),
    }
}

#[test]
fn around(rt: HostRuntime) -> Result<(), Fail> {
    are_decoded(&rt, rt.alloc(), AROUND)
}

#[test]
fn ends(rt: HostRuntime) -> Result<(), Fail> {
    are_decoded(&rt, rt.alloc(), ENDS)
}

#[test]
fn marks(rt: HostRuntime) -> Result<(), Fail> {
    are_decoded(&rt, rt.alloc(), MARKS)
}

#[test]
fn parts(rt: HostRuntime) -> Result<(), Fail> {
    are_decoded(&rt, rt.alloc(), PARTS)
}

#[test]
fn refused_names_of_ada(rt: HostRuntime) -> Result<(), Fail> {
    for name in REFUSED {
        assert!(rt; decode(rt.alloc(), name)?.is_none());
    }
    Ok(())
}

#[test]
fn listed_names_of_ada(rt: HostRuntime) -> Result<(), Fail> {
    for row in LISTED {
        let text = listed(rt.alloc(), row.0)?;
        assert_eq!(rt; text.as_slice(), row.1);
    }
    Ok(())
}
