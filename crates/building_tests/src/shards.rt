//! shard_build.

use crate::whole::scanned;
use file_image::Image;
use index_model::{Next, Node, Shard, Span};
use shard_build::Entries;
use std::alloc::Global;
use std::test::Fail;
use test_files::programs::{STRINGS_BY_OFFSET, THREE_UNITS};

// Unit, entry and depth of a span, and where it begins and ends.
type SpanRow = (u32, u64, u32, u64, u64);

const SPANS: [SpanRow; 5] = [
    (0, 0x0c, 0, 0x13, 0x25),
    (1, 0x31, 0, 0x38, 0x3e),
    (2, 0x4a, 0, 0x51, 0x5e),
    (2, 0x51, 1, 0x55, 0x5d),
    (2, 0x55, 2, 0x58, 0x5c),
];

// A unit, and offset, parent, tag and name of a node.
type Row = (u32, u64, Option<u64>, u64, Option<&'static [u8]>);

const NODES: [Row; 8] = [
    (0, 0x0c, None, 0x11, Some(b"d.cc")),
    (0, 0x13, Some(0x0c), 0x2e, None),
    (1, 0x31, None, 0x11, Some(b"a.cc")),
    (1, 0x38, Some(0x31), 0x2e, None),
    (2, 0x4a, None, 0x11, Some(b"n.cc")),
    (2, 0x51, Some(0x4a), 0x39, Some(b"ns")),
    (2, 0x55, Some(0x51), 0x02, Some(b"C")),
    (2, 0x58, Some(0x55), 0x2e, Some(b"f")),
];

fn has_facts(node: &Node<'_>, row: &Row) -> bool {
    (node.unit, node.offset, node.parent, node.tag, node.name) == *row
}

fn has_spans(shard: &Shard<'_>) -> bool {
    let mut same = shard.spans.len() == SPANS.len();
    for (k, row) in SPANS.iter().enumerate() {
        same = same && is_span(shard.spans.get(k), row);
    }
    same
}

fn is_span(span: Option<Span>, row: &SpanRow) -> bool {
    match span {
        Some(span) => (span.unit, span.entry, span.depth, span.from, span.to) == *row,
        None => false,
    }
}

fn has_nodes(shard: &Shard<'_>, rows: &[Row]) -> bool {
    let mut same = shard.nodes.len() == rows.len();
    for (k, row) in rows.iter().enumerate() {
        same = same && is_node(shard.nodes.get(k), row);
    }
    same
}

fn is_node(node: Option<Node<'_>>, row: &Row) -> bool {
    match node {
        Some(node) => has_facts(&node, row),
        None => false,
    }
}

// Whether the shard of all units has the spans, and whether it has the nodes.
fn compared(alloc: Global, image: &Image<'_>) -> Result<(bool, bool), Fail> {
    let shards = scanned(alloc, image)?;
    let spans = has_spans(&shards[0]);
    Ok((spans, has_nodes(&shards[0], &NODES)))
}

#[test]
fn spans_and_nodes_of_three_units(rt: HostRuntime) -> Result<(), Fail> {
    let image = Image::open(rt.alloc(), &THREE_UNITS)?;
    assert_eq!(rt; compared(rt.alloc(), &image)?, (true, true));
    Ok(())
}

const MAIN: Row = (0, 0x35, Some(0x0c), 0x2e, Some(b"main"));

const ARGC: Row = (0, 0x57, Some(0x35), 0x05, Some(b"argc"));

// Whether the entry at the offset of `MAIN` has its facts.
fn has_main(entries: &mut Entries<'_, '_>, alloc: Global) -> bool {
    match entries.at(alloc, MAIN.1) {
        Ok(Some(node)) => has_facts(&node, &MAIN),
        _ => false,
    }
}

// Whether a reference within the unit names `ARGC`.
fn names_argc(entries: &mut Entries<'_, '_>, alloc: Global) -> bool {
    let reference = Next {
        target: ARGC.1,
        near: true,
    };
    match entries.named(alloc, 0, reference) {
        Ok(Some(node)) => has_facts(&node, &ARGC),
        _ => false,
    }
}

fn has_none_at(entries: &mut Entries<'_, '_>, alloc: Global, offset: u64) -> bool {
    matches!(entries.at(alloc, offset), Ok(None))
}

// The parameter has no node in the shard, so it is read again.
fn looked_up(alloc: Global, image: &Image<'_>) -> Result<[bool; 3], Fail> {
    let shards = scanned(alloc, image)?;
    let mut entries = Entries::new(image, &shards);
    let main = has_main(&mut entries, alloc);
    let argc = names_argc(&mut entries, alloc);
    Ok([main, argc, has_none_at(&mut entries, alloc, 0x58)])
}

#[test]
fn nodes_of_entries(rt: HostRuntime) -> Result<(), Fail> {
    let image = Image::open(rt.alloc(), &STRINGS_BY_OFFSET)?;
    assert_eq!(rt; looked_up(rt.alloc(), &image)?, [true; 3]);
    Ok(())
}
