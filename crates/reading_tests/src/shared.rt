//! index_model: what shards say of parents and languages.

use index_model::{
    Import, List, Node, NodesSoFar, OwnFacts, Places, Root, Shard, SmallNode, Span, Spans, Text,
    TextBytes, language,
};
use std::alloc::{AllocError, Global};
use std::sync::Arc;
use std::test::Fail;

fn holds(text: Text<'_>, bytes: &[u8]) -> bool {
    text.bytes() == bytes
}

#[test]
fn texts_keep_their_bytes(rt: HostRuntime) -> Result<(), AllocError> {
    let lent = holds(Text::lent(b"main"), b"main");
    let name = Vec::from_slice(rt.alloc(), b"n::t")?;
    let owned = holds(Text::owned(name), b"n::t");
    assert_eq!(rt; (lent, owned), (true, true));
    Ok(())
}

fn list<T: Copy>(alloc: Global, items: &[T]) -> Result<List<T>, AllocError> {
    Ok(List::of(Vec::from_slice(alloc, items)?))
}

// A span of the third unit.
fn span(entry: u64, depth: u32, from: u64, to: u64) -> Span {
    Span {
        unit: 2,
        entry,
        depth,
        from,
        to,
    }
}

// No nodes of a file of which nothing is kept but two strings.
fn no_nodes(alloc: Global) -> NodesSoFar<'static> {
    let bytes = TextBytes {
        file: &[],
        strings: b"main\0add\0",
    };
    NodesSoFar::new(alloc, bytes)
}

// A node of a declaration, by the offsets of its texts.
fn small_node(name: u64, linkage: u64) -> SmallNode {
    SmallNode {
        unit: 0,
        offset: 0xb,
        parent: None,
        tag: 0x2e,
        own: OwnFacts {
            declaration: true,
            external: false,
            enum_class: false,
            main: false,
            address: false,
            value: false,
        },
        name: Some(name),
        linkage: Some(linkage),
        next: None,
    }
}

// Whether the small node was added, and its texts.
fn small_texts(
    alloc: Global,
    small: &SmallNode,
) -> Result<(bool, [Option<&'static [u8]>; 2]), Fail> {
    let mut own = no_nodes(alloc);
    let added = own.push_small(small)?;
    let texts = match own.finish().get(0) {
        Some(node) => [node.name, node.linkage],
        None => [None; 2],
    };
    Ok((added, texts))
}

#[test]
fn a_small_nodes_texts_are_strings(rt: HostRuntime) -> Result<(), Fail> {
    let strings: [Option<&'static [u8]>; 2] = [Some(b"main"), Some(b"add")];
    assert_eq!(rt;
        small_texts(rt.alloc(), &small_node(0, 5))?,
        (true, strings)
    );
    let behind: [Option<&'static [u8]>; 2] = [Some(b"dd"), None];
    assert_eq!(rt; small_texts(rt.alloc(), &small_node(6, 9))?, (true, behind));
    assert_eq!(rt;
        small_texts(rt.alloc(), &small_node(1 << 32, 5))?,
        (false, [None; 2])
    );
    Ok(())
}

// The parents at three places in a shard of the third unit with these spans.
fn parents(alloc: Global, spans: &[Span]) -> Result<[Option<u64>; 3], Fail> {
    let mut own = Spans::new(alloc);
    for span in spans {
        own.push(*span)?;
    }
    let shard = Shard {
        first: 2,
        roots: List::of(Vec::new(alloc)),
        nodes: no_nodes(alloc).finish(),
        spans: own,
        imports: List::of(Vec::new(alloc)),
    };
    Ok([
        shard.parent_at(0x4a),
        shard.parent_at(0x58),
        shard.parent_at(0x5c),
    ])
}

// The root has a namespace, which has a class, which has a function.
#[test]
fn a_parent_is_the_innermost_around_an_entry(rt: HostRuntime) -> Result<(), Fail> {
    let spans = [
        span(0x4a, 0, 0x51, 0x5e),
        span(0x51, 1, 0x55, 0x5d),
        span(0x55, 2, 0x58, 0x5c),
    ];
    let parents = parents(rt.alloc(), &spans)?;
    assert_eq!(rt; parents, [None, Some(0x55), Some(0x51)]);
    Ok(())
}

fn root(language: Option<u16>, partial: bool) -> Root {
    Root {
        language,
        addr_base: None,
        rnglists_base: None,
        partial,
    }
}

// The node of a unit's root.
fn node(unit: u32, offset: u64) -> Node<'static> {
    Node {
        unit,
        offset,
        parent: None,
        tag: 0x3c,
        declaration: false,
        external: false,
        enum_class: false,
        main: false,
        address: false,
        value: false,
        name: None,
        linkage: None,
        next: None,
        signature: None,
        low: None,
        high: None,
        ranges: None,
    }
}

// A shard of units that have these roots.
fn shard(
    alloc: Global,
    roots: &[Root],
    nodes: &[Node<'static>],
    imports: &[Import],
) -> Result<Shard<'static>, Fail> {
    let roots = list(alloc, roots)?;
    let mut own = no_nodes(alloc);
    for node in nodes {
        own.push(
            node,
            Places {
                name: 0,
                linkage: 0,
            },
        )?;
    }
    let imports = list(alloc, imports)?;
    Ok(Shard {
        first: 0,
        roots,
        nodes: own.finish(),
        spans: Spans::new(alloc),
        imports,
    })
}

// The language of the first unit of a shard.
fn first_language(alloc: Global, shard: Shard<'static>) -> Result<u16, AllocError> {
    let shards = [Arc::new(alloc, shard)?];
    Ok(language(&shards, 0))
}

// The first unit is partial, and the second imports it and is in Ada.
#[test]
fn a_partial_unit_has_its_importers_language(rt: HostRuntime) -> Result<(), Fail> {
    let import = Import {
        unit: 1,
        target: 0xc,
    };
    let roots = [root(None, true), root(Some(0xd), false)];
    let nodes = [node(0, 0xc), node(1, 0x2c)];
    let shard = shard(rt.alloc(), &roots, &nodes, &[import])?;
    assert_eq!(rt; first_language(rt.alloc(), shard)?, 0xd);
    Ok(())
}
