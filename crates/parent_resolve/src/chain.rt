//! The chain of an entry: what its specification or abstract origin names, what that one's names, and so on (DWARF 5, sections
//! 2.13.2 and 3.3.8.1).

ghost use Rattle.std.specs.Prelude.{◌≡◌};
ghost use Rattle.index_model.specs.Chains.{chain_of, next_of};
ghost use Rattle.index_model.specs.Gives.{GivesFor};
ghost use Rattle.index_model.specs.Meaning.{at_place};
ghost use Rattle.parent_resolve.specs.Chained.{BeginsWith, ForReferrer, GoesOnWith, IsChain, IsNext};
ghost use Rattle.parent_resolve.specs.Followed.{ForEntry};

use index_model::{Next, Node};
use ix_base::code::{BAD_REFERENCE, REFERENCE_CHAIN};
use ix_base::{Fault, MAX_CHAIN_HOPS, Stop};
use shard_build::Entries;
use std::alloc::Global;

/// What the entries of a chain say. Of the last one no more is kept than where the chain and a scope path go on.
#[derive(Clone, Copy)]
pub(crate) struct Chain<'f> {
    /// The number of the last one's unit.
    pub(crate) unit: u32,
    /// What the last one refers to.
    pub(crate) next: Option<Next>,
    /// The joint offset of the last one's lexical parent.
    pub(crate) around: Option<u64>,
    /// Whether one of them is external.
    pub(crate) external: bool,
    /// The first own name.
    pub(crate) name: Option<&'f [u8]>,
    /// The first linkage name.
    pub(crate) linkage: Option<&'f [u8]>,
}

impl<'f> Chain<'f> {
    // The chain of one entry alone.
    fn of(node: &Node<'f>) -> Chain<'f>
        ensures { BeginsWith node.now result }
    {
        Chain {
            unit: node.unit,
            next: node.next,
            around: node.parent,
            external: node.external,
            name: node.name,
            linkage: node.linkage,
        }
    }

    // The chain with one more entry.
    fn with(&self, node: &Node<'f>) -> Chain<'f>
        ensures { GoesOnWith self.now node.now result }
    {
        Chain {
            unit: node.unit,
            next: node.next,
            around: node.parent,
            external: self.external || node.external,
            name: self.name.or(node.name),
            linkage: self.linkage.or(node.linkage),
        }
    }
}

/// The chain of an entry, of 8 hops at most. A target is looked up before its hop is counted. A fault has the place `at`: a
/// reference that names no entry (code 16), or a hop too many (17).
pub(crate) fn chain_of<'f>(
    entries: &mut Entries<'_, 'f>,
    alloc: Global,
    node: &Node<'f>,
    at: u64,
) -> Result<Chain<'f>, Stop>
    ensures value { ForEntry entries.old node.now (λ p d. GivesFor (IsChain p d) result (at_place at (chain_of p d))) }
    ensures kept { entries.new ≡ entries.old }
{
    let mut chain = Chain::of(node);
    let mut hops = 0;
    while let Some(target) = next_of(entries, alloc, chain.unit, chain.next, at)? {
        if hops == MAX_CHAIN_HOPS {
            return Err(Stop::Cause(Fault {
                code: REFERENCE_CHAIN,
                at,
            }));
        }
        chain = chain.with(&target);
        hops += 1;
    }
    Ok(chain)
}

// The entry that the reference of a unit's entry names, if it has one.
fn next_of<'f>(
    entries: &mut Entries<'_, 'f>,
    alloc: Global,
    unit: u32,
    next: Option<Next>,
    at: u64,
) -> Result<Option<Node<'f>>, Stop>
    ensures value { ForReferrer entries.old unit next (λ p d. GivesFor (IsNext p) result (at_place at (next_of p d))) }
    ensures kept { entries.new ≡ entries.old }
{
    let Some(reference) = next else {
        return Ok(None);
    };
    match entries.named(alloc, unit, reference)? {
        Some(target) => Ok(Some(target)),
        None => Err(Stop::Cause(Fault {
            code: BAD_REFERENCE,
            at,
        })),
    }
}
