//! The references of a file's entries.

ghost use Rattle.std.specs.Prelude.{◌≡◌, map, IfOk};
ghost use Rattle.std.specs.Arc.{arc_value};
ghost use Rattle.index_model.specs.Chains.{name_by_signature};
ghost use Rattle.index_model.specs.Gives.{GivesFor};
ghost use Rattle.index_model.specs.Meaning.{at_place};
ghost use Rattle.index_model.specs.Program.{item_with_offset};
ghost use Rattle.shard_build.specs.Entries.{AreShardsOfFile, ForProgram, IsNodeIn};
ghost use Rattle.parent_resolve.specs.Followed.{ForEntry, IsText, followed_of};
ghost use Rattle.parent_resolve.specs.Signed.{AreTypeUnitsOf};
ghost use Rattle.parent_resolve.specs.Traced.{IsTraced};

use crate::chain::chain_of;
use crate::signatures::Signatures;
use crate::traced::Traced;
use file_image::Image;
use index_model::{Next, Node, Shard};
use ix_base::code::BAD_REFERENCE;
use ix_base::{Fault, NoMemory, Stop};
use shard_build::Entries;
use std::alloc::Global;
use std::marker::Model;
use std::sync::Arc;

/// The references of a file's entries, by its image and by the shards of all its units.
#[derive(Drop)]
pub struct References<'s, 'f> {
    entries: Entries<'s, 'f>,
    signatures: Signatures,
}

impl<'s, 'f> Model for References<'s, 'f> {
    ghost use Rattle.shard_build.specs.Entries.{EntriesOf};
    ghost use Rattle.parent_resolve.specs.Signed.{AreTypeUnitsOf};

    ghost Value = { EntriesOf };

    ghost view = { λ r. r.entries };

    ghost invariant = { λ r. AreTypeUnitsOf r.entries.image r.signatures.units.items };
}

impl<'s, 'f> References<'s, 'f> {
    /// The references of a file's entries. The shards are those of consecutive runs that make up all its units.
    pub fn new(
        alloc: Global,
        image: &'s Image<'f>,
        shards: &'s [Arc<Shard<'f>>],
    ) -> Result<References<'s, 'f>, NoMemory>
        requires { AreShardsOfFile image.now (map arc_value shards.now) }
        ensures { IfOk result (λ r. r ≡ record { image = image.now; shards = map arc_value shards.now }) }
    {
        let signatures = Signatures::of(alloc, image.units())?;
        Ok(References {
            entries: Entries::new(image, shards),
            signatures,
        })
    }

    /// The image of the file.
    pub fn image(&self) -> &'s Image<'f>
        ensures { result.now ≡ self.now.image }
    {
        self.entries.image()
    }

    /// The shards.
    pub fn shards(&self) -> &'s [Arc<Shard<'f>>]
        ensures { map arc_value result.now ≡ self.now.shards }
    {
        self.entries.shards()
    }

    /// The node of the entry at a joint offset, None where no entry of the file stands there.
    pub fn at(&mut self, alloc: Global, offset: u64) -> Result<Option<Node<'f>>, NoMemory>
        ensures value { ForProgram self.old (λ p. IfOk result (λ n. IsNodeIn p.sections n (item_with_offset p offset))) }
        ensures kept { self.new ≡ self.old }
    {
        self.entries.at(alloc, offset)
    }

    /// The chain of an entry (DWARF 5, sections 2.13.2 and 3.3.8.1), and the name that the file spells for it: the first on
    /// the chain, else that of the type unit with the entry's own signature (section 7.32). A fault has the place `at`: a
    /// reference that names no entry (code 16), or a chain of more than 8 hops (17).
    pub fn follow(&mut self, alloc: Global, node: &Node<'f>, at: u64) -> Result<Traced<'f>, Stop>
        ensures value { ForEntry self.old node.now (λ p d. GivesFor (IsTraced p d) result (at_place at (followed_of p d))) }
        ensures kept { self.new ≡ self.old }
    {
        let chain = chain_of(&mut self.entries, alloc, node, at)?;
        let spelled = match chain.name {
            Some(name) => Some(name),
            None => name_by_signature(&mut self.entries, &self.signatures, alloc, node, at)?,
        };
        Ok(Traced {
            around: chain.around,
            external: chain.external,
            spelled,
            linkage: chain.linkage,
        })
    }
}

// The name of the type with the entry's own signature.
fn name_by_signature<'f>(
    entries: &mut Entries<'_, 'f>,
    signatures: &Signatures,
    alloc: Global,
    node: &Node<'f>,
    at: u64,
) -> Result<Option<&'f [u8]>, Stop>
    requires { AreTypeUnitsOf entries.old.image signatures.now.units.items }
    ensures value { ForEntry entries.old node.now (λ p d. GivesFor IsText result (at_place at (name_by_signature p d))) }
    ensures kept { entries.new ≡ entries.old }
{
    let Some(signature) = node.signature else {
        return Ok(None);
    };
    let Some(unit) = signatures.find(signature) else {
        return Ok(None);
    };
    let reference = Next {
        target: unit.type_offset,
        near: true,
    };
    match entries.named(alloc, unit.unit, reference)? {
        Some(node) => Ok(node.name),
        None => Err(Stop::Cause(Fault {
            code: BAD_REFERENCE,
            at,
        })),
    }
}
