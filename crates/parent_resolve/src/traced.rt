//! What counts of an entry whose references were followed.

ghost use Rattle.std.specs.Prelude.{◌≡◌, ◌&&◌, ◌||◌, is_none, is_some, IfSome};
ghost use Rattle.parent_resolve.specs.Traced.{IsTracedAlone};

use index_model::Node;

/// What the chain and the signature of an entry give (DWARF 5, sections 2.13.2, 3.3.8 and 7.32).
#[derive(Clone, Copy)]
pub struct Traced<'f> {
    /// The joint offset of the lexical parent of the last entry of its chain.
    pub around: Option<u64>,
    /// Whether some entry of its chain is external.
    pub external: bool,
    /// The name that the file spells for it: the first on its chain, else that of the type with its signature.
    pub spelled: Option<&'f [u8]>,
    /// The first linkage name on its chain.
    pub linkage: Option<&'f [u8]>,
}

impl<'f> Traced<'f> {
    /// What counts of an entry that needs no other. Most entries are such.
    pub(crate) fn alone(node: &Node<'f>) -> Option<Traced<'f>>
        ensures { IfSome result (IsTracedAlone node.now) }
    {
        if needs_others(node) {
            return None;
        }
        Some(Traced {
            around: node.parent,
            external: node.external,
            spelled: node.name,
            linkage: node.linkage,
        })
    }
}

// Whether what an entry says depends on others: it has a reference, or a signature in place of a name.
fn needs_others(node: &Node<'_>) -> bool
    ensures { result ≡ (is_some node.now.next || (is_none node.now.name && is_some node.now.signature)) }
{
    node.next.is_some() || (node.name.is_none() && node.signature.is_some())
}
