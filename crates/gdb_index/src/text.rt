//! The text of a component, which many names share.

ghost use Rattle.std.specs.Prelude.{◌≡◌, IfOk};
ghost use Rattle.cxx_spelling.specs.Spelling.{spelling_bytes};
ghost use Rattle.gdb_index.specs.Texts.{text_bytes};

use cxx_spelling::SpelledName;
use ix_base::NoMemory;
use std::alloc::Global;
use std::sync::Arc;

/// The text of a component.
#[derive(Drop)]
pub(crate) enum ComponentText<'f> {
    /// As it stands in the file.
    Lent(&'f [u8]),
    /// Spelled anew.
    Shared(Arc<Vec<u8>>),
}

impl<'f> ComponentText<'f> {
    /// A spelled name, which can be shared from then on.
    pub fn of(alloc: Global, name: SpelledName<'f>) -> Result<ComponentText<'f>, NoMemory>
        ensures { IfOk result (λ text. text_bytes text ≡ spelling_bytes name.entry) }
    {
        match name {
            SpelledName::Lent(bytes) => Ok(ComponentText::Lent(bytes)),
            SpelledName::Owned(text) => Ok(ComponentText::Shared(Arc::new(alloc, text)?)),
        }
    }

    /// The bytes.
    pub fn bytes(&self) -> &[u8]
        ensures { result.now ≡ text_bytes self.now }
    {
        match self {
            ComponentText::Lent(bytes) => bytes,
            ComponentText::Shared(text) => text.as_slice(),
        }
    }

    /// The same text, held once more.
    pub fn share(&self) -> Result<ComponentText<'f>, NoMemory>
        ensures { IfOk result (λ text. text_bytes text ≡ text_bytes self.now) }
    {
        match self {
            ComponentText::Lent(bytes) => Ok(ComponentText::Lent(bytes)),
            ComponentText::Shared(text) => Ok(ComponentText::Shared(Arc::try_clone(text)?)),
        }
    }
}
