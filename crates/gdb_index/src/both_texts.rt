//! The text of a component as each release of gdb spells it.

ghost use Rattle.std.specs.Prelude.{◌≡◌, IfOk};
ghost use Rattle.cxx_spelling.specs.declared.release.Release.{Release as ReleaseOf};
ghost use Rattle.gdb_names.specs.Both.{text_by as name_by};
ghost use Rattle.gdb_index.specs.Texts.{text_by};

use crate::text::ComponentText;
use cxx_spelling::Release;
use gdb_names::BothNames;
use ix_base::NoMemory;
use std::alloc::Global;

/// The text of a component.
#[derive(Drop)]
pub(crate) struct BothTexts<'f> {
    /// As gdb 13 spells it.
    pub older: ComponentText<'f>,
    /// As gdb 16 does, where that is another text.
    pub newer: Option<ComponentText<'f>>,
}

impl<'f> BothTexts<'f> {
    /// A spelled name, which can be shared from then on.
    pub fn of(alloc: Global, name: BothNames<'f>) -> Result<BothTexts<'f>, NoMemory>
        ensures { IfOk result (λ texts. (release : ReleaseOf) → text_by release texts ≡ name_by release name.entry) }
    {
        let older = ComponentText::of(alloc, name.older)?;
        let newer = match name.newer {
            Some(name) => Some(ComponentText::of(alloc, name)?),
            None => None,
        };
        Ok(BothTexts { older, newer })
    }

    /// The bytes by a release.
    pub fn bytes(&self, release: Release) -> &[u8]
        ensures { result.now ≡ text_by release self.now }
    {
        match (release, &self.newer) {
            (Release::Gdb16, Some(text)) => text.bytes(),
            _ => self.older.bytes(),
        }
    }

    /// How many bytes both releases' texts have.
    pub fn size(&self) -> u64 {
        let newer = self
            .newer
            .as_ref()
            .map_or(0, |text| text.bytes().len() as u64);
        newer.saturating_add(self.older.bytes().len() as u64)
    }

    /// The same texts, held once more.
    pub fn share(&self) -> Result<BothTexts<'f>, NoMemory>
        ensures { IfOk result (λ texts. (release : ReleaseOf) → text_by release texts ≡ text_by release self.now) }
    {
        let newer = match &self.newer {
            Some(text) => Some(text.share()?),
            None => None,
        };
        Ok(BothTexts {
            older: self.older.share()?,
            newer,
        })
    }
}
