//! Full names of the items of a file.

ghost use Rattle.std.specs.Prelude.{◌≡◌, true, false, IfOk, Some};
ghost use Rattle.gdb_entries.specs.Classes.{is_ada};
ghost use Rattle.gdb_entries.specs.Names.{full_name};
ghost use Rattle.gdb_entries.specs.Owners.{class_read};
ghost use Rattle.gdb_items.specs.Chains.{IsChainOf, StandsAt};
ghost use Rattle.gdb_names.specs.Both.{AreBoth};
ghost use Rattle.gdb_scopes.specs.Places.{ForItem, IsSeenIn};
ghost use Rattle.gdb_index.specs.Kept.{AreTextsOf};

use crate::front::Front;
use crate::step::Step;
use crate::turned::TurnedTexts;
use gdb_entries::LanguageClass;
use gdb_items::Chain;
use gdb_names::{BothNames, ada_full_name};
use gdb_scopes::{FilePlaces, SeenItem};
use gdb_texts::SpelledTexts;
use indexmap::IndexMap;
use ix_base::NoMemory;
use reading_limit::ReadingLimit;
use std::alloc::Global;
use std::marker::Model;

/// The names of the items of a file without a fault. What stands before them is formed once. Contracts see the image of the file.
#[derive(Drop)]
pub struct FileNames<'s, 'r, 'f> {
    pub(crate) places: FilePlaces<'s, 'r, 'f>,
    pub(crate) texts: &'r SpelledTexts<'s, 'f>,
    // The steps of paths that were made, by the joint offsets of their items.
    pub(crate) steps: IndexMap<u64, Step<'f>>,
    // What scopes put before names, by the joint offsets of their items.
    pub(crate) fronts: IndexMap<u64, Front>,
    // How many bytes may still be put together.
    to_form: ReadingLimit,
}

impl<'s, 'r, 'f> Model for FileNames<'s, 'r, 'f> {
    ghost use Rattle.file_image.specs.Images.{Image as ImageOf};
    ghost use Rattle.gdb_index.specs.Kept.{AreKept};

    ghost Value = { ImageOf };

    ghost view = { λ e. e.places };

    ghost invariant = { λ e. AreKept e.places.file e.texts.now e.steps e.fronts };
}

impl<'s, 'r, 'f> FileNames<'s, 'r, 'f> {
    /// The names of a file's items, before any is formed. So many bytes may be put together.
    pub fn new(
        alloc: Global,
        places: FilePlaces<'s, 'r, 'f>,
        texts: &'r SpelledTexts<'s, 'f>,
        to_form: ReadingLimit,
    ) -> FileNames<'s, 'r, 'f>
        requires { AreTextsOf places.file texts.now }
        ensures { result ≡ places.entry }
    {
        FileNames {
            places,
            texts,
            steps: IndexMap::new(alloc),
            fronts: IndexMap::new(alloc),
            to_form,
        }
    }

    /// How many bytes may still be put together.
    pub(crate) fn to_form(&self) -> ReadingLimit {
        self.to_form
    }

    /// Takes in that so many bytes are put together.
    pub(crate) fn count_formed(&mut self, bytes: u64) -> Result<(), NoMemory>
        ensures { self.new ≡ self.old }
    {
        self.to_form.take(bytes).ok_or(NoMemory)
    }

    /// The full name of an item with this name that is looked at in a unit of this class, and whose chain this is: the name is spelled and
    /// stands behind the components of the item's scope path, and in Ada it is decoded as far as can be, and encoded. It is lent where
    /// nothing changes.
    pub fn full_name(
        &mut self,
        alloc: Global,
        class: LanguageClass,
        seen: &SeenItem<'f>,
        chain: &Chain<'f>,
        name: &'f [u8],
    ) -> Result<BothNames<'f>, NoMemory>
        ensures value { ForItem self.old.file seen.now.item.offset (λ p d. IsSeenIn p (Some class) seen.now d → class_read p d.home ≡ Some class → IsChainOf p d chain.now → StandsAt p.sections chain.now.place (Some name.now) → IfOk result (AreBoth (λ release. full_name release p class d name.now))) }
        ensures kept { self.new ≡ self.old }
    {
        match class {
            LanguageClass::Ada => self.ada_name(alloc, class, seen, chain, name),
            _ => self.behind_front(alloc, class, seen, chain, name),
        }
    }

    // The same in a class of languages other than Ada's.
    fn behind_front(
        &mut self,
        alloc: Global,
        class: LanguageClass,
        seen: &SeenItem<'f>,
        chain: &Chain<'f>,
        name: &'f [u8],
    ) -> Result<BothNames<'f>, NoMemory>
        requires { is_ada class ≡ false }
        ensures value { ForItem self.old.file seen.now.item.offset (λ p d. IsSeenIn p (Some class) seen.now d → class_read p d.home ≡ Some class → IsChainOf p d chain.now → StandsAt p.sections chain.now.place (Some name.now) → IfOk result (AreBoth (λ release. full_name release p class d name.now))) }
        ensures kept { self.new ≡ self.old }
    {
        let front = self.front_of(alloc, class, seen, chain)?;
        let own = self.texts.spelled(alloc, class, chain.place, name)?;
        match front {
            Some(front) => Ok(front.before(alloc, own.names())?),
            None => own.owned(alloc),
        }
    }

    // The same in Ada.
    fn ada_name(
        &mut self,
        alloc: Global,
        class: LanguageClass,
        seen: &SeenItem<'f>,
        chain: &Chain<'f>,
        name: &[u8],
    ) -> Result<BothNames<'f>, NoMemory>
        requires { is_ada class ≡ true }
        ensures value { ForItem self.old.file seen.now.item.offset (λ p d. IsSeenIn p (Some class) seen.now d → class_read p d.home ≡ Some class → IsChainOf p d chain.now → IfOk result (AreBoth (λ release. full_name release p class d name.now))) }
        ensures kept { self.new ≡ self.old }
    {
        let scope = self.scope_of(alloc, class, seen, chain)?;
        let texts = self.components(alloc, scope)?;
        let turned = TurnedTexts::of(alloc, texts.as_slice())?;
        Ok(ada_full_name(alloc, turned.components(), name)?)
    }
}
