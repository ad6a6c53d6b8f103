//! What scopes put before the names in them, formed once for all items of a scope.

ghost use Rattle.std.specs.Prelude.{◌≡◌, IfOk, Some};
ghost use Rattle.std.specs.Arc.{arc_value};
ghost use Rattle.cxx_spelling.specs.declared.release.Release.{Release};
ghost use Rattle.gdb_entries.specs.Owners.{class_read};
ghost use Rattle.gdb_items.specs.Chains.{IsChainOf};
ghost use Rattle.gdb_scopes.specs.Places.{ForItem, IsSeenIn};
ghost use Rattle.gdb_index.specs.Fronts.{front_at, front_text, IsFrontAt};

use crate::names::FileNames;
use crate::turned::TurnedTexts;
use gdb_entries::{LanguageClass, separator_of};
use gdb_items::Chain;
use gdb_names::BothFronts;
use gdb_scopes::SeenItem;
use ix_base::NoMemory;
use std::alloc::Global;
use std::sync::Arc;

/// What a scope puts before names in units of a class.
#[derive(Drop)]
pub(crate) struct Front {
    pub class: LanguageClass,
    pub texts: Arc<BothFronts>,
}

impl<'s, 'r, 'f> FileNames<'s, 'r, 'f> {
    /// What stands before the name of an item that is looked at in a unit of this class, and whose chain this is. None where nothing does.
    pub(crate) fn front_of(
        &mut self,
        alloc: Global,
        class: LanguageClass,
        seen: &SeenItem<'f>,
        chain: &Chain<'f>,
    ) -> Result<Option<Arc<BothFronts>>, NoMemory>
        ensures value { ForItem self.old.file seen.now.item.offset (λ p d. IsSeenIn p (Some class) seen.now d → class_read p d.home ≡ Some class → IsChainOf p d chain.now → IfOk result (λ front. (release : Release) → front_text release front ≡ front_at release p class d)) }
        ensures kept { self.new ≡ self.old }
    {
        if separator_of(class).is_none() {
            return Ok(None);
        }
        match self.scope_of(alloc, class, seen, chain)? {
            Some(scope) => Ok(Some(self.front(alloc, class, scope)?)),
            None => Ok(None),
        }
    }

    // What the scope at a joint offset puts before names in units of this class.
    fn front(
        &mut self,
        alloc: Global,
        class: LanguageClass,
        scope: u64,
    ) -> Result<Arc<BothFronts>, NoMemory>
        ensures value { IfOk result (λ front. IsFrontAt self.old.file scope class (arc_value front)) }
        ensures kept { self.new ≡ self.old }
    {
        match self.fronts.get(&scope) {
            Some(front) if front.class == class => Ok(Arc::try_clone(&front.texts)?),
            _ => self.make_front(alloc, class, scope),
        }
    }

    // The same, where it isn't known yet. It is kept from then on.
    fn make_front(
        &mut self,
        alloc: Global,
        class: LanguageClass,
        scope: u64,
    ) -> Result<Arc<BothFronts>, NoMemory>
        ensures value { IfOk result (λ front. IsFrontAt self.old.file scope class (arc_value front)) }
        ensures kept { self.new ≡ self.old }
    {
        let components = self.components(alloc, Some(scope))?;
        let turned = TurnedTexts::of(alloc, components.as_slice())?;
        let front = BothFronts::of(alloc, class, turned.components())?;
        let texts = Arc::new(alloc, front)?;
        let front = Front {
            class,
            texts: Arc::try_clone(&texts)?,
        };
        self.fronts.insert(scope, front)?;
        Ok(texts)
    }
}
