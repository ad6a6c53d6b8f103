//! One step of a scope path.

ghost use Rattle.std.specs.Prelude.{◌≡◌, option_map, IfOk};
ghost use Rattle.cxx_spelling.specs.declared.release.Release.{Release};
ghost use Rattle.index_model.specs.Program.{Located, Program};
ghost use Rattle.gdb_entries.specs.Chains.{is_scoped, name_of};
ghost use Rattle.gdb_entries.specs.Components.{component_of};
ghost use Rattle.gdb_entries.specs.Names.{component};
ghost use Rattle.gdb_items.specs.Chains.{IsChainOf};
ghost use Rattle.gdb_names.specs.Both.{text_by as name_by};
ghost use Rattle.gdb_scopes.specs.Places.{ForItem};
ghost use Rattle.gdb_index.specs.Kept.{AreTextsOf};
ghost use Rattle.gdb_index.specs.Steps.{IsSameStep, IsStepAt};
ghost use Rattle.gdb_index.specs.Texts.{text_by};

use crate::both_texts::BothTexts;
use gdb_entries::{LanguageClass, gives_component};
use gdb_items::Chain;
use gdb_names::BothNames;
use gdb_scopes::{FilePlaces, name_of};
use gdb_texts::SpelledTexts;
use ix_base::NoMemory;
use std::alloc::Global;

/// What a member of scope paths gives to names, and where the paths go on.
#[derive(Drop)]
pub(crate) struct Step<'f> {
    /// Its component. None where it gives none.
    pub component: Option<BothTexts<'f>>,
    /// The joint offset of its scope, if it has one.
    pub scope: Option<u64>,
}

impl<'f> Step<'f> {
    /// The step at the item with a joint offset.
    pub fn at(
        alloc: Global,
        places: &mut FilePlaces<'_, '_, 'f>,
        texts: &SpelledTexts<'_, 'f>,
        offset: u64,
    ) -> Result<Step<'f>, NoMemory>
        requires { AreTextsOf places.old.file texts.now }
        ensures value { IfOk result (IsStepAt places.old.file offset) }
        ensures kept { places.new ≡ places.old }
    {
        let spelled = component_at(alloc, places, texts, offset)?;
        let component = shared(alloc, spelled)?;
        let scope = places.scope(alloc, offset)?;
        Ok(Step { component, scope })
    }

    /// How many bytes its component has.
    pub fn size(&self) -> u64 {
        self.component.as_ref().map_or(0, |text| text.size())
    }

    /// The same step, held once more.
    pub fn share(&self) -> Result<Step<'f>, NoMemory>
        ensures { IfOk result (IsSameStep self.now) }
    {
        let component = match &self.component {
            Some(text) => Some(text.share()?),
            None => None,
        };
        Ok(Step {
            component,
            scope: self.scope,
        })
    }
}

// The component that the item at a joint offset gives, spelled by the class by which its own unit is read. One whose unit isn't read
// gives none.
fn component_at<'f>(
    alloc: Global,
    places: &mut FilePlaces<'_, '_, 'f>,
    texts: &SpelledTexts<'_, 'f>,
    offset: u64,
) -> Result<Option<BothNames<'f>>, NoMemory>
    requires { AreTextsOf places.old.file texts.now }
    ensures value { ForItem places.old.file offset (λ p d. IfOk result (λ name. (release : Release) → option_map (name_by release) name ≡ component release p d)) }
    ensures kept { places.new ≡ places.old }
{
    match places.class_at(offset) {
        Some(class) => component_by(alloc, places, texts, class, offset),
        None => Ok(None),
    }
}

// The component that the item at a joint offset gives by this class.
fn component_by<'f>(
    alloc: Global,
    places: &mut FilePlaces<'_, '_, 'f>,
    texts: &SpelledTexts<'_, 'f>,
    class: LanguageClass,
    offset: u64,
) -> Result<Option<BothNames<'f>>, NoMemory>
    requires { AreTextsOf places.old.file texts.now }
    ensures value { ForItem places.old.file offset (λ p d. IfOk result (λ name. (release : Release) → option_map (name_by release) name ≡ component_of release class d.item.tag (is_scoped p d) (name_of p class d))) }
    ensures kept { places.new ≡ places.old }
{
    let Some(item) = places.at(alloc, offset)? else {
        return Ok(None);
    };
    let chain = places.chain(alloc, &item)?;
    component_told(alloc, texts, class, item.facts.tag, &chain)
}

// The component that an item with this tag and this chain gives by this class.
fn component_told<'f>(
    alloc: Global,
    texts: &SpelledTexts<'_, 'f>,
    class: LanguageClass,
    tag: u64,
    chain: &Chain<'f>,
) -> Result<Option<BothNames<'f>>, NoMemory>
    ensures { (p : Program) (d : Located) → texts.now ≡ p.sections → tag ≡ d.item.tag → IsChainOf p d chain.now → IfOk result (λ name. (release : Release) → option_map (name_by release) name ≡ component_of release class d.item.tag (is_scoped p d) (name_of p class d)) }
{
    if !gives_component(tag, chain.scoped) {
        return Ok(None);
    }
    match name_of(class, tag, chain.name) {
        Some(name) => {
            let spelling = texts.spelled(alloc, class, chain.place, name)?;
            Ok(Some(spelling.owned(alloc)?))
        }
        None => Ok(None),
    }
}

// A component that can be shared from then on.
fn shared<'f>(
    alloc: Global,
    component: Option<BothNames<'f>>,
) -> Result<Option<BothTexts<'f>>, NoMemory>
    ensures { IfOk result (λ texts. (release : Release) → option_map (text_by release) texts ≡ option_map (name_by release) component.entry) }
{
    match component {
        Some(name) => Ok(Some(BothTexts::of(alloc, name)?)),
        None => Ok(None),
    }
}
