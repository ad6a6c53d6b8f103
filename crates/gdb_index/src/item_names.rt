//! The names of an item as they are listed.

ghost use Rattle.std.specs.Prelude.{◌≡◌, flat_map, map, option_map, option_to_list, IfOk, IfSome, Some};
ghost use Rattle.index_model.specs.Program.{Located};
ghost use Rattle.gdb_entries.specs.Chains.{linkage_of};
ghost use Rattle.gdb_entries.specs.Entries.{full_texts, names_of, second_texts};
ghost use Rattle.gdb_entries.specs.Files.{ForProgram};
ghost use Rattle.gdb_entries.specs.ItemNames.{item_names};
ghost use Rattle.gdb_entries.specs.Owners.{class_read};
ghost use Rattle.gdb_items.specs.Chains.{IsChainOf, StandsAt};
ghost use Rattle.gdb_items.specs.Items.{IsItemOf};
ghost use Rattle.gdb_names.specs.Seen.{bytes_of, names_seen, second_seen};
ghost use Rattle.gdb_scopes.specs.Places.{ForItem, IsSeenIn};
ghost use Rattle.gdb_index.specs.Items.{texts_in, texts_of};

use crate::names::FileNames;
use cxx_spelling::SpelledName;
use gdb_entries::LanguageClass;
use gdb_items::{Chain, UnitItem};
use gdb_names::{BothNames, ItemNames, SecondName, item_names};
use gdb_scopes::{SeenItem, name_of};
use ix_base::NoMemory;
use std::alloc::Global;

/// The names of an item as they are listed.
#[derive(Drop)]
pub(crate) struct ListedNames<'f> {
    /// The full name.
    pub full: Option<BothNames<'f>>,
    /// The one before which no scope stands.
    pub second: Option<BothNames<'f>>,
}

impl ListedNames<'_> {
    /// How many bytes of them don't stand in the file as they are.
    pub fn formed(&self) -> u64 {
        formed_of(&self.full).saturating_add(formed_of(&self.second))
    }
}

// How many bytes of a name don't stand in the file as they are.
fn formed_of(name: &Option<BothNames<'_>>) -> u64 {
    let Some(name) = name else {
        return 0;
    };
    let newer = name.newer.as_ref().map_or(0, |text| owned_length(text));
    owned_length(&name.older).saturating_add(newer)
}

fn owned_length(text: &SpelledName<'_>) -> u64 {
    match text {
        SpelledName::Lent(_) => 0,
        SpelledName::Owned(bytes) => bytes.len() as u64,
    }
}

/// The names of an item that is looked at in a unit of this class, and whose chain this is.
pub(crate) fn listed_names<'f>(
    alloc: Global,
    names: &mut FileNames<'_, '_, 'f>,
    class: LanguageClass,
    seen: &SeenItem<'f>,
    chain: &Chain<'f>,
) -> Result<ListedNames<'f>, NoMemory>
    ensures value { ForItem names.old.file seen.now.item.offset (λ p d. IsSeenIn p (Some class) seen.now d → class_read p d.home ≡ Some class → IsChainOf p d chain.now → IfOk result (λ listed. texts_of listed ≡ map (λ n. n.1) (names_of p class d))) }
    ensures kept { names.new ≡ names.old }
{
    let name = name_of(class, seen.item.facts.tag, chain.name);
    let own = own_names(alloc, names, class, &seen.item, name)?;
    let full = full_name(alloc, names, class, seen, chain, own.name)?;
    let second = second_name(alloc, class, own.second)?;
    Ok(ListedNames { full, second })
}

// The names of an item with this name, as the file has them. The linkage name is sought where it may count: in C++ it doesn't beside
// another name.
fn own_names<'f>(
    alloc: Global,
    names: &mut FileNames<'_, '_, 'f>,
    class: LanguageClass,
    item: &UnitItem<'f>,
    name: Option<&'f [u8]>,
) -> Result<ItemNames<'f>, NoMemory>
    ensures value { ForProgram names.old.file (λ p. (d : Located) → IsItemOf p.sections item.now d → IfOk result (λ own. names_seen own ≡ item_names class item.now.facts (bytes_of name.entry) (linkage_of p d))) }
    ensures kept { names.new ≡ names.old }
{
    let linkage = if class == LanguageClass::Cxx && name.is_some() {
        None
    } else {
        names.linkage_name(alloc, item)?
    };
    Ok(item_names(class, &item.facts, name, linkage))
}

// The full name of the item, if it has a name.
fn full_name<'f>(
    alloc: Global,
    names: &mut FileNames<'_, '_, 'f>,
    class: LanguageClass,
    seen: &SeenItem<'f>,
    chain: &Chain<'f>,
    name: Option<&'f [u8]>,
) -> Result<Option<BothNames<'f>>, NoMemory>
    ensures value { ForItem names.old.file seen.now.item.offset (λ p d. IsSeenIn p (Some class) seen.now d → class_read p d.home ≡ Some class → IsChainOf p d chain.now → IfSome (bytes_of name.entry) (λ n. StandsAt p.sections chain.now.place (Some n)) → IfOk result (λ full. texts_in full ≡ full_texts p class d (bytes_of name.entry))) }
    ensures kept { names.new ≡ names.old }
{
    match name {
        Some(name) => Ok(Some(names.full_name(alloc, class, seen, chain, name)?)),
        None => Ok(None),
    }
}

// The second name, if there is one.
fn second_name<'f>(
    alloc: Global,
    class: LanguageClass,
    second: Option<SecondName<'f>>,
) -> Result<Option<BothNames<'f>>, NoMemory>
    ensures { IfOk result (λ names. texts_in names ≡ flat_map (second_texts class) (option_to_list (option_map second_seen second.entry))) }
{
    match second {
        Some(name) => Ok(Some(name.listed(alloc, class)?)),
        None => Ok(None),
    }
}
