//! Which names an item is listed under.

ghost use Rattle.std.specs.Prelude.{◌≡◌, IfOk, option_map};
ghost use Rattle.gdb_entries.specs.Entries.{second_texts};
ghost use Rattle.gdb_entries.specs.ItemNames.{item_names, second_name, linkage_name};
ghost use Rattle.gdb_names.specs.Both.{both_texts};
ghost use Rattle.gdb_names.specs.Seen.{bytes_of, names_seen, second_seen};

use crate::both::{BothComponents, BothNames};
use crate::by_class::spelled;
use crate::full_names::ada_full_name;
use ada_spelling::encode;
use cxx_spelling::SpelledName;
use gdb_entries::{ItemFacts, LanguageClass, gives_scope_alone, is_called};
use std::alloc::{AllocError, Global};

/// A linkage name that is listed. No scope stands before it.
#[derive(Clone, Copy)]
pub enum SecondName<'n> {
    /// A function has no other name, so it is taken for one: it is spelled as names are, and in Ada decoded.
    OnlyName(&'n [u8]),
    /// It makes a linkage entry: it isn't spelled, and in Ada encoded.
    Linkage(&'n [u8]),
}

impl<'n> SecondName<'n> {
    /// The name as it is listed in a unit of this class.
    pub fn listed(self, alloc: Global, class: LanguageClass) -> Result<BothNames<'n>, AllocError>
        ensures { IfOk result (λ names. both_texts names ≡ second_texts class (second_seen self.entry)) }
    {
        let no_scope = BothComponents {
            older: &[],
            newer: None,
        };
        match (self, class) {
            (SecondName::OnlyName(name), LanguageClass::Ada) => ada_full_name(
                alloc, no_scope, name,
            ),
            (SecondName::OnlyName(name), _) => spelled(alloc, class, name),
            (SecondName::Linkage(name), LanguageClass::Ada) => Ok(BothNames::alike(
                SpelledName::Owned(encode(alloc, name)?),
            )),
            (SecondName::Linkage(name), _) => Ok(BothNames::alike(SpelledName::Lent(name))),
        }
    }
}

/// The names of an item as the file has them.
#[derive(Clone, Copy)]
pub struct ItemNames<'n> {
    /// The one that stands behind the components of the item's scope.
    pub name: Option<&'n [u8]>,
    /// The one that stands without.
    pub second: Option<SecondName<'n>>,
}

/// The names under which an item is listed that is looked at in a unit of this class. The name and the linkage name are the
/// first ones on its chain. A declaration that gives scope alone has none but in Ada.
pub fn item_names<'n>(
    class: LanguageClass,
    item: &ItemFacts,
    name: Option<&'n [u8]>,
    linkage: Option<&'n [u8]>,
) -> ItemNames<'n>
    ensures { names_seen result ≡ item_names class item.now (bytes_of name.entry) (bytes_of linkage.entry) }
{
    if gives_scope_alone(item) && class != LanguageClass::Ada {
        return ItemNames {
            name: None,
            second: None,
        };
    }
    let linkage = linkage_name(class, name, linkage);
    ItemNames {
        name,
        second: second_name(class, item.tag, name, linkage),
    }
}

// The linkage name. In Ada the name is one where there is no other.
fn linkage_name<'n>(
    class: LanguageClass,
    name: Option<&'n [u8]>,
    linkage: Option<&'n [u8]>,
) -> Option<&'n [u8]>
    ensures { bytes_of result ≡ linkage_name class (bytes_of name.entry) (bytes_of linkage.entry) }
{
    match class {
        LanguageClass::Ada => linkage.or(name),
        _ => linkage,
    }
}

// The second name. C++ lists no linkage entries.
fn second_name<'n>(
    class: LanguageClass,
    tag: u64,
    name: Option<&'n [u8]>,
    linkage: Option<&'n [u8]>,
) -> Option<SecondName<'n>>
    ensures { option_map second_seen result ≡ second_name class tag (bytes_of name.entry) (bytes_of linkage.entry) }
{
    let linkage = linkage?;
    if name.is_none() && is_called(tag) {
        return Some(SecondName::OnlyName(linkage));
    }
    match class {
        LanguageClass::Cxx => None,
        _ => Some(SecondName::Linkage(linkage)),
    }
}
