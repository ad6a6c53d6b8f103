//! The entries of an index: an indexed entry with its qualified name, and its linkage entry (DWARF 5, section 6.1.1.1).

ghost use Rattle.std.specs.Prelude.{◌≡◌, ◌++◌, ◌∷◌, [], length, option_map, option_to_list, unwrap_or, IfOk, OnOk};
ghost use Rattle.index_model.specs.Entries.{entries_of_link, entry_of, linkage_entry_of, may_have_linkage};
ghost use Rattle.index_model.specs.Links.{name_in};
ghost use Rattle.index_model.specs.Names.{simple_name};
ghost use Rattle.qualified_names.specs.Indexed.{ForAnyLink, ForLink, HasAnyLink, HasLink};

use crate::names::QualifiedNames;
use crate::tags::{SUBPROGRAM, VARIABLE};
use entry_rules::{Class, Kind, class, kind};
use index_model::{Entry, LinkedEntry, Text};
use ix_base::NoMemory;
use name_forms::ada_tail;
use std::alloc::Global;

/// Adds the entry of an indexed entry, and at once its linkage entry.
#[tactic(auto, unfolding(index_model::specs::Entries::entries_of_link))]
pub(crate) fn push_entries<'f>(
    entries: &mut Vec<Entry<'f>>,
    names: &mut QualifiedNames<'_, 'f>,
    alloc: Global,
    linked: &LinkedEntry<'f>,
) -> Result<(), NoMemory>
    requires { HasLink names.old linked.now }
    ensures value { ForLink names.old linked.now (λ p k. OnOk result (entries.new.items ≡ entries.old.items ++ entries_of_link p k)) }
    ensures kept { names.new ≡ names.old }
{
    let entry = entry_of(names, alloc, linked)?;
    push_with_linkage(entries, entry, linked.linkage)
}

// Adds an entry, and at once its linkage entry.
fn push_with_linkage<'f>(
    entries: &mut Vec<Entry<'f>>,
    entry: Entry<'f>,
    linkage: Option<&'f [u8]>,
) -> Result<(), NoMemory>
    ensures { OnOk result (entries.new.items ≡ entries.old.items ++ entry.entry ∷ option_to_list (linkage_entry_of entry.entry (option_map (λ t. t.now) linkage.entry))) }
{
    let linkage = linkage_entry_of(&entry, linkage);
    entries.push(entry)?;
    if let Some(linkage) = linkage {
        entries.push(linkage)?;
    }
    Ok(())
}

// The entry of an indexed entry.
fn entry_of<'f>(
    names: &mut QualifiedNames<'_, 'f>,
    alloc: Global,
    linked: &LinkedEntry<'f>,
) -> Result<Entry<'f>, NoMemory>
    requires { HasLink names.old linked.now }
    ensures value { ForLink names.old linked.now (λ p k. IfOk result (λ e. e ≡ entry_of k)) }
    ensures kept { names.new ≡ names.old }
{
    let class = class(names.language(linked.unit));
    let name = names.qualified(alloc, linked, class)?;
    Ok(Entry {
        unit: linked.unit,
        offset: linked.offset,
        tag: linked.tag,
        kind: kind(u64::from(linked.tag)).unwrap_or(Kind::Other),
        local: linked.local,
        linkage: false,
        name,
        tail: tail_of(linked, class),
    })
}

// The length of the simple name, in a unit of this class.
fn tail_of(linked: &LinkedEntry<'_>, class: Class) -> u32
    requires { HasAnyLink linked.now class }
    ensures { ForAnyLink linked.now (λ k. class ≡ k.class → result ≡ length (unwrap_or (option_map (simple_name k.class) (name_in k)) [])) }
{
    simple_length(class, linked.name) as u32
}

// The length of the simple name of a name.
#[tactic(auto, unfolding(index_model::specs::Names::simple_name))]
fn simple_length(class: Class, name: &[u8]) -> usize
    ensures { result ≡ length (simple_name class name.now) }
{
    match class {
        Class::C | Class::Cxx | Class::Plain => name.len(),
        Class::Ada => ada_tail(name),
    }
}

// The linkage entry of a subprogram or variable whose linkage name isn't its qualified name.
#[tactic(auto, unfolding(index_model::specs::Entries::linkage_entry_of))]
fn linkage_entry_of<'f>(entry: &Entry<'f>, linkage: Option<&'f [u8]>) -> Option<Entry<'f>>
    ensures { result ≡ linkage_entry_of entry.now (option_map (λ t. t.now) linkage.entry) }
{
    let name = linkage?;
    if !may_have_linkage(entry.tag) || name == entry.name.bytes() {
        return None;
    }
    Some(Entry {
        unit: entry.unit,
        offset: entry.offset,
        tag: entry.tag,
        kind: entry.kind,
        local: entry.local,
        linkage: true,
        name: Text::lent(name),
        tail: 0,
    })
}

fn may_have_linkage(tag: u16) -> bool
    ensures { result ≡ may_have_linkage tag }
{
    tag == SUBPROGRAM || tag == VARIABLE
}
