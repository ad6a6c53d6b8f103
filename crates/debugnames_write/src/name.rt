//! The names in the order of the index (DWARF 5, sections 6.1.1.4.4 to 6.1.1.4.6).

ghost use Rattle.std.specs.Prelude.{◌≡◌, nat_eq, [], Some, refl, OnOk, IsPermutation, IsSorted};
ghost use Rattle.std.specs.Ordering.{nat_cmp};
ghost use Rattle.std.specs.Cmp.{partial_equiv_from_equiv, on_per, on_equiv, on_po, on_total};
ghost use Rattle.std.specs.Cmp.Lexicographic.{pointwise, slice_cmp, nat_list_eq_equiv, nat_list_cmp_total, texts_ties, texts_po};
ghost use Rattle.index_model.specs.Ordered.{bytes_lt};
ghost use Rattle.debugnames_write.specs.Answers.{Answers};
ghost use Rattle.debugnames_write.specs.Groups.{group_hashes, group_names};
ghost use Rattle.debugnames_write.specs.Names.{AreNamesOf, AreSortedNamesOf, StringsPass};
ghost use Rattle.index_model.specs.Order.{Rises};
ghost use Rattle.debugnames_write.specs.Seen.{name_key};

use crate::groups::NameEntries;
use crate::hash::hashes_of;
use crate::item::IndexEntry;
use crate::limits::{MAX_STRINGS, grown};
use index_model::WriteStop;
use std::alloc::{AllocError, Global};
use std::cmp::Ordering;
use std::thread::Threads;

/// A name of the index. Names are ordered by bucket, then by hash, then by bytes.
#[derive(Drop)]
pub(crate) struct Name<'r> {
    pub bucket: u32,
    pub hash: u32,
    pub text: &'r [u8],
    /// Where the string stands in `.debug_str`.
    pub string: u32,
    pub items: &'r [IndexEntry],
}

impl PartialEq for Name<'_> {
    ghost eq = { λ x y. pointwise nat_eq (name_key x) (name_key y) };

    ghost laws = { on_per name_key (partial_equiv_from_equiv nat_list_eq_equiv) };

    fn eq(&self, other: &Self) -> bool {
        self.bucket == other.bucket && self.hash == other.hash && self.text == other.text
    }
}

impl Eq for Name<'_> {
    ghost laws = { on_equiv name_key nat_list_eq_equiv };
}

impl PartialOrd for Name<'_> {
    ghost partial_cmp = { λ x y. Some (slice_cmp nat_cmp (name_key x) (name_key y)) };

    ghost laws = { on_po name_key texts_po };

    fn partial_cmp(&self, other: &Self) -> Option<Ordering> {
        Some(self.cmp(other))
    }
}

impl Ord for Name<'_> {
    ghost cmp = { λ x y. slice_cmp nat_cmp (name_key x) (name_key y) };

    ghost total = { on_total name_key nat_list_cmp_total };

    ghost matches_partial_cmp = { λ x y. refl };

    ghost matches_eq = { λ x y. texts_ties (name_key x) (name_key y) };

    fn cmp(&self, other: &Self) -> Ordering {
        let by_bucket = self.bucket.cmp(&other.bucket);
        let by_hash = by_bucket.then(self.hash.cmp(&other.hash));
        match by_hash {
            Ordering::Equal => self.text.cmp(other.text),
            unequal => unequal,
        }
    }
}

/// The names, and how many bytes `.debug_str` has behind their strings.
#[derive(Drop)]
pub(crate) struct NameTable<'r> {
    pub names: Vec<Name<'r>>,
    pub strings_end: u64,
}

/// The names of these groups in the order of the index. Their strings follow the bytes that `.debug_str` has. The groups are
/// halved so often for threads.
pub(crate) fn sorted_names<'r, R: Threads + Sync>(
    rt: &R,
    alloc: Global,
    halvings: u32,
    groups: &[NameEntries<'r>],
    old_strings: u64,
) -> Result<NameTable<'r>, WriteStop>
    requires { Rises bytes_lt (group_names groups.now) }
    ensures { Answers result (AreSortedNamesOf groups.now old_strings) (StringsPass groups.now old_strings) }
{
    let hashes = hashes_of(rt, alloc, halvings, groups)?;
    let mut named = names_of(alloc, groups, &hashes, old_strings)?;
    sort_names(&mut named.names)?;
    Ok(named)
}

// The names of these groups in byte order, with these hashes.
fn names_of<'r>(
    alloc: Global,
    groups: &[NameEntries<'r>],
    hashes: &[u32],
    old_strings: u64,
) -> Result<NameTable<'r>, WriteStop>
    requires rises { Rises bytes_lt (group_names groups.now) }
    requires hashes { hashes.now ≡ group_hashes groups.now }
    ensures { Answers result (AreNamesOf groups.now old_strings) (StringsPass groups.now old_strings) }
{
    let mut names = Vec::with_capacity(alloc, groups.len())?;
    let strings_end = push_names(&mut names, groups, hashes, old_strings)?;
    Ok(NameTable { names, strings_end })
}

// Appends the names to none. Gives the place behind their strings.
fn push_names<'r>(
    names: &mut Vec<Name<'r>>,
    groups: &[NameEntries<'r>],
    hashes: &[u32],
    old_strings: u64,
) -> Result<u64, WriteStop>
    requires rises { Rises bytes_lt (group_names groups.now) }
    requires hashes { hashes.now ≡ group_hashes groups.now }
    requires none { names.now.items ≡ [] }
    ensures { Answers result (λ end. AreNamesOf groups.now old_strings (record { names = names.new; strings_end = end })) (StringsPass groups.now old_strings) }
{
    let mut end = grown(old_strings, 0, MAX_STRINGS)?;
    for (place, group) in groups.iter().enumerate() {
        let hash = hashes[place];
        names.push(Name {
            bucket: (hash as usize % groups.len()) as u32,
            hash,
            text: group.name,
            string: end as u32,
            items: group.items,
        })?;
        end = grown(end, group.name.len() as u64 + 1, MAX_STRINGS)?;
    }
    Ok(end)
}

// Sorts names into the order of the index.
fn sort_names(names: &mut Vec<Name<'_>>) -> Result<(), AllocError>
    ensures moved { IsPermutation names.old.items names.new.items }
    ensures sorted { OnOk result (IsSorted (λ x y. slice_cmp nat_cmp (name_key x) (name_key y)) names.new.items) }
{
    names.sort()
}
