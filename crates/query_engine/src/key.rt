//! What is sorted: texts, each with its number.

ghost use Rattle.std.specs.Prelude.{◌≡◌, ◌<◌, ◌^◌, length, nat_eq, Some, refl, IfOk, OnOk};
ghost use Rattle.std.specs.List.{enumerate_from};
ghost use Rattle.std.specs.Ordering.{nat_cmp};
ghost use Rattle.std.specs.Cmp.{partial_equiv_from_equiv, on_per, on_equiv, on_po, on_total};
ghost use Rattle.std.specs.Cmp.Lexicographic.{pointwise, slice_cmp, nat_list_eq_equiv, nat_list_cmp_total, texts_ties, texts_po};
ghost use Rattle.query_engine.specs.Pairs.{IsSortOf};
ghost use Rattle.query_engine.specs.Seen.{pairs_seen, texts_seen};

use crate::spelling::FrontedText;
use rayon::slice::par_sort;
use std::alloc::{AllocError, Global};
use std::cmp::Ordering;
use std::thread::Threads;

/// A text and its number. Keys are ordered by their texts alone.
#[derive(Drop)]
pub(crate) struct Key<'r> {
    pub text: FrontedText<'r>,
    pub number: u32,
}

impl PartialEq for Key<'_> {
    ghost eq = { λ x y. pointwise nat_eq x.text.bytes.now y.text.bytes.now };

    ghost laws = { on_per (λ x. x.text.bytes.now) (partial_equiv_from_equiv nat_list_eq_equiv) };

    fn eq(&self, other: &Self) -> bool {
        self.text.bytes == other.text.bytes
    }
}

impl Eq for Key<'_> {
    ghost laws = { on_equiv (λ x. x.text.bytes.now) nat_list_eq_equiv };
}

impl PartialOrd for Key<'_> {
    ghost partial_cmp = { λ x y. Some (slice_cmp nat_cmp x.text.bytes.now y.text.bytes.now) };

    ghost laws = { on_po (λ x. x.text.bytes.now) texts_po };

    fn partial_cmp(&self, other: &Self) -> Option<Ordering> {
        Some(self.cmp(other))
    }
}

impl Ord for Key<'_> {
    ghost cmp = { λ x y. slice_cmp nat_cmp x.text.bytes.now y.text.bytes.now };

    ghost total = { on_total (λ x. x.text.bytes.now) nat_list_cmp_total };

    ghost matches_partial_cmp = { λ x y. refl };

    ghost matches_eq = { λ x y. texts_ties x.text.bytes.now y.text.bytes.now };

    fn cmp(&self, other: &Self) -> Ordering {
        self.text.order(&other.text)
    }
}

/// The keys of texts, sorted. A text's number is its index.
pub(crate) fn sorted_keys<'r, R: Threads + Sync>(
    rt: &R,
    alloc: Global,
    texts: &[FrontedText<'r>],
) -> Result<Vec<Key<'r>>, AllocError>
    requires few { length texts.now < 2 ^ 32 }
    ensures { IfOk result (λ v. IsSortOf (enumerate_from 0 (texts_seen texts.now)) (pairs_seen v.items)) }
{
    let mut keys = keys_of(alloc, texts)?;
    sort_keys(rt, alloc, keys.as_mut_slice())?;
    Ok(keys)
}

/// The same by one thread.
pub(crate) fn keys_sorted_alone<'r>(
    alloc: Global,
    texts: &[FrontedText<'r>],
) -> Result<Vec<Key<'r>>, AllocError>
    requires few { length texts.now < 2 ^ 32 }
    ensures { IfOk result (λ v. IsSortOf (enumerate_from 0 (texts_seen texts.now)) (pairs_seen v.items)) }
{
    let mut keys = keys_of(alloc, texts)?;
    sort_alone(&mut keys)?;
    Ok(keys)
}

// The keys of texts, in their order.
fn keys_of<'r>(alloc: Global, texts: &[FrontedText<'r>]) -> Result<Vec<Key<'r>>, AllocError>
    requires few { length texts.now < 2 ^ 32 }
    ensures { IfOk result (λ v. pairs_seen v.items ≡ enumerate_from 0 (texts_seen texts.now)) }
{
    let mut keys = Vec::with_capacity(alloc, texts.len())?;
    for (number, text) in texts.iter().enumerate() {
        keys.push(Key {
            text: *text,
            number: number as u32,
        })?;
    }
    Ok(keys)
}

// Sorts keys by text.
fn sort_keys<R: Threads + Sync>(
    rt: &R,
    alloc: Global,
    keys: &mut [Key<'_>],
) -> Result<(), AllocError>
    ensures { OnOk result (IsSortOf (pairs_seen keys.old) (pairs_seen keys.new)) }
{
    par_sort(rt, alloc, keys)
}

// The same by one thread.
fn sort_alone(keys: &mut Vec<Key<'_>>) -> Result<(), AllocError>
    ensures { OnOk result (IsSortOf (pairs_seen keys.old.items) (pairs_seen keys.new.items)) }
{
    keys.sort()
}
