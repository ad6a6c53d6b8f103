//! Entries by the names under which a `.debug_names` lists them (DWARF 5, section 6.1.1.1): linkage entries by their names, all
//! others by their simple names. The order by names and the one by simple names are gone through together, so nothing is sorted
//! again.

ghost use Rattle.std.specs.Prelude.{◌≡◌, ◌<◌, ◌≤◌, ◌+◌, ◌++◌, ℕ, All, IfOk, OnOk, MatchBool, drop, length};
ghost use Rattle.query_engine.specs.Asked.{TailsFit};
ghost use Rattle.query_engine.specs.Listed.{is_listed, merged, take_below, drop_below, AddsName, AreListedBy, AreListedTo, AreMarked, ComesBeforeEnd, EndsAt, HasSimple, IsAhead, IsMarkAt};
ghost use Rattle.query_engine.specs.Sorted.{AreNamesBy, name_at};
ghost use Rattle.query_engine.specs.declared.way.Way.TheVariants as ways;

use crate::listing::{ListedName, ListedNames};
use crate::names::SortedNames;
use crate::spelling::FrontedText;
use index_model::Entry;
use std::alloc::{AllocError, Global};
use std::cmp::Ordering;
use std::thread::{Threads, for_each_mut};

// Work over fewer entries isn't worth a thread.
const LEAST: usize = 8192;

// Work isn't halved more often.
const MOST_HALVINGS: u32 = 4;

/// Entries, which of them are linkage entries, and both orders of them.
#[derive(Clone, Copy)]
struct BothOrders<'s, 't, 'f> {
    entries: &'t [Entry<'f>],
    linkage: &'s [bool],
    names: &'s SortedNames,
    simple: &'s SortedNames,
    ghost tails: { TailsFit entries.now },
    ghost marked: { AreMarked entries.now linkage.now },
    ghost named: { AreNamesBy ways.ByName entries.now names.now },
    ghost simply_named: { AreNamesBy ways.BySimple entries.now simple.now },
}

/// All entries by the names under which they are listed. Threads share work that is halved so often for them.
pub(crate) fn names_as_listed<'t, R: Threads + Sync>(
    rt: &R,
    alloc: Global,
    halvings: u32,
    entries: &'t [Entry<'_>],
    names: &SortedNames,
    simple: &SortedNames,
) -> Result<ListedNames<'t>, AllocError>
    requires tails { TailsFit entries.now }
    requires names { AreNamesBy ways.ByName entries.now names.now }
    requires simple { AreNamesBy ways.BySimple entries.now simple.now }
    ensures { IfOk result (AreListedBy is_listed entries.now) }
{
    let linkage = linkage_of(rt, alloc, halvings, entries)?;
    let both = BothOrders {
        entries,
        linkage: &linkage,
        names,
        simple,
    };
    let mut listed = ListedNames::with_capacity(alloc, names.len(), entries.len())?;
    let mut passed = 0;
    for index in 0..names.len() {
        passed = both.push_name(index, passed, &mut listed)?;
    }
    both.push_simple_below(None, passed, &mut listed)?;
    Ok(listed)
}

// Which entries are linkage entries.
fn linkage_of<R: Threads + Sync>(
    rt: &R,
    alloc: Global,
    halvings: u32,
    entries: &[Entry<'_>],
) -> Result<Vec<bool>, AllocError>
    ensures { IfOk result (λ v. AreMarked entries.now v.items) }
{
    let mut linkage = vec![in alloc; false; entries.len()]?;
    let threads = if entries.len() < LEAST {
        1
    } else {
        1 << halvings.min(MOST_HALVINGS)
    };
    for_each_mut(
        rt,
        linkage.as_mut_slice(),
        threads,
        &|place: usize, own: &mut bool| { *own = is_linkage_at(entries, place) },
    );
    Ok(linkage)
}

// Whether the entry at a place is a linkage entry.
fn is_linkage_at(entries: &[Entry<'_>], place: usize) -> bool
    requires { place < length entries.now }
    ensures { IsMarkAt entries.now place result }
{
    entries[place].linkage
}

impl<'t> BothOrders<'_, 't, '_> {
    // Appends the name at an index with the places of the entries that it lists, behind all simple names before it. So many simple
    // names were passed before; gives how many are then.
    fn push_name(
        &self,
        index: usize,
        passed: usize,
        listed: &mut ListedNames<'t>,
    ) -> Result<usize, AllocError>
        requires index { index < length self.now.names.now.groups.items }
        requires passed { passed ≤ length self.now.simple.now.groups.items }
        ensures listed { AreListedTo self.now.entries.now self.now.names.now self.now.simple.now index passed listed.old → IfOk result (λ j. AreListedTo self.now.entries.now self.now.names.now self.now.simple.now (index + 1) j listed.new) }
        ensures within { IfOk result (λ j. j ≤ length self.now.simple.now.groups.items) }
    {
        let name = self.names.text_at(self.entries, index);
        let text = FrontedText::new(name);
        let passed = self.push_simple_below(Some(text), passed, listed)?;
        let named = self.names.places_at(self.entries, index);
        if self.has_simple(passed, &text) {
            let plain = self.simple.places_at(self.entries, passed);
            self.push_both(listed, name, named, plain)?;
            Ok(passed + 1)
        } else {
            self.push_both(listed, name, named, &[])?;
            Ok(passed)
        }
    }

    // Appends a name with those of its entries that are linkage entries, and with others.
    fn push_both(
        &self,
        listed: &mut ListedNames<'t>,
        name: &'t [u8],
        named: &[u32],
        plain: &[u32],
    ) -> Result<(), AllocError>
        requires { All (λ p. p < length self.now.linkage.now) named.now }
        ensures { OnOk result (AddsName name.now (merged self.now.linkage.now named.now plain.now) listed.old listed.new) }
    {
        let before = listed.places.len();
        push_merged(&mut listed.places, self.linkage, named, plain)?;
        let count = listed.places.len() - before;
        listed.names.push(ListedName { name, count })?;
        Ok(())
    }

    // Whether the simple name at an index is this text.
    fn has_simple(&self, index: usize, text: &FrontedText<'_>) -> bool
        ensures { MatchBool result (HasSimple self.now.entries.now self.now.simple.now index text.now.bytes.now) (HasSimple self.now.entries.now self.now.simple.now index text.now.bytes.now → ⊥) }
    {
        index < self.simple.len()
            && self.simple.order_at(self.entries, index, text) == Ordering::Equal
    }

    // Appends the simple names before a text, or all, where so many were passed before. Gives how many are then.
    fn push_simple_below(
        &self,
        end: Option<FrontedText<'_>>,
        passed: usize,
        listed: &mut ListedNames<'t>,
    ) -> Result<usize, AllocError>
        requires { passed ≤ length self.now.simple.now.groups.items }
        ensures listed { (k : ℕ) → EndsAt self.now.entries.now self.now.names.now k end.entry → AreListedTo self.now.entries.now self.now.names.now self.now.simple.now k passed listed.old → IfOk result (λ j. AreListedTo self.now.entries.now self.now.names.now self.now.simple.now k j listed.new × IsAhead self.now.entries.now self.now.simple.now j end.entry) }
        ensures within { IfOk result (λ j. j ≤ length self.now.simple.now.groups.items) }
    {
        for index in passed..self.simple.len() {
            if self.is_behind(index, end) {
                return Ok(index);
            }
            listed.push(
                self.simple.text_at(self.entries, index),
                self.simple.places_at(self.entries, index),
            )?;
        }
        Ok(self.simple.len())
    }

    // Whether the simple name at an index doesn't come before the end.
    fn is_behind(&self, index: usize, end: Option<FrontedText<'_>>) -> bool
        requires { index < length self.now.simple.now.groups.items }
        ensures { MatchBool result (IsAhead self.now.entries.now self.now.simple.now index end.entry) (ComesBeforeEnd (name_at self.now.entries.now self.now.simple.now index) end.entry) }
    {
        match end {
            Some(text) => self.simple.order_at(self.entries, index, &text) != Ordering::Less,
            None => false,
        }
    }
}

// Appends the marked ones of ascending places, and others, all ascending.
fn push_merged(
    places: &mut Vec<u32>,
    marked: &[bool],
    named: &[u32],
    plain: &[u32],
) -> Result<(), AllocError>
    requires { All (λ p. p < length marked.now) named.now }
    ensures { OnOk result (places.new.items ≡ places.old.items ++ merged marked.now named.now plain.now) }
{
    let mut passed = 0;
    for place in named {
        if marked[*place as usize] {
            passed = push_below(places, plain, passed, *place)?;
            places.push(*place)?;
        }
    }
    places.extend_from_slice(&plain[passed..])?;
    Ok(())
}

// Appends the places below this one, where so many were passed before. Gives how many are then.
fn push_below(
    places: &mut Vec<u32>,
    plain: &[u32],
    passed: usize,
    end: u32,
) -> Result<usize, AllocError>
    requires { passed ≤ length plain.now }
    ensures within { IfOk result (λ at. at ≤ length plain.now) }
    ensures below { IfOk result (λ at. places.new.items ≡ places.old.items ++ take_below end (drop passed plain.now)) }
    ensures behind { IfOk result (λ at. drop at plain.now ≡ drop_below end (drop passed plain.now)) }
{
    for index in passed..plain.len() {
        if plain[index] >= end {
            return Ok(index);
        }
        places.push(plain[index])?;
    }
    Ok(plain.len())
}
