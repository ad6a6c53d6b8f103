//! Sorted texts, each once, with the places of their entries.

ghost use Rattle.std.specs.Prelude.{◌≡◌, ◌<◌, ◌^◌, ◌+◌, List, length, slice_index, IfOk, All};
ghost use Rattle.std.specs.List.{list_any};
ghost use Rattle.std.specs.Ordering.{nat_cmp};
ghost use Rattle.std.specs.Cmp.Lexicographic.{slice_cmp};
ghost use Rattle.index_model.specs.declared.entry.Entry.{Entry};
ghost use Rattle.index_model.specs.Answers.{places as places_with};
ghost use Rattle.query_engine.specs.Asked.{TailsFit, is_asked};
ghost use Rattle.query_engine.specs.Counts.{name_count, without_linkage, is_plain};
ghost use Rattle.query_engine.specs.declared.way.Way.TheVariants.{ByName};
ghost use Rattle.query_engine.specs.Marked.{AreLabelled, HaveFewLabels};
ghost use Rattle.query_engine.specs.Listed.{AreListedBy};
ghost use Rattle.query_engine.specs.Sorted.{AreNamesBy, AreNamesOf, name_at, group_text};

use crate::groups::{Group, groups_of};
use crate::label::Label;
use crate::listing::ListedNames;
use crate::marks::Labelled;
use crate::order::order_of;
use crate::spelling::FrontedText;
use crate::way::Way;
use index_model::{Entry, Steps};
use std::alloc::{AllocError, Global};
use std::cmp::Ordering;
use std::sync::ledger::Ledger;
use std::thread::Threads;

/// The distinct texts by which entries are asked for one way, ascending. A text is that of its first entry: only `compare`
/// reads it, and counts itself.
#[derive(Drop)]
pub(crate) struct SortedNames {
    way: Way,
    groups: Vec<Group>,
    // The places of the entries, by text and then ascending.
    places: Vec<u32>,
}

impl SortedNames {
    /// The texts of the entries with these labels. Threads share the work where the entries were halved for them.
    pub fn sorted<R: Threads + Sync>(
        rt: &R,
        alloc: Global,
        way: Way,
        halvings: u32,
        labelled: &Labelled<'_>,
    ) -> Result<SortedNames, AllocError>
        requires { HaveFewLabels labelled.now }
        ensures { (entries : List Entry) → AreLabelled 0 entries labelled.now → IfOk result (AreNamesBy way entries) }
    {
        let order = order_of(rt, alloc, way, halvings, labelled)?;
        let groups = groups_of(alloc, &order.texts, &order.ends)?;
        Ok(SortedNames {
            way,
            groups,
            places: order.places,
        })
    }

    /// How many texts there are.
    pub fn len(&self) -> usize
        ensures { result ≡ length self.now.groups.items }
    {
        self.groups.len()
    }

    /// Compares the text at an index with the asked one. This is the one step that is counted.
    pub fn compare<L: Ledger>(
        &self,
        entries: &[Entry<'_>],
        index: usize,
        asked: &FrontedText<'_>,
        steps: &mut Steps<L>,
    ) -> Ordering
        requires index { index < length self.now.groups.items }
        requires tails { TailsFit entries.now }
        requires names { AreNamesOf entries.now self.now }
        ensures order { result ≡ slice_cmp nat_cmp (name_at entries.now self.now index) asked.now.bytes.now }
        ensures counted { steps.new ≡ steps.old + 1 }
    {
        steps.tick();
        self.order_at(entries, index, asked)
    }

    /// The order of the text at an index and another, where no name is looked up.
    pub fn order_at(&self, entries: &[Entry<'_>], index: usize, other: &FrontedText<'_>) -> Ordering
        requires index { index < length self.now.groups.items }
        requires tails { TailsFit entries.now }
        requires names { AreNamesOf entries.now self.now }
        ensures { result ≡ slice_cmp nat_cmp (name_at entries.now self.now index) other.now.bytes.now }
    {
        let group = self.groups[index];
        match group.front.cmp(&other.front) {
            Ordering::Equal => self.text_of(entries, group).cmp(&other.bytes),
            unequal => unequal,
        }
    }

    /// The text at an index.
    pub fn text_at<'r>(&self, entries: &'r [Entry<'_>], index: usize) -> &'r [u8]
        requires index { index < length self.now.groups.items }
        requires tails { TailsFit entries.now }
        requires names { AreNamesOf entries.now self.now }
        ensures { result.now ≡ name_at entries.now self.now index }
    {
        let group = self.groups[index];
        self.text_of(entries, group)
    }

    /// The ascending places of the entries with the text at an index.
    pub fn places_at(&self, entries: &[Entry<'_>], index: usize) -> &[u32]
        requires index { index < length self.now.groups.items }
        requires names { AreNamesOf entries.now self.now }
        ensures { result.now ≡ places_with (is_asked self.now.way (name_at entries.now self.now index)) entries.now }
    {
        let group = self.groups[index];
        &self.places[group.start as usize..group.end as usize]
    }

    /// The texts with the places of their entries.
    pub fn listed<'r>(
        &self,
        alloc: Global,
        entries: &'r [Entry<'_>],
    ) -> Result<ListedNames<'r>, AllocError>
        requires tails { TailsFit entries.now }
        requires names { AreNamesOf entries.now self.now }
        ensures { IfOk result (AreListedBy (is_asked self.now.way) entries.now) }
    {
        let mut listed = ListedNames::with_capacity(alloc, self.len(), entries.len())?;
        for index in 0..self.len() {
            listed.push(self.text_at(entries, index), self.places_at(entries, index))?;
        }
        Ok(listed)
    }

    /// How many texts have an entry that isn't a linkage entry.
    pub fn count_plain(&self, entries: &[Entry<'_>]) -> u64
        requires way { self.now.way ≡ ByName }
        requires names { AreNamesOf entries.now self.now }
        ensures { result ≡ name_count (without_linkage entries.now) }
    {
        let mut count = 0;
        for index in 0..self.len() {
            if has_plain(entries, self.places_at(entries, index)) {
                count += 1;
            }
        }
        count
    }

    // The text of a group: that of its first entry.
    fn text_of<'r>(&self, entries: &'r [Entry<'_>], group: Group) -> &'r [u8]
        requires tails { TailsFit entries.now }
        requires group { group.start < length self.now.places.items }
        requires place { slice_index self.now.places.items group.start < length entries.now }
        ensures { result.now ≡ group_text entries.now self.now group }
    {
        let place = self.places[group.start as usize];
        self.way.text(&Label::of(&entries[place as usize]))
    }
}

// Whether one of these entries isn't a linkage entry.
fn has_plain(entries: &[Entry<'_>], places: &[u32]) -> bool
    requires { All (λ p. p < length entries.now) places.now }
    ensures { result ≡ list_any (is_plain entries.now) places.now }
{
    for place in places {
        if !entries[*place as usize].linkage {
            return true;
        }
    }
    false
}
