//! The table of entries and its look-ups.

ghost use Rattle.std.specs.Prelude.{◌≡◌, ◌<◌, ◌^◌, [], length, slice_index_or, IfOk, flat_map};
ghost use Rattle.index_model.specs.Answers.{places, is_named, is_simply_named};
ghost use Rattle.query_engine.specs.Asked.{TailsFit, is_asked};
ghost use Rattle.query_engine.specs.Counts.{name_count, simple_count, without_linkage, text_count};
ghost use Rattle.query_engine.specs.Halving.{AddsHalvings};
ghost use Rattle.query_engine.specs.Sorted.{AreNamesOf};
ghost use Rattle.query_engine.specs.Listed.{AreListedBy, is_listed};
ghost use Rattle.query_engine.specs.Texts.{table_names};

use crate::listed::names_as_listed;
use crate::listing::ListedNames;
use crate::names::SortedNames;
use crate::orders::Orders;
use crate::search::find;
use crate::simple::SimpleNames;
use index_model::{Entry, Run, Steps};
use ix_base::NoMemory;
use std::alloc::{AllocError, Global};
use std::marker::Model;
use std::sync::ledger::Ledger;
use std::thread::Threads;

// So many runs are worth a thread.
const RUNS_PER_THREAD: usize = 4;

const MOST_THREADS: usize = 16;

/// The entries of a program in section order, found by name (DWARF 5, section 6.1.1). Contracts see the list of entries. A
/// place is that of an entry in this list, counted from 0.
#[derive(Drop)]
pub struct Table<'f> {
    entries: Vec<Entry<'f>>,
    by_name: SortedNames,
    by_simple: SimpleNames,
    distinct: u64,
    halvings: u32,
}

impl<'f> Model for Table<'f> {
    ghost use Rattle.std.specs.Prelude.{List};
    ghost use Rattle.index_model.specs.declared.entry.Entry.{Entry};

    ghost Value = { List Entry };

    ghost use Rattle.query_engine.specs.Tables.{AreTableOf};

    ghost view = { λ t. t.entries.items };

    ghost invariant = { λ t. AreTableOf t.entries.items t.by_name t.by_simple t.distinct };
}

impl<'f> Table<'f> {
    /// The table of the entries of the runs, one run after the other. The runs have fewer than 4,294,967,296 entries together,
    /// and no entry's tail is above the length of its name. Threads share the work, one for every four runs, and of fewer than
    /// eight runs the caller's does all; the table is the same for any number of them.
    ///
    /// # Errors
    ///
    /// `NoMemory` where memory was refused, or where entries share names so long that to compare them would cost far more than
    /// the file does: more than 1 GiB, and 4 KiB for each entry. The runs are gone then.
    pub fn merge<R: Threads + Sync>(
        rt: &R,
        alloc: Global,
        runs: Vec<Run<'f>>,
    ) -> Result<Table<'f>, NoMemory>
        requires few { length (flat_map (λ run. run) runs.items) < 2 ^ 32 }
        requires tails { TailsFit (flat_map (λ run. run) runs.items) }
        ensures { IfOk result (λ t. t ≡ flat_map (λ run. run) runs.entry.items) }
    {
        let halvings = halvings_for(runs.len());
        let entries = joined(alloc, runs)?;
        let Orders { by_name, by_simple } = Orders::of(rt, alloc, halvings, &entries)?;
        let distinct = by_name.count_plain(&entries);
        Ok(Table {
            entries,
            by_name,
            by_simple,
            distinct,
            halvings,
        })
    }

    /// The entries, in section order. No entry's tail is above the length of its name.
    pub fn entries(&self) -> &[Entry<'f>]
        ensures all { result.now ≡ self.now }
        ensures tails { TailsFit self.now }
    {
        &self.entries
    }

    /// The ascending places of all entries with this name. A step is one comparison of it with a name of the table. There are
    /// at most s of them, where 2^s is at most 2n + 2 and the entries have n distinct names. Takes no memory.
    pub fn by_name<L: Ledger>(&self, name: &[u8], steps: &mut Steps<L>) -> &[u32]
        ensures places { result.now ≡ places (is_named name.now) self.now }
        ensures steps { AddsHalvings (name_count self.now) steps.old steps.new }
    {
        places_of(&self.by_name, &self.entries, name, steps)
    }

    /// The ascending places of all entries that aren't linkage entries and have this simple name. The steps are bounded as in
    /// `by_name`, by the distinct simple names of these entries. Takes no memory.
    pub fn by_simple<L: Ledger>(&self, name: &[u8], steps: &mut Steps<L>) -> &[u32]
        ensures places { result.now ≡ places (is_simply_named name.now) self.now }
        ensures steps { AddsHalvings (simple_count (without_linkage self.now)) steps.old steps.new }
    {
        match &self.by_simple {
            SimpleNames::Shared => places_of(&self.by_name, &self.entries, name, steps),
            SimpleNames::Own(names) => places_of(names, &self.entries, name, steps),
        }
    }

    /// How many distinct names the entries have, those of linkage entries too. Takes no memory.
    pub fn name_count(&self) -> usize
        ensures { result ≡ length (table_names self.now) }
    {
        self.by_name.len()
    }

    /// The name at an index among the distinct ones in byte order. Takes no memory.
    pub fn name_at(&self, index: usize) -> &[u8]
        requires { index < length (table_names self.now) }
        ensures { result.now ≡ slice_index_or (table_names self.now) index [] }
    {
        self.by_name.text_at(&self.entries, index)
    }

    /// The ascending places of all entries with the name at an index. Takes no memory.
    pub fn places_at(&self, index: usize) -> &[u32]
        requires { index < length (table_names self.now) }
        ensures { result.now ≡ places (is_named (slice_index_or (table_names self.now) index [])) self.now }
    {
        self.by_name.places_at(&self.entries, index)
    }

    /// The entries by the names under which a `.debug_names` lists them: linkage entries stand there under their names, all
    /// others under their simple names. A name under which none stands may be among them, with no entries. n entries with m
    /// distinct names cost n steps and m comparisons at most of each of both orders.
    ///
    /// # Errors
    ///
    /// `NoMemory` where memory was refused.
    pub fn names_as_listed<'t, R: Threads + Sync>(
        &'t self,
        rt: &R,
        alloc: Global,
    ) -> Result<ListedNames<'t>, NoMemory>
        ensures { IfOk result (AreListedBy is_listed self.now) }
    {
        match &self.by_simple {
            SimpleNames::Shared => Ok(self.by_name.listed(alloc, &self.entries)?),
            SimpleNames::Own(simple) => Ok(names_as_listed(
                rt,
                alloc,
                self.halvings,
                &self.entries,
                &self.by_name,
                simple,
            )?),
        }
    }

    /// How often work over these entries is worth halving for threads: as often as `merge` did, and never for one worker.
    pub fn halvings(&self) -> u32 {
        self.halvings
    }

    /// How many distinct names the entries have that aren't linkage entries. Takes no memory.
    pub fn distinct(&self) -> u64
        ensures { result ≡ name_count (without_linkage self.now) }
    {
        self.distinct
    }
}

// The places of the entries with a text. The result borrows from the names alone.
fn places_of<'r, L: Ledger>(
    names: &'r SortedNames,
    entries: &[Entry<'_>],
    asked: &[u8],
    steps: &mut Steps<L>,
) -> &'r [u32]
    requires tails { TailsFit entries.now }
    requires names { AreNamesOf entries.now names.now }
    ensures places { result.now ≡ places (is_asked names.now.way asked.now) entries.now }
    ensures steps { AddsHalvings (text_count names.now.way entries.now) steps.old steps.new }
{
    match find(names, entries, asked, steps) {
        Some(index) => names.places_at(entries, index),
        None => &[],
    }
}

// How often to halve entries for threads. There is one for every few runs, since a crew cuts as many for each of its workers.
fn halvings_for(runs: usize) -> u32 {
    (runs / RUNS_PER_THREAD).clamp(1, MOST_THREADS).ilog2()
}

// The entries of the runs, one run after the other.
fn joined<'f>(alloc: Global, runs: Vec<Run<'f>>) -> Result<Vec<Entry<'f>>, AllocError>
    requires { length (flat_map (λ run. run) runs.items) < 2 ^ 32 }
    ensures { IfOk result (λ v. v.items ≡ flat_map (λ run. run) runs.entry.items) }
{
    let mut entries = Vec::with_capacity(alloc, total_len(&runs))?;
    for run in runs {
        entries.append(&mut run.into_vec())?;
    }
    Ok(entries)
}

// How many entries the runs have.
fn total_len(runs: &[Run<'_>]) -> usize
    requires { length (flat_map (λ run. run) runs.now) < 2 ^ 32 }
    ensures { result ≡ length (flat_map (λ run. run) runs.now) }
{
    let mut total = 0;
    for run in runs {
        total += run.as_slice().len();
    }
    total
}
