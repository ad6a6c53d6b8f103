//! A store of files in memory, whose calls can be made to fail.

ghost use Rattle.std.specs.Prelude.{◌≡◌, ℕ, ◌-◌, ◌≤◌, [], ◌∷◌, ◌++◌, Option, None, Some, length, take, drop, min, is_ok, IfOk, OnOk, OnErr, IsErr, IfSome, IfNone, MatchOption};
ghost use Rattle.std.specs.Result.{result_ok};
ghost use Rattle.outside.specs.Counts.{Rose};
ghost use Rattle.outside.specs.Files.{SameFiles, IsPiece, ReadsPiece, Stored, StoredOrPrefix};
ghost use Rattle.outside.specs.MemShelves.{shelf_files, shelf_calls, after_read, after_kept_read, after_store, read_count, kept_count, leaves_at, next_leaves, IsLeft};

use crate::shelf::{Failed, Shelf};
use std::alloc::{AllocError, Global};
use std::collections::BTreeMap;

/// What a store that is to fail leaves of the name: what it held before, or so many of the new
/// bytes.
#[derive(Clone, Copy)]
pub enum Leaves {
    Old,
    Prefix(u64),
}

/// A store that is to fail, by its number, and what it leaves.
#[derive(Clone, Copy)]
pub struct FailingStore {
    pub call: u64,
    pub leaves: Leaves,
}

/// A store of files in memory. It keeps the numbers of the reads, of the stores and of the reads of kept files that are to fail,
/// each counted from 1. A store that is refused memory fails too, and leaves all as before.
#[derive(Drop)]
pub struct MemShelf {
    alloc: Global,
    files: BTreeMap<String, Vec<u8>>,
    failing_reads: Vec<u64>,
    failing_stores: Vec<FailingStore>,
    failing_kept_reads: Vec<u64>,
    reads: u64,
    stores: u64,
    kept_reads: u64,
    read_faults: u64,
    store_faults: u64,
    kept_faults: u64,
}

impl MemShelf {
    /// A store without files, none of whose calls is to fail.
    pub fn new(alloc: Global) -> Self
        ensures files { SameFiles (Some (λ _. None)) (Some (shelf_files result)) }
        ensures calls { shelf_calls result ≡ record {
          failing_reads = [];
          failing_stores = [];
          failing_kept_reads = [];
          reads = 0;
          stores = 0;
          kept_reads = 0;
          read_faults = 0;
          store_faults = 0;
          kept_faults = 0;
        } }
    {
        MemShelf {
            alloc,
            files: BTreeMap::new(alloc),
            failing_reads: Vec::new(alloc),
            failing_stores: Vec::new(alloc),
            failing_kept_reads: Vec::new(alloc),
            reads: 0,
            stores: 0,
            kept_reads: 0,
            read_faults: 0,
            store_faults: 0,
            kept_faults: 0,
        }
    }

    /// Makes the bytes what the name holds, without a call of `store`.
    pub fn put(&mut self, name: &str, bytes: &[u8]) -> Result<(), AllocError>
        ensures ok { OnOk result (Stored (Some (shelf_files self.old)) (Some (shelf_files self.new)) name.now bytes.now) }
        ensures err { OnErr result (SameFiles (Some (shelf_files self.old)) (Some (shelf_files self.new))) }
        ensures calls { shelf_calls self.new ≡ shelf_calls self.old }
    {
        let name = String::from_str(self.alloc, name)?;
        let bytes = Vec::from_slice(self.alloc, bytes)?;
        self.files.insert(name, bytes)?;
        Ok(())
    }

    /// Makes the read with this number fail. The first is 1.
    pub fn fail_read(&mut self, call: u64) -> Result<(), AllocError>
        ensures files { SameFiles (Some (shelf_files self.old)) (Some (shelf_files self.new)) }
        ensures ok { OnOk result (shelf_calls self.new
            ≡ (let calls = shelf_calls self.old in record calls { failing_reads = calls.failing_reads ++ call ∷ [] })) }
        ensures err { OnErr result (shelf_calls self.new ≡ shelf_calls self.old) }
    {
        self.failing_reads.push(call)?;
        Ok(())
    }

    /// Makes the store with this number fail and leave this. The first is 1.
    pub fn fail_store(&mut self, call: u64, leaves: Leaves) -> Result<(), AllocError>
        ensures files { SameFiles (Some (shelf_files self.old)) (Some (shelf_files self.new)) }
        ensures ok { OnOk result (shelf_calls self.new
            ≡ (let calls = shelf_calls self.old in
            record calls { failing_stores = calls.failing_stores ++ (record { call = call; leaves = leaves }) ∷ [] })) }
        ensures err { OnErr result (shelf_calls self.new ≡ shelf_calls self.old) }
    {
        self.failing_stores.push(FailingStore { call, leaves })?;
        Ok(())
    }

    /// Makes the read of a kept file with this number fail. The first is 1.
    pub fn fail_kept_read(&mut self, call: u64) -> Result<(), AllocError>
        ensures files { SameFiles (Some (shelf_files self.old)) (Some (shelf_files self.new)) }
        ensures ok { OnOk result (shelf_calls self.new
            ≡ (let calls = shelf_calls self.old in record calls { failing_kept_reads = calls.failing_kept_reads ++ call ∷ [] })) }
        ensures err { OnErr result (shelf_calls self.new ≡ shelf_calls self.old) }
    {
        self.failing_kept_reads.push(call)?;
        Ok(())
    }

    /// What the name holds, without a call that reads.
    pub fn bytes(&self, name: &str) -> Option<&[u8]>
        ensures { MatchOption result (shelf_files self.now name.now ≡ None)
            (λ bytes. shelf_files self.now name.now ≡ Some bytes.now) }
    {
        match self.files.get(name) {
            Some(bytes) => Some(bytes.as_slice()),
            None => None,
        }
    }

    /// How many calls of `read_at` there were.
    pub fn reads(&self) -> u64
        ensures { result ≡ (shelf_calls self.now).reads }
    {
        self.reads
    }

    /// How many calls of `store` there were.
    pub fn stores(&self) -> u64
        ensures { result ≡ (shelf_calls self.now).stores }
    {
        self.stores
    }

    /// How many calls of `read_kept` there were.
    pub fn kept_reads(&self) -> u64
        ensures { result ≡ (shelf_calls self.now).kept_reads }
    {
        self.kept_reads
    }

    /// How many reads failed.
    pub fn read_faults(&self) -> u64
        ensures { result ≡ (shelf_calls self.now).read_faults }
    {
        self.read_faults
    }

    /// How many stores failed.
    pub fn store_faults(&self) -> u64
        ensures { result ≡ (shelf_calls self.now).store_faults }
    {
        self.store_faults
    }

    /// How many reads of kept files failed.
    pub fn kept_faults(&self) -> u64
        ensures { result ≡ (shelf_calls self.now).kept_faults }
    {
        self.kept_faults
    }
}

/// Copies what fits into `into` of the bytes from a place on, and says how many they are.
fn copy_piece(bytes: &[u8], at: u64, into: &mut [u8]) -> usize
    ensures count { result ≡ min (length into.old) (length bytes.now - at) }
    ensures piece { IsPiece bytes.now at into.old into.new result }
    ensures rest { drop result into.new ≡ drop result into.old }
{
    let start = bytes.len().min(at as usize);
    let rest = &bytes[start..];
    let count = into.len().min(rest.len());
    into[..count].copy_from_slice(&rest[..count]);
    count
}

/// What the call with this number leaves, if it is one that is to fail.
fn leaves_at(stores: &[FailingStore], call: u64) -> Option<Leaves>
    ensures { result ≡ leaves_at stores.now call }
{
    stores
        .iter()
        .find(|store| store.call == call)
        .map(|store| store.leaves)
}

impl Shelf for MemShelf {
    ghost read_faults = { λ s. (shelf_calls s).read_faults };

    ghost store_faults = { λ s. (shelf_calls s).store_faults };

    ghost kept_faults = { λ s. (shelf_calls s).kept_faults };

    ghost files = { λ s. Some (shelf_files s) };

    fn read_at(&mut self, name: &str, at: u64, into: &mut [u8]) -> Result<usize, Failed>
        ensures within { IfOk result (λ n. n ≤ length into.old) }
        ensures rest { IfOk result (λ n. drop n into.new ≡ drop n into.old) }
        ensures piece { IfOk result (λ n. ReadsPiece (Some (shelf_files self.old)) name.now at into.old into.new n) }
        ensures failed { OnErr result (Rose (shelf_calls self.old).read_faults (shelf_calls self.new).read_faults) }
        ensures kept { SameFiles (Some (shelf_files self.old)) (Some (shelf_files self.new)) }
        ensures reads { (shelf_calls self.old).read_faults ≤ (shelf_calls self.new).read_faults }
        ensures stores { (shelf_calls self.new).store_faults ≡ (shelf_calls self.old).store_faults }
        ensures kept_reads { (shelf_calls self.new).kept_faults ≡ (shelf_calls self.old).kept_faults }

        ensures answer { result_ok result
            ≡ read_count (shelf_calls self.old) (shelf_files self.old name.now) at (length into.old) }
        ensures calls { shelf_calls self.new ≡ after_read (shelf_calls self.old) (is_ok result) }
    {
        self.reads = self.reads.saturating_add(1);
        let fails = self.failing_reads.contains(&self.reads);
        match self.files.get(name) {
            Some(bytes) if !fails => Ok(copy_piece(bytes.as_slice(), at, into)),
            _ => {
                self.read_faults = self.read_faults.saturating_add(1);
                Err(Failed)
            }
        }
    }

    fn read_kept(&mut self, name: &str, at: u64, into: &mut [u8]) -> Result<usize, Failed>
        ensures within { IfOk result (λ n. n ≤ length into.old) }
        ensures rest { IfOk result (λ n. drop n into.new ≡ drop n into.old) }
        ensures piece { IfOk result (λ n. ReadsPiece (Some (shelf_files self.old)) name.now at into.old into.new n) }
        ensures failed { OnErr result (Rose (shelf_calls self.old).kept_faults (shelf_calls self.new).kept_faults) }
        ensures kept { SameFiles (Some (shelf_files self.old)) (Some (shelf_files self.new)) }
        ensures reads { (shelf_calls self.new).read_faults ≡ (shelf_calls self.old).read_faults }
        ensures stores { (shelf_calls self.new).store_faults ≡ (shelf_calls self.old).store_faults }
        ensures kept_reads { (shelf_calls self.old).kept_faults ≤ (shelf_calls self.new).kept_faults }

        ensures answer { result_ok result
            ≡ kept_count (shelf_calls self.old) (shelf_files self.old name.now) at (length into.old) }
        ensures calls { shelf_calls self.new ≡ after_kept_read (shelf_calls self.old) (is_ok result) }
    {
        self.kept_reads = self.kept_reads.saturating_add(1);
        let fails = self.failing_kept_reads.contains(&self.kept_reads);
        match self.files.get(name) {
            Some(bytes) if !fails => Ok(copy_piece(bytes.as_slice(), at, into)),
            _ => {
                self.kept_faults = self.kept_faults.saturating_add(1);
                Err(Failed)
            }
        }
    }

    fn store(&mut self, name: &str, bytes: &[u8]) -> Result<(), Failed>
        ensures ok { OnOk result (Stored (Some (shelf_files self.old)) (Some (shelf_files self.new)) name.now bytes.now) }
        ensures failed { OnErr result (Rose (shelf_calls self.old).store_faults (shelf_calls self.new).store_faults) }
        ensures left { OnErr result
            (StoredOrPrefix (Some (shelf_files self.old)) (Some (shelf_files self.new)) name.now bytes.now) }
        ensures reads { (shelf_calls self.new).read_faults ≡ (shelf_calls self.old).read_faults }
        ensures stores { (shelf_calls self.old).store_faults ≤ (shelf_calls self.new).store_faults }
        ensures kept_reads { (shelf_calls self.new).kept_faults ≡ (shelf_calls self.old).kept_faults }

        ensures planned { IfSome (next_leaves (shelf_calls self.old)) (λ _. IsErr result) }
        ensures leaves { IfSome (next_leaves (shelf_calls self.old))
            (λ leaves. IsLeft leaves (shelf_files self.old) (shelf_files self.new) name.now bytes.now) }
        ensures refused { IfNone (next_leaves (shelf_calls self.old))
            (OnErr result (SameFiles (Some (shelf_files self.old)) (Some (shelf_files self.new)))) }
        ensures calls { shelf_calls self.new ≡ after_store (shelf_calls self.old) (is_ok result) }
    {
        self.stores = self.stores.saturating_add(1);
        let stored = match leaves_at(&self.failing_stores, self.stores) {
            None => self.put(name, bytes).is_ok(),
            Some(Leaves::Old) => false,
            Some(Leaves::Prefix(count)) => {
                let prefix = &bytes[..bytes.len().min(count as usize)];
                let _ = self.put(name, prefix);
                false
            }
        };
        if !stored {
            self.store_faults = self.store_faults.saturating_add(1);
            return Err(Failed);
        }
        Ok(())
    }
}
