//! The files of the system as a store.

ghost use Rattle.std.specs.Prelude.{◌≡◌, ◌≤◌, None, length, drop, min, vec_len, is_some, IfOk, OnOk, OnErr, IsSome};
ghost use Rattle.std.specs.Option.{ForSome};
ghost use Rattle.outside.specs.Counts.{Rose};
ghost use Rattle.outside.specs.Files.{ReadsPiece, SameFiles, Stored, StoredOrPrefix};
ghost use Rattle.outside.specs.Places.{WasReadFrom};

use crate::answers::regular;
use crate::device::read_from;
use crate::failure::{Cause, Failure};
use crate::replace::replace;
use crate::shelf::{Failed, Shelf};
use std::alloc::{AllocError, Global};
use std::fs;
use std::rt::Files;

/// How many bytes one read of a file takes at most.
const PIECE: usize = 65536;

/// The file that was read last.
#[derive(Drop)]
struct Opened<R: Files> {
    name: String,
    file: R::File,
}

/// The files of the system, by their paths. It reads regular files alone, and keeps the one that it read last open, so that reading
/// a file in pieces opens it once. A store makes a new file, which takes the old one's place once it is whole. It tells nothing of
/// what the files hold, and keeps why its last failure came.
#[derive(Drop)]
pub struct FileShelf<R: Files> {
    files: R,
    alloc: Global,
    opened: Option<Opened<R>>,
    piece: Vec<u8>,
    read_faults: u64,
    store_faults: u64,
    kept_faults: u64,
    failure: Option<Failure>,
}

impl<R: Files + Drop> FileShelf<R> {
    /// The files of this runtime.
    pub fn new(files: R, alloc: Global) -> Result<Self, AllocError>
        ensures reads { IfOk result (λ shelf. ⟦<FileShelf<R> as Shelf>⟧.read_faults shelf ≡ 0) }
        ensures stores { IfOk result (λ shelf. ⟦<FileShelf<R> as Shelf>⟧.store_faults shelf ≡ 0) }
        ensures kept_reads { IfOk result (λ shelf. ⟦<FileShelf<R> as Shelf>⟧.kept_faults shelf ≡ 0) }
        ensures failure { IfOk result (λ shelf. shelf.failure ≡ None) }
    {
        Ok(FileShelf {
            files,
            alloc,
            opened: None,
            piece: vec![in alloc; 0; PIECE]?,
            read_faults: 0,
            store_faults: 0,
            kept_faults: 0,
            failure: None,
        })
    }

    /// The last call that failed; None where none failed.
    pub fn failure(&self) -> Option<&Failure>
        ensures { is_some result ≡ is_some self.now.failure }
    {
        self.failure.as_ref()
    }

    /// The file with this name. A read from the file's start opens it anew, and any other goes on in the file that was read last, if
    /// that has this name.
    fn open_for(&mut self, name: &str, at: u64) -> Result<Opened<R>, Cause>
        ensures piece { self.new.piece ≡ self.old.piece }
        ensures reads { self.new.read_faults ≡ self.old.read_faults }
        ensures stores { self.new.store_faults ≡ self.old.store_faults }
        ensures kept_reads { self.new.kept_faults ≡ self.old.kept_faults }
    {
        match self.opened.take() {
            Some(opened) if at > 0 && opened.name.as_str() == name => Ok(opened),
            _ => Ok(Opened {
                name: String::from_str(self.alloc, name)?,
                file: open_regular(&self.files, name)?,
            }),
        }
    }

    /// Reads a piece, which passes through a buffer so that the rest of `into` stays.
    fn read_piece(&mut self, name: &str, at: u64, into: &mut [u8]) -> Result<usize, Cause>
        ensures within { IfOk result (λ n. n ≤ length into.old) }
        ensures rest { IfOk result (λ n. drop n into.new ≡ drop n into.old) }
        ensures gave { IfOk result (λ n. ForSome self.new.opened (λ o. WasReadFrom R.File.stream_position R.File.remaining o.file at n (min (length into.old) (vec_len self.old.piece)) into.new)) }
        ensures reads { self.new.read_faults ≡ self.old.read_faults }
        ensures stores { self.new.store_faults ≡ self.old.store_faults }
        ensures kept_reads { self.new.kept_faults ≡ self.old.kept_faults }
    {
        let mut opened = self.open_for(name, at)?;
        let count = read_from(&mut opened.file, at, &mut self.piece, into)?;
        self.opened = Some(opened);
        Ok(count)
    }

    /// Keeps why a call on this name failed.
    fn keep(&mut self, name: &str, cause: Cause)
        ensures kept { IsSome self.new.failure }
        ensures reads { self.new.read_faults ≡ self.old.read_faults }
        ensures stores { self.new.store_faults ≡ self.old.store_faults }
        ensures kept_reads { self.new.kept_faults ≡ self.old.kept_faults }
    {
        let name = String::from_str(self.alloc, name).ok();
        self.failure = Some(Failure::new(name, cause));
    }
}

// Opens a regular file, and refuses anything else before it is opened: the open of a pipe may wait for its other end.
fn open_regular<R: Files>(files: &R, name: &str) -> Result<R::File, Cause> {
    regular(&fs::metadata(files, name)?)?;
    Ok(fs::open(files, name)?)
}

impl<R: Files + Drop> Shelf for FileShelf<R> {
    ghost read_faults = { λ s. s.read_faults };

    ghost store_faults = { λ s. s.store_faults };

    ghost kept_faults = { λ s. s.kept_faults };

    ghost files = { λ _. None };

    fn read_at(&mut self, name: &str, at: u64, into: &mut [u8]) -> Result<usize, Failed>
        ensures within { IfOk result (λ n. n ≤ length into.old) }
        ensures rest { IfOk result (λ n. drop n into.new ≡ drop n into.old) }
        ensures piece { IfOk result (λ n. ReadsPiece None name.now at into.old into.new n) }
        ensures failed { OnErr result (Rose self.old.read_faults self.new.read_faults) }
        ensures kept { SameFiles None None }
        ensures reads { self.old.read_faults ≤ self.new.read_faults }
        ensures stores { self.new.store_faults ≡ self.old.store_faults }
        ensures kept_reads { self.new.kept_faults ≡ self.old.kept_faults }

        ensures gave { IfOk result (λ n. ForSome self.new.opened (λ o. WasReadFrom R.File.stream_position R.File.remaining o.file at n (min (length into.old) (vec_len self.old.piece)) into.new)) }
        ensures told { OnErr result (IsSome self.new.failure) }
    {
        match self.read_piece(name, at, into) {
            Ok(count) => Ok(count),
            Err(cause) => {
                self.keep(name, cause);
                self.read_faults = self.read_faults.saturating_add(1);
                Err(Failed)
            }
        }
    }

    fn read_kept(&mut self, name: &str, at: u64, into: &mut [u8]) -> Result<usize, Failed>
        ensures within { IfOk result (λ n. n ≤ length into.old) }
        ensures rest { IfOk result (λ n. drop n into.new ≡ drop n into.old) }
        ensures piece { IfOk result (λ n. ReadsPiece None name.now at into.old into.new n) }
        ensures failed { OnErr result (Rose self.old.kept_faults self.new.kept_faults) }
        ensures kept { SameFiles None None }
        ensures reads { self.new.read_faults ≡ self.old.read_faults }
        ensures stores { self.new.store_faults ≡ self.old.store_faults }
        ensures kept_reads { self.old.kept_faults ≤ self.new.kept_faults }

        ensures gave { IfOk result (λ n. ForSome self.new.opened (λ o. WasReadFrom R.File.stream_position R.File.remaining o.file at n (min (length into.old) (vec_len self.old.piece)) into.new)) }
        ensures told { OnErr result (IsSome self.new.failure) }
    {
        match self.read_piece(name, at, into) {
            Ok(count) => Ok(count),
            Err(cause) => {
                self.keep(name, cause);
                self.kept_faults = self.kept_faults.saturating_add(1);
                Err(Failed)
            }
        }
    }

    fn store(&mut self, name: &str, bytes: &[u8]) -> Result<(), Failed>
        ensures ok { OnOk result (Stored None None name.now bytes.now) }
        ensures failed { OnErr result (Rose self.old.store_faults self.new.store_faults) }
        ensures left { OnErr result (StoredOrPrefix None None name.now bytes.now) }
        ensures reads { self.new.read_faults ≡ self.old.read_faults }
        ensures stores { self.old.store_faults ≤ self.new.store_faults }
        ensures kept_reads { self.new.kept_faults ≡ self.old.kept_faults }

        ensures told { OnErr result (IsSome self.new.failure) }
    {
        self.opened = None;
        match replace(&self.files, self.alloc, name, bytes) {
            Ok(()) => Ok(()),
            Err(error) => {
                self.keep(name, Cause::System(error));
                self.store_faults = self.store_faults.saturating_add(1);
                Err(Failed)
            }
        }
    }
}
