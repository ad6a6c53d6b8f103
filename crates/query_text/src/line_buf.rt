//! The buffer in which a session finds its lines.

ghost use Rattle.std.specs.Prelude.{◌≡◌, ◌≤◌, ◌<◌, ℕ, ◌+◌, [], ◌∷◌, ◌++◌, length, take, drop, IfOk, OnErr};
ghost use Rattle.outside.specs.Counts.{Rose};
ghost use Rattle.outside.specs.Taken.{Takes, IsAtEnd};
ghost use Rattle.query_text.specs.Buffers.{empty_buffer, longest_line};
ghost use Rattle.query_text.specs.WholeLines.{IsFirstNewline};

use ix_base::NoMemory;
use memchr::memchr;
use outside::{Failed, Source};
use std::alloc::Global;
use std::marker::Model;

/// How many bytes wait at most: a line of the greatest length, and its newline.
const ROOM: usize = 65537;

/// Room for the longest line and its newline. Contracts see how many bytes there is room for, the beginning of a line
/// whose newline isn't found yet, and the bytes behind it.
#[derive(Drop)]
pub struct LineBuf {
    bytes: Vec<u8>,
    start: usize,
    searched: usize,
    filled: usize,
}

impl Model for LineBuf {
    ghost use Rattle.std.specs.Prelude.{◌≡◌, ◌≤◌, ◌-◌, length, take, drop};
    ghost use Rattle.query_text.specs.Buffers.{Buffer};

    ghost Value = { Buffer };

    ghost view = { λ b. record {
      room = length b.bytes.items;
      part = take (b.searched - b.start) (drop b.start b.bytes.items);
      fresh = take (b.filled - b.searched) (drop b.searched b.bytes.items);
    } };

    ghost invariant = { λ b. (length b.bytes.items ≡ 65537) × (b.start ≤ b.searched) × (b.searched ≤ b.filled) × (b.filled ≤ 65537) };
}

impl LineBuf {
    /// An empty buffer of 65,537 bytes.
    ///
    /// # Errors
    ///
    /// `NoMemory` where memory was refused.
    pub fn new(alloc: Global) -> Result<LineBuf, NoMemory>
        ensures empty { IfOk result (λ buffer. buffer ≡ empty_buffer) }
        ensures room { IfOk result (λ buffer. buffer.room ≡ longest_line + 1) }
    {
        Ok(LineBuf {
            bytes: vec![in alloc; 0; ROOM]?,
            start: 0,
            searched: 0,
            filled: 0,
        })
    }

    /// Lets go of all bytes.
    pub(crate) fn clear(&mut self)
        ensures { self.new ≡ empty_buffer }
    {
        self.start = 0;
        self.searched = 0;
        self.filled = 0;
    }

    /// Reads behind the part, so many bytes at most, and says how many.
    pub(crate) fn fill<S: Source>(&mut self, input: &mut S, most: usize) -> Result<usize, Failed>
        requires searched { self.old.fresh ≡ [] }
        requires room { length self.old.part ≤ longest_line }
        requires some { 1 ≤ most }
        ensures part { self.new.part ≡ self.old.part }
        ensures fits { length self.new.part + length self.new.fresh ≤ longest_line + 1 }
        ensures fresh { IfOk result (λ n. length self.new.fresh ≡ n) }
        ensures most { IfOk result (λ n. n ≤ most) }
        ensures taken { IfOk result (λ n. Takes (S.left input.old) (S.left input.new) self.new.fresh) }
        ensures end { IfOk result (λ n. n ≡ 0 → IsAtEnd (S.left input.new)) }
        ensures failed { OnErr result (Rose (S.read_faults input.old) (S.read_faults input.new)) }
        ensures unchanged { OnErr result (Takes (S.left input.old) (S.left input.new) []) }
        ensures counts { S.read_faults input.old ≤ S.read_faults input.new }
    {
        let len = self.filled - self.start;
        move_down(&mut self.bytes, self.start, len);
        self.start = 0;
        self.searched = len;
        self.filled = len;
        let count = read_behind(input, &mut self.bytes, len, most)?;
        self.filled += count;
        Ok(count)
    }

    /// Where the first newline of the fresh bytes stands.
    pub(crate) fn newline(&self) -> Option<usize>
        ensures { IsFirstNewline self.now.fresh result }
    {
        first_newline(&self.bytes[self.searched..self.filled])
    }

    /// The part and so many fresh bytes.
    pub(crate) fn line_up_to(&self, end: usize) -> &[u8]
        requires { end ≤ length self.now.fresh }
        ensures { result.now ≡ self.now.part ++ take end self.now.fresh }
    {
        &self.bytes[self.start..self.searched + end]
    }

    /// Lets go of the part, of so many fresh bytes and of the newline behind them.
    pub(crate) fn pass_line(&mut self, end: usize)
        requires { end < length self.old.fresh }
        ensures part { self.new.part ≡ [] }
        ensures fresh { self.new.fresh ≡ drop (end + 1) self.old.fresh }
    {
        let next = self.searched + end + 1;
        self.start = next;
        self.searched = next;
    }

    /// Makes the fresh bytes a part of the line.
    pub(crate) fn keep(&mut self)
        ensures part { self.new.part ≡ self.old.part ++ self.old.fresh }
        ensures fresh { self.new.fresh ≡ [] }
    {
        self.searched = self.filled;
    }

    /// The beginning of the line whose newline isn't found yet.
    pub(crate) fn part(&self) -> &[u8]
        ensures { result.now ≡ self.now.part }
    {
        &self.bytes[self.start..self.searched]
    }
}

// Moves bytes to the front.
fn move_down(bytes: &mut [u8], start: usize, len: usize)
    requires { start + len ≤ length bytes.old }
    ensures { take len bytes.new ≡ take len (drop start bytes.old) }
{
    if start > 0 {
        bytes.copy_within(start..start + len, 0);
    }
}

// Reads to a place that isn't the end, so many bytes at most, and leaves what stands before it.
fn read_behind<S: Source>(
    input: &mut S,
    bytes: &mut [u8],
    from: usize,
    most: usize,
) -> Result<usize, Failed>
    requires inside { from < length bytes.old }
    requires some { 1 ≤ most }
    ensures front { take from bytes.new ≡ take from bytes.old }
    ensures within { IfOk result (λ n. from + n ≤ length bytes.old) }
    ensures most { IfOk result (λ n. n ≤ most) }
    ensures taken { IfOk result (λ n. Takes (S.left input.old) (S.left input.new) (take n (drop from bytes.new))) }
    ensures end { IfOk result (λ n. n ≡ 0 → IsAtEnd (S.left input.new)) }
    ensures failed { OnErr result (Rose (S.read_faults input.old) (S.read_faults input.new)) }
    ensures unchanged { OnErr result (Takes (S.left input.old) (S.left input.new) []) }
    ensures counts { S.read_faults input.old ≤ S.read_faults input.new }
{
    let end = from + most.min(bytes.len() - from);
    let count = input.read(&mut bytes[from..end])?;
    Ok(count)
}

// The place of the first newline.
fn first_newline(bytes: &[u8]) -> Option<usize>
    ensures { IsFirstNewline bytes.now result }
{
    memchr(b'\n', bytes)
}
