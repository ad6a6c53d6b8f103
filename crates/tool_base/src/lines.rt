//! An output that remembers the first and the last line that it took.

ghost use Rattle.std.specs.Prelude.{◌≡◌, ◌≤◌};

use memchr::{memchr, memrchr};
use outside::{Failed, Sink};
use std::marker::Model;

/// More bytes than a line has that names a fault.
const KEPT: usize = 64;

/// An output that hands all on to another, and keeps the first and the last bytes that it took.
#[derive(Drop)]
pub struct Remembering<K> {
    to: K,
    first: [u8; KEPT],
    first_len: usize,
    last: [u8; KEPT],
    len: usize,
    ghost first_within: { first_len ≤ 64 },
    ghost within: { len ≤ 64 },
}

impl<K> Model for Remembering<K> {
    ghost Value = { K };

    ghost view = { λ s. s.to };
}

impl<K: Sink> Remembering<K> {
    /// An output over another, of which nothing was taken yet.
    pub fn over(to: K) -> Self
        ensures { result ≡ to }
    {
        Remembering {
            to,
            first: [0; KEPT],
            first_len: 0,
            last: [0; KEPT],
            len: 0,
        }
    }

    /// The output that takes all.
    pub fn inner(&self) -> &K
        ensures { result.now ≡ self.now }
    {
        &self.to
    }

    /// The first line that was written, or the front of it.
    pub fn first_line(&self) -> &[u8] {
        let text = &self.first[..self.first_len];
        match memchr(b'\n', text) {
            Some(at) => &text[..at],
            None => text,
        }
    }

    /// The last line that was written, or the end of it.
    pub fn last_line(&self) -> &[u8] {
        let text = &self.last[..self.len];
        let text = text.strip_suffix(b"\n").unwrap_or(text);
        match memrchr(b'\n', text) {
            Some(at) => &text[at + 1..],
            None => text,
        }
    }

    // Keeps the front of these bytes, as far as there is room behind what was kept.
    fn keep_first(&mut self, piece: &[u8])
        ensures { self.new ≡ self.old }
    {
        let count = piece.len().min(KEPT - self.first_len);
        self.first[self.first_len..self.first_len + count].copy_from_slice(&piece[..count]);
        self.first_len += count;
    }

    // Keeps the end of what was kept and of these bytes.
    fn keep_last(&mut self, piece: &[u8])
        ensures { self.new ≡ self.old }
    {
        let fresh = &piece[piece.len() - piece.len().min(KEPT)..];
        let old = self.len.min(KEPT - fresh.len());
        self.last.copy_within(self.len - old..self.len, 0);
        self.last[old..old + fresh.len()].copy_from_slice(fresh);
        self.len = old + fresh.len();
    }
}

impl<K: Sink> Sink for Remembering<K> {
    ghost write_faults = { λ s. K.write_faults s };

    ghost written = { λ s. K.written s };

    fn write(&mut self, piece: &[u8]) -> Result<usize, Failed> {
        let count = self.to.write(piece)?;
        self.keep_first(&piece[..count]);
        self.keep_last(&piece[..count]);
        Ok(count)
    }
}
