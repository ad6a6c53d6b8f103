//! A place in bytes, from which numbers and texts are read.

ghost use Rattle.std.specs.Prelude.{◌≡◌, ◌≤◌, length, drop, position, ◌==◌, IfSome};
ghost use Rattle.ix_base.specs.Reading.{Input, bytes, number, uleb, sleb, zstr, skip, initial_length, offset, input, part, leb64};
ghost use Rattle.ix_base.specs.Moves.{ReadsOrStays, MovesOn};

use crate::leb::{signed, unsigned};
use byteorder::{ByteOrder, LittleEndian};
use memchr::memchr;
use std::marker::Model;

/// Bytes, and the place up to which they were read. Contracts see the place and the bytes that are left.
///
/// Each call that reads gives None exactly where bytes are missing, a LEB128 number doesn't fit in 64 bits or an initial
/// length is reserved. The cursor then stays where it was.
#[derive(Drop)]
pub struct Cursor<'a> {
    bytes: &'a [u8],
    at: usize,
}

impl<'a> Model for Cursor<'a> {
    ghost Value = { Input };

    ghost view = { λ c. record { at = c.at; rest = drop c.at c.bytes.now } };

    ghost invariant = { λ c. c.at ≤ length c.bytes.now };
}

/// How many bytes follow an initial length, and whether offsets have eight bytes (DWARF 5, sections 7.2.2 and 7.4).
#[derive(Clone, Copy, Debug, PartialEq, Eq)]
pub struct Initial {
    pub length: u64,
    pub wide: bool,
}

impl<'a> Cursor<'a> {
    /// A cursor at a place of the bytes, counted from 0.
    pub fn new(bytes: &'a [u8], at: usize) -> Cursor<'a>
        requires { at ≤ length bytes.now }
        ensures { result ≡ input bytes.now at }
    {
        Cursor { bytes, at }
    }

    /// The place, counted from the first byte that the cursor was made over.
    pub fn at(&self) -> usize
        ensures { result ≡ self.now.at }
    {
        self.at
    }

    /// The bytes from the place on.
    pub fn rest(&self) -> &'a [u8]
        ensures { result.now ≡ self.now.rest }
    {
        &self.bytes[self.at..]
    }

    /// The next byte.
    pub fn u8(&mut self) -> Option<u8>
        ensures value { ReadsOrStays (λ x. x) (number 1) self.old self.new result }
        ensures place { MovesOn self.old self.new }
    {
        if self.at < self.bytes.len() {
            let byte = self.bytes[self.at];
            self.at += 1;
            Some(byte)
        } else {
            None
        }
    }

    /// The number in the next 2 bytes, the lowest first.
    pub fn u16(&mut self) -> Option<u16>
        ensures value { ReadsOrStays (λ x. x) (number 2) self.old self.new result }
        ensures place { MovesOn self.old self.new }
    {
        let rest = &self.bytes[self.at..];
        if rest.len() < 2 {
            return None;
        }
        self.at += 2;
        Some(LittleEndian::read_u16(rest))
    }

    /// The number in the next 3 bytes, the lowest first.
    pub fn u24(&mut self) -> Option<u32>
        ensures value { ReadsOrStays (λ x. x) (number 3) self.old self.new result }
        ensures place { MovesOn self.old self.new }
    {
        let rest = &self.bytes[self.at..];
        if rest.len() < 3 {
            return None;
        }
        self.at += 3;
        Some(LittleEndian::read_u24(rest))
    }

    /// The number in the next 4 bytes, the lowest first.
    pub fn u32(&mut self) -> Option<u32>
        ensures value { ReadsOrStays (λ x. x) (number 4) self.old self.new result }
        ensures place { MovesOn self.old self.new }
    {
        let rest = &self.bytes[self.at..];
        if rest.len() < 4 {
            return None;
        }
        self.at += 4;
        Some(LittleEndian::read_u32(rest))
    }

    /// The number in the next 8 bytes, the lowest first.
    pub fn u64(&mut self) -> Option<u64>
        ensures value { ReadsOrStays (λ x. x) (number 8) self.old self.new result }
        ensures place { MovesOn self.old self.new }
    {
        let rest = &self.bytes[self.at..];
        if rest.len() < 8 {
            return None;
        }
        self.at += 8;
        Some(LittleEndian::read_u64(rest))
    }

    /// An offset: 8 bytes in the 64-bit format, else 4 (DWARF 5, section 7.4).
    pub fn offset(&mut self, wide: bool) -> Option<u64>
        ensures value { ReadsOrStays (λ x. x) (offset wide) self.old self.new result }
        ensures place { MovesOn self.old self.new }
    {
        if wide {
            self.u64()
        } else {
            self.u32().map(u64::from)
        }
    }

    /// An unsigned LEB128 number of at most 64 bits, padded or not (DWARF 5, section 7.6).
    pub fn uleb(&mut self) -> Option<u64>
        ensures value { ReadsOrStays (λ x. x) uleb self.old self.new result }
        ensures place { MovesOn self.old self.new }
    {
        let (value, len) = short_or_long(&self.bytes[self.at..])?;
        self.at += len;
        Some(value)
    }

    /// A signed LEB128 number of at most 64 bits, padded or not (DWARF 5, section 7.6).
    pub fn sleb(&mut self) -> Option<i64>
        ensures value { ReadsOrStays (λ x. x) sleb self.old self.new result }
        ensures place { MovesOn self.old self.new }
    {
        let (value, len) = signed(&self.bytes[self.at..])?;
        self.at += len;
        Some(value)
    }

    /// The bytes up to the next zero, without the zero, which is passed too (DWARF 5, section 7.5.5, string).
    pub fn zstr(&mut self) -> Option<&'a [u8]>
        ensures value { ReadsOrStays (λ text. text.now) zstr self.old self.new result }
        ensures place { MovesOn self.old self.new }
    {
        let rest = &self.bytes[self.at..];
        let len = first_zero(rest)?;
        self.at += len + 1;
        Some(&rest[..len])
    }

    /// The next `n` bytes.
    pub fn bytes(&mut self, n: u64) -> Option<&'a [u8]>
        ensures value { ReadsOrStays (λ x. x.now) (bytes n) self.old self.new result }
        ensures place { MovesOn self.old self.new }
    {
        let n = n as usize;
        let rest = &self.bytes[self.at..];
        if rest.len() < n {
            return None;
        }
        self.at += n;
        Some(&rest[..n])
    }

    /// Passes the next `n` bytes.
    pub fn skip(&mut self, n: u64) -> Option<()>
        ensures value { ReadsOrStays (λ _. record {}) (skip n) self.old self.new result }
        ensures place { MovesOn self.old self.new }
    {
        let n = n as usize;
        if self.bytes.len() - self.at < n {
            return None;
        }
        self.at += n;
        Some(())
    }

    /// A cursor over the next `n` bytes alone, which are passed. Its places are those of this cursor.
    pub fn part(&mut self, n: u64) -> Option<Cursor<'a>>
        ensures value { ReadsOrStays (λ x. x) (part n) self.old self.new result }
        ensures place { MovesOn self.old self.new }
    {
        let n = n as usize;
        if self.bytes.len() - self.at < n {
            return None;
        }
        let at = self.at;
        self.at += n;
        Some(Cursor {
            bytes: &self.bytes[..self.at],
            at,
        })
    }

    /// An initial length: a number below FFFFFFF0 in 4 bytes, or FFFFFFFF and a number in 8 bytes (DWARF 5, section 7.2.2).
    #[tactic(auto, unfolding(crate::specs::Reading::initial_length))]
    pub fn initial_length(&mut self) -> Option<Initial>
        ensures value { ReadsOrStays (λ x. record { length = x.length; wide = x.wide }) initial_length self.old self.new result }
        ensures place { MovesOn self.old self.new }
    {
        let mut ahead = self.copied();
        let short = ahead.u32()?;
        let found = if short < 0xFFFF_FFF0 {
            Initial {
                length: u64::from(short),
                wide: false,
            }
        } else if short == 0xFFFF_FFFF {
            Initial {
                length: ahead.u64()?,
                wide: true,
            }
        } else {
            return None;
        };
        *self = ahead;
        Some(found)
    }

    /// A second cursor at the same place of the same bytes.
    pub fn copied(&self) -> Cursor<'a>
        ensures { result ≡ self.now }
    {
        Cursor {
            bytes: self.bytes,
            at: self.at,
        }
    }
}

// The index of the first zero.
fn first_zero(bytes: &[u8]) -> Option<usize>
    ensures { result ≡ position (λ b. b == 0) bytes.now }
{
    memchr(0, bytes)
}

// The unsigned LEB128 number at the front, and how many bytes it takes. Most numbers have one byte.
#[tactic(auto, unfolding(crate::specs::Reading::unsigned_leb))]
fn short_or_long(bytes: &[u8]) -> Option<(u64, usize)>
    ensures value { result ≡ leb64 bytes.now }
    ensures inside { IfSome result (λ n. n.1 ≤ length bytes.now) }
{
    match bytes {
        [byte, ..] if *byte < 128 => Some((u64::from(*byte), 1)),
        _ => unsigned(bytes),
    }
}
