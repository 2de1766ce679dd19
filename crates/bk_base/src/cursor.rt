//! A cursor over bytes.

ghost use Rattle.std.specs.Prelude.{◌≡◌, ◌<◌, ◌↔◌, [], length, take, slice_index, IsTrue, IsNone, IfSome, OnSome};
ghost use Rattle.bk_base.specs.Place.{moved};
ghost use Rattle.byteorder.specs.Endian.{big_number};

use byteorder::{BigEndian, ByteOrder};
use std::marker::Model;

/// A place in bytes that are read from the front.
///
/// Contracts see the bytes that are left, `rest`, and the `offset` of the first of them, counted from
/// where the cursor began. A read gives the next bytes and moves past just these, or gives `None` and
/// moves nothing, exactly where too few bytes are left.
#[derive(Debug, Drop)]
pub struct Cursor<'a> {
    rest: &'a [u8],
    offset: usize,
}

impl<'a> Model for Cursor<'a> {
    ghost use Rattle.std.specs.Prelude.{◌+◌, ◌^◌, ◌<◌, length};
    ghost use Rattle.bk_base.specs.Place.{Place};

    ghost Value = { Place };

    ghost view = { λ c. record { rest = c.rest.now; offset = c.offset } };

    ghost invariant = { λ c. c.offset + length c.rest.now < 2 ^ 64 };
}

impl<'a> Cursor<'a> {
    /// A cursor at the front of the bytes.
    pub fn new(s: &'a [u8]) -> Cursor<'a>
        ensures rest { result.rest ≡ s.now }
        ensures offset { result.offset ≡ 0 }
    {
        Cursor { rest: s, offset: 0 }
    }

    /// How many bytes were read.
    pub fn at(&self) -> usize
        ensures { result ≡ self.now.offset }
    {
        self.offset
    }

    /// The bytes that are left.
    pub fn rest(&self) -> &'a [u8]
        ensures { result.now ≡ self.now.rest }
    {
        self.rest
    }

    /// Whether no byte is left.
    pub fn is_empty(&self) -> bool
        ensures { IsTrue result ↔ (self.now.rest ≡ []) }
    {
        self.rest.is_empty()
    }

    /// The next `n` bytes.
    pub fn take(&mut self, n: usize) -> Option<&'a [u8]>
        ensures none { IsNone result ↔ (length self.old.rest < n) }
        ensures some { IfSome result (λ s. s.now ≡ take n self.old.rest) }
        ensures moves { OnSome result (self.new ≡ moved n self.old) }
        ensures stays { IsNone result → self.new ≡ self.old }
    {
        if self.rest.len() < n {
            return None;
        }
        let (front, rest) = self.rest.split_at(n);
        self.rest = rest;
        self.offset += n;
        Some(front)
    }

    /// The next byte.
    pub fn byte(&mut self) -> Option<u8>
        ensures none { IsNone result ↔ (length self.old.rest < 1) }
        ensures some { IfSome result (λ b. b ≡ slice_index self.old.rest 0) }
        ensures moves { OnSome result (self.new ≡ moved 1 self.old) }
        ensures stays { IsNone result → self.new ≡ self.old }
    {
        let s = self.take(1)?;
        Some(s[0])
    }

    /// The next two bytes as a number, the high one first.
    pub fn be16(&mut self) -> Option<u16>
        ensures none { IsNone result ↔ (length self.old.rest < 2) }
        ensures some { IfSome result (λ n. n ≡ big_number 2 self.old.rest) }
        ensures moves { OnSome result (self.new ≡ moved 2 self.old) }
        ensures stays { IsNone result → self.new ≡ self.old }
    {
        let s = self.take(2)?;
        Some(BigEndian::read_u16(s))
    }

    /// The next four bytes as a number, the highest one first.
    pub fn be32(&mut self) -> Option<u32>
        ensures none { IsNone result ↔ (length self.old.rest < 4) }
        ensures some { IfSome result (λ n. n ≡ big_number 4 self.old.rest) }
        ensures moves { OnSome result (self.new ≡ moved 4 self.old) }
        ensures stays { IsNone result → self.new ≡ self.old }
    {
        let s = self.take(4)?;
        Some(BigEndian::read_u32(s))
    }
}
