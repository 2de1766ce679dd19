//! Integers that stand in operands.

ghost use Rattle.std.specs.Prelude.{◌≡◌, length, IfOk};

use bk_base::{ByteList, NoMemory};
use std::alloc::Global;
use std::boxed::Box;
use std::fmt;
use std::marker::Model;

// How many numbers a half has.
const HALF: u128 = 1 << 64;

/// An integer of at most 16 bytes.
///
/// It is kept in two halves, since an `i128` has to stand at a multiple of 16, and would make each
/// operand of each instruction larger by half.
#[derive(Drop)]
pub struct Integer128 {
    high: u64,
    low: u64,
}

impl Model for Integer128 {
    ghost use Rattle.std.specs.Prelude.{ℤ, ◌+◌, ◌*◌, ◌^◌};
    ghost use Rattle.std.specs.Int.{cast_signed, w128};

    ghost Value = { ℤ };

    ghost view = { λ i. cast_signed w128 (i.high * 2 ^ 64 + i.low) };
}

impl Integer128 {
    /// The number.
    pub fn value(&self) -> i128
        ensures { result ≡ self.now }
    {
        (u128::from(self.high) * HALF + u128::from(self.low)).cast_signed()
    }
}

impl From<i128> for Integer128 {
    ghost from_gives = { λ z i. i ≡ z };

    fn from(z: i128) -> Integer128 {
        let bits = z.cast_unsigned();
        Integer128 {
            high: (bits / HALF) as u64,
            low: (bits % HALF) as u64,
        }
    }
}

impl fmt::Debug for Integer128 {
    fn fmt<W: fmt::Write>(&self, f: &mut fmt::Formatter<W>) -> fmt::Result {
        self.value().fmt(f)
    }
}

/// The bytes of an integer of 17 bytes or more, in two's complement, the highest first.
///
/// They stand apart, since few integers are as wide and each operand would be larger by them.
#[derive(Debug, Drop)]
pub struct WideInteger {
    bytes: Box<ByteList>,
}

impl Model for WideInteger {
    ghost use Rattle.std.specs.Prelude.{ℕ, List};

    ghost Value = { List ℕ };

    ghost view = { λ w. w.bytes.value };
}

impl WideInteger {
    /// The integer with these bytes.
    pub fn new(alloc: Global, bytes: ByteList) -> Result<WideInteger, NoMemory>
        ensures { IfOk result (λ w. w ≡ bytes) }
    {
        Ok(WideInteger {
            bytes: Box::new(alloc, bytes)?,
        })
    }

    /// The bytes, the highest first.
    pub fn as_slice(&self) -> &[u8]
        ensures { result.now ≡ self.now }
    {
        self.bytes.as_slice()
    }

    /// How many bytes there are.
    pub fn len(&self) -> usize
        ensures { result ≡ length self.now }
    {
        self.bytes.len()
    }
}
