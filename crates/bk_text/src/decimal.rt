//! Numbers in decimal.

ghost use Rattle.std.specs.Prelude.{◌≡◌, ◌++◌, ◌∷◌, decimal, OnOk};

use bk_base::{Bytes, NoMemory};
use itoa::{Buffer, Integer};

/// Puts a number in decimal at the end.
pub fn put_number<I: Integer>(out: &mut Bytes, number: I) -> Result<(), NoMemory>
    ensures { OnOk result (out.new.items ≡ out.old.items ++ I.text number) }
{
    out.extend(Buffer::new().format(number).as_bytes())
}

/// Puts a mark at the end, and behind it a number in decimal.
pub fn put_marked<I: Integer>(out: &mut Bytes, mark: &[u8], number: I) -> Result<(), NoMemory>
    ensures { OnOk result (out.new.items ≡ out.old.items ++ mark.now ++ I.text number) }
{
    out.extend(mark)?;
    put_number(out, number)
}

/// Puts a number in decimal at the end, at once where it has one or two digits.
#[tactic(auto, using(crate::proofs::ShortNumbers::one_digit_put, crate::proofs::ShortNumbers::two_digits_put))]
pub fn put_natural(out: &mut Bytes, number: u64) -> Result<(), NoMemory>
    ensures { OnOk result (out.new.items ≡ out.old.items ++ decimal number) }
{
    if number < 10 {
        return out.push(b'0' + number as u8);
    }
    if number < 100 {
        out.push(b'0' + (number / 10) as u8)?;
        return out.push(b'0' + (number % 10) as u8);
    }
    put_number(out, number)
}

/// Puts a letter at the end, and behind it a number in decimal.
pub fn put_lettered(out: &mut Bytes, letter: u8, number: u64) -> Result<(), NoMemory>
    ensures { OnOk result (out.new.items ≡ out.old.items ++ letter ∷ decimal number) }
{
    out.push(letter)?;
    put_natural(out, number)
}
