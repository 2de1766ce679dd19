//! Numbers in decimal.

ghost use Rattle.std.specs.Prelude.{◌≡◌, ◌^◌, false, true, length, slice_index, MatchOption};
ghost use Rattle.std.specs.Char.{is_ascii_digit};
ghost use Rattle.bk_parse.specs.Numbers.{is_numeral, number_of, signed_of};

/// The number below 2^32 that a text of decimal digits is. None exactly where it is no digits, has a
/// zero before others, or is too large.
pub fn read_u32(text: &[u8]) -> Option<u32>
    ensures { result ≡ number_of (2 ^ 32) text.now }
{
    numeral(text)?.parse().ok()
}

/// The number below 2^64 that a text of decimal digits is. None exactly where it is no digits, has a
/// zero before others, or is too large.
pub fn read_u64(text: &[u8]) -> Option<u64>
    ensures { result ≡ number_of (2 ^ 64) text.now }
{
    numeral(text)?.parse().ok()
}

/// The number of 128 bits that a text of decimal digits is, with a minus before one below zero. None
/// exactly where it is no such text: for want of digits, with a plus, with a zero before others or
/// behind a minus, or with a number out of range.
pub fn read_i128(text: &[u8]) -> Option<i128>
    ensures { result ≡ signed_of text.now }
{
    match text.first() {
        Some(b'-') => below_zero(text),
        _ => numeral(text)?.parse().ok(),
    }
}

// The number that a text is behind its minus.
fn below_zero(text: &[u8]) -> Option<i128>
    requires { slice_index text.now 0 ≡ 45 }
    ensures { result ≡ signed_of text.now }
{
    if numeral(&text[1..])? == "0" {
        return None;
    }
    std::str::from_utf8(text).ok()?.parse().ok()
}

// The text, where it begins as a numeral does: with a digit, and with zero only where that is alone.
fn numeral(text: &[u8]) -> Option<&str>
    ensures { MatchOption result (is_numeral text.now ≡ false) (λ s. (s.now ≡ text.now) × (is_ascii_digit (slice_index text.now 0) ≡ true) × (slice_index text.now 0 ≡ 48 → length text.now ≡ 1)) }
{
    let first = text.first()?;
    if !first.is_ascii_digit() {
        return None;
    }
    if *first == b'0' && text.len() > 1 {
        return None;
    }
    std::str::from_utf8(text).ok()
}
