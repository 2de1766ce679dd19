//! Lines without their comments.

ghost use Rattle.std.specs.Prelude.{◌≡◌};
ghost use Rattle.listing_out.specs.Listing.{bare, trimmed};

use memchr::memchr;

/// A line without its comment: what stands before its first semicolon, without the spaces at the end.
pub(crate) fn bare(line: &[u8]) -> &[u8]
    ensures { result.now ≡ bare line.now }
{
    match memchr(b';', line) {
        Some(end) => trimmed(&line[..end]),
        None => trimmed(line),
    }
}

// A line without the spaces at its end.
fn trimmed(line: &[u8]) -> &[u8]
    ensures { result.now ≡ trimmed line.now }
{
    let mut end = line.len();
    'spaces: while end > 0 && line[end - 1] == b' ' {
        end -= 1;
    }
    &line[..end]
}
