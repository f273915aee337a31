//! Strings of a heap.
ghost use Rattle.std.specs.Prelude.{◌≡◌, ◌<◌, length, take, IfSome};
ghost use Rattle.std.specs.Str as str_spec;
ghost use Rattle.std.specs.Str.{IsUtf8};
ghost use Rattle.cli_words.specs.Span.{LiesIn, zero_after};
ghost use Rattle.meta_heaps.specs.Heaps.{string_at};
ghost use Rattle.assembly_image.specs.Checks as spec;

use cli_words::Span;
use std::str;

/// How many bytes the longest string has, with its zero.
pub(crate) const LONGEST_WITH_ZERO: usize = 1024;

/// Whether a string that is UTF-8 and not too long stands at an index of the heap. No more bytes
/// than a string may have are looked at.
pub(crate) fn is_string(bytes: &[u8], heap: Span, index: usize) -> bool
    requires { LiesIn (length bytes.now) heap }
    ensures { result ≡ spec.is_string bytes.now (string_at bytes.now heap index) }
{
    let Some(rest) = heap.cut(bytes).get(index..) else {
        return false;
    };
    let Some(len) = zero_within(rest) else {
        return false;
    };
    let at = heap.at + index;
    is_utf8(Span { at, len }.cut(bytes))
}

/// How many bytes stand before the first zero, if it is near enough.
fn zero_within(bytes: &[u8]) -> Option<usize>
    ensures zero { result ≡ zero_after (take 1024 bytes.now) }
    ensures within { IfSome result (λ len. len < length bytes.now) }
{
    zero_after(&bytes[..LONGEST_WITH_ZERO.min(bytes.len())])
}

fn zero_after(bytes: &[u8]) -> Option<usize>
    ensures zero { result ≡ zero_after bytes.now }
    ensures within { IfSome result (λ len. len < length bytes.now) }
{
    bytes.iter().position(|byte| *byte == 0)
}

pub(crate) fn is_utf8(bytes: &[u8]) -> bool
    ensures { result ≡ str_spec.is_utf8 bytes.now }
{
    match str::from_utf8(bytes) {
        Ok(_) => true,
        Err(_) => false,
    }
}

/// The text of bytes that are UTF-8.
pub(crate) fn text(bytes: &[u8]) -> &str
    requires { IsUtf8 bytes.now }
    ensures { result.now ≡ bytes.now }
{
    str::from_utf8(bytes).unwrap()
}
