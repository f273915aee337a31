//! The texts of the heap `#Strings`, each checked once, whatever the rows name.
ghost use Rattle.std.specs.Prelude.{◌≡◌, ℕ, ◌+◌, ◌-◌, ◌≤◌, ◌<◌, ◌==◌, min, length, drop};
ghost use Rattle.std.specs.Prelude.{IfOk, if◌then◌else◌, slice_index_or, false};
ghost use Rattle.cli_words.specs.Span.{LiesIn, zero_after};
ghost use Rattle.meta_heaps.specs.Heaps.{string_at};
ghost use Rattle.assembly_image.specs.Checks as spec;
ghost use Rattle.assembly_image.specs.Texts.{AreTexts, AreStartsFrom, begins_text, begins_wide};
ghost use Rattle.assembly_image.specs.Texts.{goes_on, near};

use crate::strings::{LONGEST_WITH_ZERO, is_string, is_utf8};
use cli_words::Span;
use std::alloc::{AllocError, Global};

/// At which places of the heap a text begins that is UTF-8 and not too long.
#[derive(Drop)]
pub(crate) struct Texts {
    /// A flag for each byte of the heap. `None` where the memory for them was refused.
    starts: Option<Vec<bool>>,
}

impl Texts {
    /// Goes over the heap once, so that a row costs the same whatever it names.
    pub(crate) fn of(alloc: Global, bytes: &[u8], heap: Span) -> Texts
        requires { LiesIn (length bytes.now) heap }
        ensures { AreTexts bytes.now heap result }
    {
        Texts {
            starts: find_starts(alloc, heap.cut(bytes)).ok(),
        }
    }

    /// Whether a text that is UTF-8 and not too long stands at an index of the heap. Without flags
    /// its bytes are looked at.
    pub(crate) fn is_string(&self, bytes: &[u8], heap: Span, index: usize) -> bool
        requires lies { LiesIn (length bytes.now) heap }
        requires texts { AreTexts bytes.now heap self.now }
        ensures { result ≡ spec.is_string bytes.now (string_at bytes.now heap index) }
    {
        match &self.starts {
            Some(starts) => flag_at(starts.as_slice(), index),
            None => is_string(bytes, heap, index),
        }
    }
}

/// The flag of this place; none is set past the last.
fn flag_at(flags: &[bool], index: usize) -> bool
    ensures { result ≡ slice_index_or flags.now index false }
{
    index < flags.len() && flags[index]
}

/// Whether a text begins at each place of the heap. It goes from the heap's end to its front, since
/// a text is one character and the text after it.
fn find_starts(alloc: Global, heap: &[u8]) -> Result<Vec<bool>, AllocError>
    ensures { IfOk result (λ starts. AreStartsFrom heap.now starts.items 0) }
{
    let mut starts = vec![in alloc; false; heap.len()]?;
    let mut len = LONGEST_WITH_ZERO;
    for after in 0..heap.len() {
        let at = heap.len() - 1 - after;
        len = nearer(heap[at], len);
        let begins = begins_text(heap, starts.as_slice(), at, len);
        starts[at] = begins;
    }
    Ok(starts)
}

/// How many bytes away the zero is, where it is `len` bytes from the byte after this one.
fn nearer(byte: u8, len: usize) -> usize
    requires { len ≤ 1024 }
    ensures { result ≡ (if byte == 0 then 0 else min 1024 (len + 1)) }
{
    if byte == 0 {
        0
    } else {
        LONGEST_WITH_ZERO.min(len + 1)
    }
}

/// Whether a text begins at a place whose zero is `len` bytes away.
fn begins_text(heap: &[u8], starts: &[bool], at: usize, len: usize) -> bool
    requires place { at < length heap.now }
    requires starts { AreStartsFrom heap.now starts.now (at + 1) }
    requires zero { len ≡ near (zero_after (drop at heap.now)) }
    ensures { result ≡ begins_text (drop at heap.now) }
{
    if len == 0 {
        return true;
    }
    if len == LONGEST_WITH_ZERO {
        return false;
    }
    if heap[at] < 0x80 {
        return starts[at + 1];
    }
    begins_wide(heap, starts, at, len)
}

/// Whether a text begins at a place with a character of more than one byte.
fn begins_wide(heap: &[u8], starts: &[bool], at: usize, len: usize) -> bool
    requires place { at + len < length heap.now }
    requires starts { AreStartsFrom heap.now starts.now (at + 1) }
    ensures { result ≡ begins_wide (drop at heap.now) len }
{
    goes_on(heap, starts, at, len, 2)
        || goes_on(heap, starts, at, len, 3)
        || goes_on(heap, starts, at, len, 4)
}

/// Whether a text begins at a place with a character of this size.
fn goes_on(heap: &[u8], starts: &[bool], at: usize, len: usize, size: usize) -> bool
    requires place { at + len < length heap.now }
    requires some { 0 < size }
    requires starts { AreStartsFrom heap.now starts.now (at + 1) }
    ensures { result ≡ goes_on (drop at heap.now) len size }
{
    size <= len && starts[at + size] && is_utf8(&heap[at..at + size])
}
