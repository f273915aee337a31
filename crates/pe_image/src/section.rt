//! Sections of a PE file.
ghost use Rattle.std.specs.Prelude.{◌≡◌, ◌+◌, ◌^◌, ◌<◌, ◌≤◌, length, IsTrue, IfSome};
ghost use Rattle.std.specs.List.{find};
ghost use Rattle.pe_image.specs.Section.{sections_place, section_count, headers};
ghost use Rattle.pe_image.specs.Section.{holds, span_from, span_of};

use crate::headers::{FILE_HEADER, OPTIONAL_LENGTH};
use cli_words::{Span, u16_at, u32_at};

/// The bytes of a section header.
pub(crate) const SECTION_HEADER: usize = 40;

/// Where in it the place of the section in memory stands.
const ADDRESS: usize = 12;

/// Where the count of its bytes in the file stands.
const SIZE: usize = 16;

/// Where the place of these in the file stands.
const PLACE: usize = 20;

/// Where the count of the sections stands, from the PE signature on.
const SECTION_COUNT: usize = 6;

/// The section headers of a file: where they begin, and how many there are.
#[derive(Clone, Copy)]
pub struct Sections {
    pub at: usize,
    pub count: u16,
}

impl Sections {
    /// Those of the file whose PE signature stands at `signature`.
    pub fn of(bytes: &[u8], signature: usize) -> Sections
        requires { signature + 24 ≤ length bytes.now }
        ensures at { result.at ≡ sections_place bytes.now signature }
        ensures low { result.at ≤ signature + 24 + 2 ^ 16 }
        ensures count { result.count ≡ section_count bytes.now signature }
    {
        Sections {
            at: signature + FILE_HEADER + usize::from(u16_at(bytes, signature + OPTIONAL_LENGTH)),
            count: u16_at(bytes, signature + SECTION_COUNT),
        }
    }

    /// The bytes of the file that the first section which has the `len` bytes of memory from `rva`
    /// on gives for them.
    pub fn span(&self, bytes: &[u8], rva: u32, len: u32) -> Option<Span>
        ensures span { result ≡ span_of bytes.now self.now.at self.now.count rva len }
        ensures low { IfSome result (λ span. span.at < 2 ^ 33) }
    {
        let header = self.first_holder(bytes, rva, len)?;
        Some(span_from(bytes, header, rva, len))
    }

    fn first_holder(&self, bytes: &[u8], rva: u32, len: u32) -> Option<usize>
        ensures { result ≡ find (holds bytes.now rva len) (headers self.now.at self.now.count) }
    {
        let first = self.at;
        if bytes.len() < first {
            return None;
        }
        (0..self.count)
            .map(|n| first + SECTION_HEADER * usize::from(n))
            .find(|at| holds(bytes, *at, rva, len))
    }
}

fn holds(bytes: &[u8], at: usize, rva: u32, len: u32) -> bool
    ensures { result ≡ holds bytes.now rva len at }
{
    if bytes.len() < SECTION_HEADER || bytes.len() - SECTION_HEADER < at {
        return false;
    }
    let address = u64::from(u32_at(bytes, at + ADDRESS));
    let size = u64::from(u32_at(bytes, at + SIZE));
    address <= u64::from(rva) && u64::from(rva) + u64::from(len) <= address + size
}

fn span_from(bytes: &[u8], at: usize, rva: u32, len: u32) -> Span
    requires { IsTrue (holds bytes.now rva len at) }
    ensures span { result ≡ span_from bytes.now rva len at }
    ensures low { result.at < 2 ^ 33 }
{
    let address = u32_at(bytes, at + ADDRESS);
    let place = u32_at(bytes, at + PLACE);
    Span {
        at: place as usize + (rva - address) as usize,
        len: len as usize,
    }
}
