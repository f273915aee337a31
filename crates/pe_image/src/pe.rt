//! Where the parts of an image lie in its file.
ghost use Rattle.std.specs.Prelude.{◌≡◌};
ghost use Rattle.pe_image.specs.Section.{span_of, IsFirstSpan};

use crate::section::Sections;
use cli_words::Span;

/// A PE file with CLI metadata: where its section headers begin, how many there are, and
/// where the metadata lies, by its place in the file and its length. All are in bytes but the
/// count. The metadata may run past the file's end.
#[derive(Clone, Copy, PartialEq, Eq, Debug)]
pub struct Pe {
    pub sections_at: usize,
    pub sections: u16,
    pub root_at: usize,
    pub root_len: usize,
}

impl Pe {
    /// The bytes of the file that are the `len` bytes of memory from `rva` on, by the first section
    /// that holds them; `None` exactly where no section does. A section whose header runs past the
    /// end of `bytes` holds nothing; the span itself may run past it. ECMA-335 II.25.3.
    pub fn at(&self, bytes: &[u8], rva: u32, len: u32) -> Option<Span>
        ensures span { result ≡ span_of bytes.now self.now.sections_at self.now.sections rva len }
        ensures first { IsFirstSpan bytes.now self.now.sections_at self.now.sections rva len result }
    {
        let sections = Sections {
            at: self.sections_at,
            count: self.sections,
        };
        sections.span(bytes, rva, len)
    }
}
