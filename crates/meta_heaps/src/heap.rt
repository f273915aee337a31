//! The entries of the heaps.
ghost use Rattle.std.specs.Prelude.{◌≡◌, length, IfSome};
ghost use Rattle.cli_words.specs.Span.{LiesIn};
ghost use Rattle.meta_heaps.specs.Heaps.{IsWithin, string_at, entry_at, blob_at, user_string_at};
ghost use Rattle.meta_heaps.specs.Heaps.{guid_at};

use cli_words::{Span, read_compressed, zero_after};

/// The length of an entry of `#GUID`, in bytes.
const GUID_LEN: usize = 16;

/// The streams of the metadata, as spans of the file's bytes. A missing one has length 0.
/// ECMA-335 II.24.2.2.
#[derive(Clone, Copy, PartialEq, Eq, Debug)]
pub struct Root {
    /// `#~`
    pub tables: Span,
    /// `#Strings`
    pub strings: Span,
    /// `#US`
    pub user_strings: Span,
    /// `#GUID`
    pub guids: Span,
    /// `#Blob`
    pub blobs: Span,
}

impl Root {
    /// The string at byte `index` of `#Strings`, without its zero. `None` exactly where no zero
    /// follows in the heap. ECMA-335 II.24.2.3.
    pub fn string(&self, bytes: &[u8], index: u32) -> Option<Span>
        requires { IsWithin (length bytes.now) self.now }
        ensures found { result ≡ string_at bytes.now self.now.strings index }
        ensures within { IfSome result (λ entry. LiesIn (length bytes.now) entry) }
    {
        let index = index as usize;
        let len = zero_after(self.strings.cut(bytes).get(index..)?)?;
        Some(Span {
            at: self.strings.at + index,
            len,
        })
    }

    /// The bytes of the blob at byte `index` of `#Blob`, without their count. `None` exactly where no
    /// compressed number stands there whole in the heap, or fewer bytes follow it in the heap than
    /// it says; but index 0 of an empty heap is the empty blob. ECMA-335 II.24.2.4.
    pub fn blob(&self, bytes: &[u8], index: u32) -> Option<Span>
        requires { IsWithin (length bytes.now) self.now }
        ensures found { result ≡ blob_at bytes.now self.now.blobs index }
        ensures within { IfSome result (λ entry. LiesIn (length bytes.now) entry) }
    {
        if self.blobs.len == 0 && index == 0 {
            return Some(self.blobs);
        }
        entry(bytes, self.blobs, index)
    }

    /// The units of the text at byte `index` of `#US`, two bytes each. `None` exactly where no
    /// compressed number stands there whole in the heap, or fewer bytes follow it in the heap than
    /// it says, or it is even: one more byte stands after the units. ECMA-335 II.24.2.4.
    pub fn user_string(&self, bytes: &[u8], index: u32) -> Option<Span>
        requires { IsWithin (length bytes.now) self.now }
        ensures found { result ≡ user_string_at bytes.now self.now.user_strings index }
        ensures within { IfSome result (λ entry. LiesIn (length bytes.now) entry) }
    {
        let Span { at, len } = entry(bytes, self.user_strings, index)?;
        if len % 2 == 1 {
            Some(Span { at, len: len - 1 })
        } else {
            None
        }
    }

    /// The GUID of this number, counted from 1, in `#GUID`. `None` exactly for 0 and past the last
    /// whole 16 bytes. ECMA-335 II.24.2.5.
    pub fn guid(&self, _bytes: &[u8], index: u32) -> Option<Span>
        requires { IsWithin (length _bytes.now) self.now }
        ensures found { result ≡ guid_at self.now.guids index }
        ensures within { IfSome result (λ entry. LiesIn (length _bytes.now) entry) }
    {
        let index = index as usize;
        if index == 0 || GUID_LEN * index > self.guids.len {
            return None;
        }
        Some(Span {
            at: self.guids.at + GUID_LEN * (index - 1),
            len: GUID_LEN,
        })
    }
}

/// The bytes of the entry at byte `index` of a heap whose entries begin with their count.
fn entry(bytes: &[u8], heap: Span, index: u32) -> Option<Span>
    requires { LiesIn (length bytes.now) heap }
    ensures found { result ≡ entry_at bytes.now heap index }
    ensures within { IfSome result (λ entry. LiesIn (length bytes.now) entry) }
{
    let index = index as usize;
    let (len, taken) = read_compressed(heap.cut(bytes), index)?;
    let from = index + taken;
    let len = len as usize;
    if from + len > heap.len {
        return None;
    }
    Some(Span {
        at: heap.at + from,
        len,
    })
}
