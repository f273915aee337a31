//! The metadata root. ECMA-335 II.24.2.1.
ghost use Rattle.std.specs.Prelude.{◌≡◌, ◌+◌, ◌-◌, ◌<◌, ◌^◌, length, IfOk};
ghost use Rattle.cli_words.specs.Check.{first_fault, answer};
ghost use Rattle.cli_words.specs.Span.{LiesIn};
ghost use Rattle.meta_heaps.specs.Heaps.{IsWithin};
ghost use Rattle.meta_heaps.specs.Headers.{IsSound};
ghost use Rattle.meta_heaps.specs.Reading.{root_checks, metadata_checks, root_of, root_in, span_of};

use crate::header::{first_outside, has_root, named};
use crate::heap::Root;
use cli_words::{CheckCode, FailedCheck, Span};

/// The first bytes of a metadata root.
const SIGNATURE: [u8; 4] = [0x42, 0x53, 0x4A, 0x42];

/// The least length of `#~`, in bytes.
const LEAST_TABLES: usize = 24;

/// The streams of the metadata that the bytes have at `root`. Of two streams of one name the first
/// counts, and streams of other names are passed over. Refused exactly at the first check that
/// fails, in this order. ECMA-335 II.24.2.1, II.24.2.2.
///
/// | Check | What is wrong | At which byte |
/// |---|---|---|
/// | `Cut` | the metadata runs past the bytes | at their end |
/// | `RootSignature` | it does not begin with its signature | at its first byte |
/// | `Bounds` | the root runs past the metadata | at its first byte |
/// | `Bounds` | a stream header, its name of at most 32 bytes or its stream does so | at the header |
/// | `EditStream` | a stream is named `#-` | at its header |
/// | `NoTables` | no stream is named `#~`, or the first such has fewer than 24 bytes | at the root |
///
/// A name counts with its zero; of headers that fail, the first tells the place.
pub fn read_root(bytes: &[u8], root: Span) -> Result<Root, FailedCheck>
    requires { length bytes.now < 2 ^ 32 - 1 }
    ensures answer { result
        ≡ answer (first_fault (root_checks bytes.now root)) (root_of bytes.now root) }
    ensures within { IfOk result (λ found. IsWithin (length bytes.now) found) }
{
    if !root.lies_in(bytes.len()) {
        return Err(FailedCheck::of(CheckCode::Cut, bytes.len()));
    }
    read_metadata(root.cut(bytes), root)
}

fn read_metadata(metadata: &[u8], root: Span) -> Result<Root, FailedCheck>
    requires whole { root.len ≡ length metadata.now }
    requires short { root.at + root.len < 2 ^ 32 }
    ensures answer { result
        ≡ answer (first_fault (metadata_checks metadata.now root)) (root_in metadata.now root) }
    ensures within { IfOk result (λ found. IsWithin (root.at + root.len) found) }
{
    if !metadata.starts_with(&SIGNATURE) {
        return Err(FailedCheck::of(CheckCode::RootSignature, root.at));
    }
    if !has_root(metadata) {
        return Err(FailedCheck::of(CheckCode::Bounds, root.at));
    }
    if let Some(at) = first_outside(metadata) {
        return Err(FailedCheck::of(CheckCode::Bounds, root.at + at));
    }
    if let Some(header) = named(metadata, b"#-") {
        return Err(FailedCheck::of(CheckCode::EditStream, root.at + header.at));
    }
    let tables = span_of(metadata, root, b"#~");
    if tables.len < LEAST_TABLES {
        return Err(FailedCheck::of(CheckCode::NoTables, root.at));
    }
    Ok(Root {
        tables,
        strings: span_of(metadata, root, b"#Strings"),
        user_strings: span_of(metadata, root, b"#US"),
        guids: span_of(metadata, root, b"#GUID"),
        blobs: span_of(metadata, root, b"#Blob"),
    })
}

/// The first stream of a name in the bytes; an empty span where there is none.
fn span_of(metadata: &[u8], root: Span, name: &[u8]) -> Span
    requires sound { IsSound metadata.now }
    requires whole { root.len ≡ length metadata.now }
    requires short { root.at + root.len < 2 ^ 32 }
    ensures found { result ≡ span_of metadata.now root name.now }
    ensures within { LiesIn (root.at + root.len) result }
{
    match named(metadata, name) {
        Some(header) => Span {
            at: root.at + header.stream.at,
            len: header.stream.len,
        },
        None => Span {
            at: root.at,
            len: 0,
        },
    }
}
