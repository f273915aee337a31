//! The stream headers of the metadata. ECMA-335 II.24.2.2.
ghost use Rattle.std.specs.Prelude.{◌≡◌, ◌+◌, ◌≤◌, ◌<◌, length, take, drop, not, nat_le, Some};
ghost use Rattle.std.specs.Prelude.{None, IfSome, if◌then◌else◌};
ghost use Rattle.std.specs.List.{find};
ghost use Rattle.std.specs.Option.{option_map};
ghost use Rattle.std.specs.Str.{bytes_eq};
ghost use Rattle.meta_heaps.specs.Streams.{headers, headers_at, stream_count, name_len, fits};
ghost use Rattle.meta_heaps.specs.Streams.{named};
ghost use Rattle.meta_heaps.specs.Headers.{IsSound, LiesWhole, header_of};

use cli_words::{Span, u16_at, u32_at, zero_after};

/// The bytes of the root before its version.
const BEFORE_VERSION: usize = 16;

/// Where among them the length of the version stands.
const VERSION_LENGTH: usize = 12;

/// The bytes between the version and the stream headers: flags, and the count of the headers.
const AFTER_VERSION: usize = 4;

/// The bytes of that count, the last before the headers.
const STREAM_COUNT: usize = 2;

/// The bytes of a header before its name: the place and the length of its stream.
const BEFORE_NAME: usize = 8;

/// Where among them the length stands.
const STREAM_LENGTH: usize = 4;

/// A name with its zero is padded to a multiple of so many bytes.
const NAME_UNIT: usize = 4;

/// The most bytes that a stream's name has, with its zero.
const MAX_NAME: usize = 32;

/// A stream header.
#[derive(Clone, Copy)]
pub(crate) struct Header {
    /// Its first byte in the metadata.
    pub(crate) at: usize,
    /// The byte after its name's padding.
    end: usize,
    /// The bytes of its name, before the zero.
    name_len: usize,
    /// Its stream in the metadata.
    pub(crate) stream: Span,
}

/// The first header that does not lie in the metadata whole, or whose stream does not.
pub(crate) fn first_outside(metadata: &[u8]) -> Option<usize>
    requires { headers_at metadata.now ≤ length metadata.now }
    ensures found { result ≡ find (λ at. not (fits metadata.now at)) (headers metadata.now) }
    ensures within { IfSome result (λ at. at ≤ length metadata.now) }
{
    let mut at = headers_at(metadata);
    for _ in 0..stream_count(metadata) {
        match read_header(metadata, at) {
            Some(header) => at = header.end,
            None => return Some(at),
        }
    }
    None
}

/// The first header of this name.
pub(crate) fn named(metadata: &[u8], name: &[u8]) -> Option<Header>
    requires { IsSound metadata.now }
    ensures found { result ≡ option_map (header_of metadata.now) (named metadata.now name.now) }
    ensures within { IfSome result (λ header. LiesWhole (length metadata.now) header) }
{
    let mut at = headers_at(metadata);
    for _ in 0..stream_count(metadata) {
        let header = read_header(metadata, at)?;
        if is_named(metadata, &header, name) {
            return Some(header);
        }
        at = header.end;
    }
    None
}

fn is_named(metadata: &[u8], header: &Header, name: &[u8]) -> bool
    requires { header.now.at + 8 + header.now.name_len ≤ length metadata.now }
    ensures { result ≡ bytes_eq
        (take header.now.name_len (drop (header.now.at + 8) metadata.now)) name.now }
{
    &metadata[header.at + BEFORE_NAME..][..header.name_len] == name
}

/// The header at a place, if it lies in the metadata whole, and its stream does.
fn read_header(metadata: &[u8], at: usize) -> Option<Header>
    requires { at ≤ length metadata.now }
    ensures found { result ≡
        (if fits metadata.now at then Some (header_of metadata.now at) else None) }
    ensures within { IfSome result (λ header. LiesWhole (length metadata.now) header) }
{
    let name_len = name_len(metadata, at)?;
    let end = at + BEFORE_NAME + (name_len + NAME_UNIT) / NAME_UNIT * NAME_UNIT;
    let stream = Span {
        at: u32_at(metadata, at) as usize,
        len: u32_at(metadata, at + STREAM_LENGTH) as usize,
    };
    if end > metadata.len() || stream.at + stream.len > metadata.len() {
        return None;
    }
    Some(Header {
        at,
        end,
        name_len,
        stream,
    })
}

/// How many bytes the name of the header at a place has, if it has its zero.
fn name_len(metadata: &[u8], at: usize) -> Option<usize>
    requires { at ≤ length metadata.now }
    ensures found { result ≡ name_len metadata.now at }
    ensures within { IfSome result (λ len. at + 8 + len < length metadata.now) }
{
    let name = metadata.get(at + BEFORE_NAME..)?;
    zero_after(&name[..MAX_NAME.min(name.len())])
}

/// Whether the root lies in the metadata, up to its headers.
pub(crate) fn has_root(metadata: &[u8]) -> bool
    ensures { result ≡ nat_le (headers_at metadata.now) (length metadata.now) }
{
    metadata.len() >= BEFORE_VERSION && headers_at(metadata) <= metadata.len()
}

fn headers_at(metadata: &[u8]) -> usize
    requires { 16 ≤ length metadata.now }
    ensures { result ≡ headers_at metadata.now }
{
    u32_at(metadata, VERSION_LENGTH) as usize + BEFORE_VERSION + AFTER_VERSION
}

fn stream_count(metadata: &[u8]) -> u16
    requires { headers_at metadata.now ≤ length metadata.now }
    ensures { result ≡ stream_count metadata.now }
{
    u16_at(metadata, headers_at(metadata) - STREAM_COUNT)
}
