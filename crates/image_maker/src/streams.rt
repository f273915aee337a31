//! The metadata root with its streams, and the stream of tables.
ghost use Rattle.std.specs.Prelude.{◌≡◌, ℕ, ◌+◌, ◌-◌, ◌<◌, ◌^◌, List, [], ◌∷◌, ◌++◌, length, map};
ghost use Rattle.std.specs.Prelude.{OnOk, IfOk, slice_index, nat_lt, if◌then◌else◌};
ghost use Rattle.std.specs.List.{sum_by, flat_map};
ghost use Rattle.image_maker.specs.File.{zeros, round_up, padded, stream_header, stream_headers};
ghost use Rattle.image_maker.specs.File.{headers_len, root_bytes, long};
ghost use Rattle.image_maker.specs.Headers.{part_of};
ghost use Rattle.image_maker.specs.File.{tables_bytes, present, bits_of};

use cli_words::{Listed, Utf8Text};
use std::alloc::{AllocError, Global};

// The root up to the count of its streams: the signature, the versions, four reserved bytes, the
// length of the reader's version, that version, and the flags. ECMA-335 II.24.2.1.
const FRONT: &[u8] = b"BSJB\x01\0\x01\0\0\0\0\0\x0C\0\0\0v4.0.30319\0\0\0\0";

// Where the headers of streams begin in a root: after the front and the count of two bytes.
const HEADERS_AT: usize = 32;

// The stream of tables up to the bits of its tables: four reserved bytes, version 2.0, the bits
// that say that indexes into all heaps have four bytes, and a reserved one. ECMA-335 II.24.2.6.
const HEAD: [u8; 8] = [0, 0, 0, 0, 2, 0, 7, 1];

// The bits of the tables that are said to be sorted: none.
const SORTED: u64 = 0;

/// A stream that is written: its name and its bytes.
#[derive(Clone, Copy)]
pub(crate) struct Part<'a>(pub(crate) &'a [u8], pub(crate) &'a [u8]);

/// Streams, and further ones after them.
pub(crate) fn all_parts<'a>(
    alloc: Global,
    known: &[Part<'a>],
    further: &'a [(Utf8Text, Listed<u8>)],
) -> Result<Vec<Part<'a>>, AllocError>
    ensures { IfOk result (λ all. map part_of all.items ≡ map part_of known.now ++ further.now) }
{
    let mut all = known.to_vec(alloc)?;
    for stream in further {
        all.push(Part(stream.0.as_str().as_bytes(), stream.1.items()))?;
    }
    Ok(all)
}

/// Writes the metadata root with its streams.
pub(crate) fn write_root(alloc: Global, parts: &[Part<'_>]) -> Result<Vec<u8>, AllocError>
    requires few { length parts.now < 2 ^ 16 }
    requires short { length (root_bytes (map part_of parts.now)) < 2 ^ 31 }
    ensures { IfOk result (λ root. root.items ≡ root_bytes (map part_of parts.now)) }
{
    let count = parts.len() as u16;
    let mut root = Vec::new(alloc);
    root.extend_from_slice(FRONT)?;
    root.extend_from_slice(&count.to_le_bytes())?;
    put_headers(&mut root, HEADERS_AT + headers_len_of(parts), parts)?;
    put_streams(&mut root, parts)?;
    Ok(root)
}

/// Writes the stream of tables: how many rows each table has, and the rows, up to a multiple of
/// four bytes.
pub(crate) fn write_tables(
    alloc: Global,
    counts: &[u32; 45],
    rows: &[u8],
) -> Result<Vec<u8>, AllocError>
    ensures { IfOk result (λ tables. tables.items
        ≡ padded 4 (tables_bytes (λ t. slice_index counts.now t) rows.now)) }
{
    let mut tables = Vec::new(alloc);
    tables.extend_from_slice(&HEAD)?;
    tables.extend_from_slice(&present_bits(counts).to_le_bytes())?;
    tables.extend_from_slice(&SORTED.to_le_bytes())?;
    put_counts(&mut tables, counts)?;
    tables.extend_from_slice(rows)?;
    pad(&mut tables)?;
    Ok(tables)
}

// The bits of the tables that have rows.
fn present_bits(counts: &[u32; 45]) -> u64
    ensures { result ≡ bits_of (present (λ t. slice_index counts.now t)) }
{
    let mut bits = 0;
    for table in 0..45 {
        bits |= bit_of(table, counts[table]);
    }
    bits
}

// The bit of a table, where it has rows.
fn bit_of(table: usize, count: u32) -> u64
    requires { table < 64 }
    ensures { result ≡ (if nat_lt 0 count then 2 ^ table else 0) }
{
    if count > 0 { 1 << table } else { 0 }
}

// Puts the counts of the tables that have rows.
fn put_counts(out: &mut Vec<u8>, counts: &[u32; 45]) -> Result<(), AllocError>
    ensures { OnOk result (out.new.items ≡ out.old.items
        ++ flat_map (λ t. long (slice_index counts.now t))
        (present (λ t. slice_index counts.now t))) }
{
    for table in 0..45 {
        put_count(out, counts[table])?;
    }
    Ok(())
}

// Puts the count of a table, where it has rows.
fn put_count(out: &mut Vec<u8>, count: u32) -> Result<(), AllocError>
    ensures { OnOk result
        (out.new.items ≡ out.old.items ++ (if nat_lt 0 count then long count else [])) }
{
    if count > 0 {
        out.extend_from_slice(&count.to_le_bytes())?;
    }
    Ok(())
}

// The least multiple of four that is not below a length.
fn round_up_four(len: usize) -> usize
    requires { len < 2 ^ 32 }
    ensures { result ≡ round_up 4 len }
{
    (len + 3) / 4 * 4
}

// Puts bytes, and zeros up to a multiple of four.
fn put_padded(out: &mut Vec<u8>, bytes: &[u8]) -> Result<(), AllocError>
    ensures { OnOk result (out.new.items ≡ out.old.items ++ padded 4 bytes.now) }
{
    out.extend_from_slice(bytes)?;
    put_padding(out, bytes.len())
}

/// Puts zeros behind bytes, up to a multiple of four.
pub(crate) fn pad(bytes: &mut Vec<u8>) -> Result<(), AllocError>
    ensures { OnOk result (bytes.new.items ≡ padded 4 bytes.old.items) }
{
    let len = bytes.len();
    put_padding(bytes, len)
}

// Puts zeros after so many bytes, up to a multiple of four.
fn put_padding(out: &mut Vec<u8>, len: usize) -> Result<(), AllocError>
    ensures { OnOk result (out.new.items ≡ out.old.items ++ zeros (round_up 4 len - len)) }
{
    let zeros = [0; 4];
    out.extend_from_slice(&zeros[..(4 - len % 4) % 4])
}

// Puts the header of a stream that begins at a place, and gives the place of the next stream.
fn put_header(out: &mut Vec<u8>, place: usize, part: Part<'_>) -> Result<usize, AllocError>
    requires name { length part.0.now < 2 ^ 31 }
    requires place { place + length part.1.now < 2 ^ 31 }
    ensures next { IfOk result (λ next. next ≡ place + round_up 4 (length part.entry.1.now)) }
    ensures header { OnOk result
        (out.new.items ≡ out.old.items ++ stream_header place (part_of part.entry)) }
{
    out.extend_from_slice(&(place as u32).to_le_bytes())?;
    out.extend_from_slice(&(part.1.len() as u32).to_le_bytes())?;
    put_name(out, part.0)?;
    Ok(place + round_up_four(part.1.len()))
}

// Puts the name of a stream, one to four zeros after it.
fn put_name(out: &mut Vec<u8>, name: &[u8]) -> Result<(), AllocError>
    requires { length name.now < 2 ^ 31 }
    ensures { OnOk result (out.new.items ≡ out.old.items ++ padded 4 (name.now ++ 0 ∷ [])) }
{
    out.extend_from_slice(name)?;
    out.extend_from_slice(&[0])?;
    put_padding(out, name.len() + 1)
}

// How many bytes the header of a stream takes.
fn header_len(name: &[u8]) -> usize
    requires { length name.now < 2 ^ 31 }
    ensures { result ≡ 8 + round_up 4 (length name.now + 1) }
{
    8 + round_up_four(name.len() + 1)
}

// How many bytes the headers of streams take.
fn headers_len_of(parts: &[Part<'_>]) -> usize
    requires { headers_len (map part_of parts.now) < 2 ^ 31 }
    ensures { result ≡ headers_len (map part_of parts.now) }
{
    let mut len = 0;
    for part in parts {
        len += header_len(part.0);
    }
    len
}

// Puts the headers of streams, the first of which begins at a place.
fn put_headers(out: &mut Vec<u8>, first: usize, parts: &[Part<'_>]) -> Result<(), AllocError>
    requires names { headers_len (map part_of parts.now) < 2 ^ 31 }
    requires places { first + sum_by (λ s. round_up 4 (length s.1)) (map part_of parts.now)
        < 2 ^ 31 }
    ensures { OnOk result
        (out.new.items ≡ out.old.items ++ stream_headers first (map part_of parts.now)) }
{
    let mut place = first;
    for part in parts {
        place = put_header(out, place, *part)?;
    }
    Ok(())
}

// Puts streams.
fn put_streams(out: &mut Vec<u8>, parts: &[Part<'_>]) -> Result<(), AllocError>
    ensures { OnOk result (out.new.items
        ≡ out.old.items ++ flat_map (λ s. padded 4 s.1) (map part_of parts.now)) }
{
    for part in parts {
        put_padded(out, part.1)?;
    }
    Ok(())
}
