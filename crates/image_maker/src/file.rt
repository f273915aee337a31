//! The file around the bodies and the metadata of a module: a PE32 file with three sections, of
//! which the first holds all that is read (ECMA-335 II.25).
ghost use Rattle.std.specs.Prelude.{◌≡◌, ℕ, ◌+◌, ◌<◌, ◌^◌, ◌++◌, length, replicate, IfOk};
ghost use Rattle.std.specs.List.{flat_map};
ghost use Rattle.image_maker.specs.Headers.{piece_bytes};
ghost use Rattle.image_maker.specs.File.{round_up, file_headers, cli_header, file_bytes};

use HeaderPiece::{Half, Long, Text, Zeros};
use std::alloc::{AllocError, Global};

// Sections begin at multiples of these in memory and in the file.
const MEMORY_UNIT: u32 = 0x2000;

const FILE_UNIT: u32 = 0x200;

// How many bytes the headers have in the file.
const HEADERS_LEN: u32 = 0x200;

const TEXT_ADDRESS: u32 = 0x2000;

const CLI_HEADER_LEN: u32 = 72;

/// A piece of a header. Numbers are written with their lowest byte first.
#[derive(Drop)]
pub(crate) enum HeaderPiece {
    Text(&'static [u8]),
    Zeros(u32),
    Half(u16),
    Long(u32),
}

/// The file of these bodies and this metadata.
pub(crate) fn write_file(
    alloc: Global,
    bodies: &[u8],
    metadata: &[u8],
) -> Result<Vec<u8>, AllocError>
    requires { 72 + length bodies.now + length metadata.now < 2 ^ 31 }
    ensures { IfOk result (λ file. file.items ≡ file_bytes bodies.now metadata.now) }
{
    let bodies_len = bodies.len() as u32;
    let metadata_len = metadata.len() as u32;
    let text = CLI_HEADER_LEN + bodies_len + metadata_len;
    let metadata_address = TEXT_ADDRESS + CLI_HEADER_LEN + bodies_len;
    let mut file = Vec::new(alloc);
    put_pieces(&mut file, &headers(text))?;
    put_pieces(&mut file, &cli_header(metadata_address, metadata_len))?;
    file.extend_from_slice(bodies)?;
    file.extend_from_slice(metadata)?;
    put_zeros(&mut file, round_up(FILE_UNIT, text) - text)?;
    put_zeros(&mut file, 2 * FILE_UNIT)?;
    Ok(file)
}

// The headers of a file whose section of code has `text` bytes.
fn headers(text: u32) -> [HeaderPiece; 67]
    requires { text < 2 ^ 31 }
    ensures { flat_map piece_bytes result ≡ file_headers text }
{
    let size = round_up(FILE_UNIT, text);
    let second = TEXT_ADDRESS + round_up(MEMORY_UNIT, text);
    [
        // the MS-DOS header
        Text(b"MZ"),
        Text(&[0x90, 0, 3, 0, 0, 0, 4, 0, 0, 0, 0xFF, 0xFF, 0, 0, 0xB8]),
        Zeros(7),
        Text(&[0x40]),
        Zeros(35),
        Long(0x80), // where the signature is
        // the MS-DOS program, which prints the message and ends
        Text(&[
            0x0E, 0x1F, 0xBA, 0x0E, 0, 0xB4, 0x09, 0xCD, 0x21, 0xB8, 0x01, 0x4C, 0xCD, 0x21,
        ]),
        Text(b"This program cannot be run in DOS mode."),
        Text(b"\r\r\n$"),
        Zeros(7),
        // the signature and the file header
        Text(b"PE\0\0"),
        Half(0x14C), // for the processor I386
        Half(3), // sections
        Zeros(12),
        Half(224), // bytes of the optional header
        Half(0x2002), // a library, executable
        // the standard fields
        Half(0x10B), // PE32
        Text(&[6, 0]), // the linker's version
        Long(size), // code
        Long(2 * FILE_UNIT), // initialized data
        Zeros(8), // other data, and no entry point
        Long(TEXT_ADDRESS), // where code begins
        Long(second), // where data begins
        // the fields for Windows
        Long(0x400000), // where the image is best loaded
        Long(MEMORY_UNIT),
        Long(FILE_UNIT),
        Half(5), // the system's version
        Zeros(6),
        Half(5), // the subsystem's version
        Zeros(6),
        Long(second + 2 * MEMORY_UNIT), // where the image ends
        Long(HEADERS_LEN),
        Zeros(4), // no checksum
        Half(3), // the subsystem: a console
        Half(0x8540), // may be moved, runs no data, has no handlers
        Long(0x100000), // stack and heap, reserved and committed
        Long(0x1000),
        Long(0x100000),
        Long(0x1000),
        Zeros(4),
        // the directories, of which there is only that of the CLI header
        Long(16),
        Zeros(112),
        Long(TEXT_ADDRESS),
        Long(CLI_HEADER_LEN),
        Zeros(8),
        // the sections
        Text(b".text\0\0\0"),
        Long(text),
        Long(TEXT_ADDRESS),
        Long(size),
        Long(HEADERS_LEN),
        Zeros(12),
        Long(0x60000020), // code, to be run and read
        Text(b".rsrc\0\0\0"),
        Long(FILE_UNIT),
        Long(second),
        Long(FILE_UNIT),
        Long(HEADERS_LEN + size),
        Zeros(12),
        Long(0x40000040), // data, to be read
        Text(b".reloc\0\0"),
        Long(FILE_UNIT),
        Long(second + MEMORY_UNIT),
        Long(FILE_UNIT),
        Long(HEADERS_LEN + FILE_UNIT + size),
        Zeros(12),
        Long(0x42000040), // data, to be read, that can be discarded
        Zeros(16),
    ]
}

// The CLI header, with the RVA and the length of the metadata.
fn cli_header(address: u32, len: u32) -> [HeaderPiece; 7]
    ensures { flat_map piece_bytes result ≡ cli_header address len }
{
    [
        Long(CLI_HEADER_LEN),
        Half(2), // the runtime's version, 2.5
        Half(5),
        Long(address),
        Long(len),
        Long(1), // all code is IL
        Zeros(52),
    ]
}

// The least multiple of a unit that is not below `n`.
fn round_up(unit: u32, n: u32) -> u32
    requires unit { 0 < unit }
    requires fits { n + unit < 2 ^ 32 }
    ensures { result ≡ round_up unit n }
{
    (n + (unit - 1)) / unit * unit
}

/// Puts the pieces after what the file has.
pub(crate) fn put_pieces(file: &mut Vec<u8>, pieces: &[HeaderPiece]) -> Result<(), AllocError>
    ensures { IfOk result
        (λ _. file.new.items ≡ file.old.items ++ flat_map piece_bytes pieces.now) }
{
    for piece in pieces {
        put_piece(file, piece)?;
    }
    Ok(())
}

fn put_piece(file: &mut Vec<u8>, piece: &HeaderPiece) -> Result<(), AllocError>
    ensures { IfOk result (λ _. file.new.items ≡ file.old.items ++ piece_bytes piece.now) }
{
    match piece {
        Text(bytes) => file.extend_from_slice(bytes),
        Zeros(count) => put_zeros(file, *count),
        Half(value) => file.extend_from_slice(&value.to_le_bytes()),
        Long(value) => file.extend_from_slice(&value.to_le_bytes()),
    }
}

/// Puts zeros after what the file has.
pub(crate) fn put_zeros(file: &mut Vec<u8>, count: u32) -> Result<(), AllocError>
    ensures { IfOk result (λ _. file.new.items ≡ file.old.items ++ replicate count 0) }
{
    file.resize(file.len() + count as usize, 0)
}
