//! Images written by hand from ECMA-335 II.22, II.24 and II.25.
use crate::{AssemblyImage, ImageFault, Member, read_image};
use cli_words::Units;
use metadata_tables::{column, table};
use std::alloc::{AllocError, Global};
use std::process::Abort;
use std::sync::Arc;
use std::test::Fail;
use std::thread;

const LENGTH: usize = 0xA00;

/// What stands in an image, by its places; all else is 0. Sections begin at file offsets 200 and
/// A00, where RVAs 2000 and 4000 are. Four types: `<Module>`, `Lib.C`, D in C and E in D.
static IMAGE: &[(usize, &[u8])] = &[
    // the DOS header, the PE signature and the file header
    (0, b"MZ"),
    (0x3C, b"\x80"),
    (0x80, b"PE\0\0\x4C\x01\x02"),
    (0x94, b"\xE0\0\x02\x21"),
    // the optional header, its directory count and directory 14
    (0x98, b"\x0B\x01\x06\0\0\x06"),
    (
        0xB0,
        b"\0\x40\0\0\0\0\x40\0\0\x20\0\0\0\x02\0\0\x04\0\0\0\0\0\0\0\x04",
    ),
    (0xD0, b"\0\x60\0\0\0\x02\0\0\0\0\0\0\x03"),
    (
        0xE0,
        b"\0\0\x10\0\0\x10\0\0\0\0\x10\0\0\x10\0\0\0\0\0\0\x10",
    ),
    (0x168, b"\0\x20\0\0\x48"),
    // the sections
    (
        0x178,
        b".text\0\0\0\0\x08\0\0\0\x20\0\0\0\x08\0\0\0\x02\0\0",
    ),
    (
        0x19C,
        b"\x20\0\0\x60.reloc\0\0\0\0\0\0\0\x40\0\0\0\0\0\0\0\x0A\0\0",
    ),
    // the CLI header, two bodies
    (0x200, b"\x48\0\0\0\x02\0\x05\0\x50\x20\0\0\x40\x02\0\0\x01"),
    (0x248, b"\x0A\x17\x2A\0\x06\x2A"),
    // the root, the stream headers
    (
        0x250,
        b"BSJB\x01\0\x01\0\0\0\0\0\x0C\0\0\0v4.0.30319\0\0\0\0\x05\0",
    ),
    (0x270, b"\x70\0\0\0\x38\x01\0\0#~"),
    (0x27C, b"\xA8\x01\0\0\x54\0\0\0#Strings"),
    (0x290, b"\xFC\x01\0\0\x08\0\0\0#US"),
    (0x29C, b"\x04\x02\0\0\x10\0\0\0#GUID"),
    (0x2AC, b"\x14\x02\0\0\x2C\0\0\0#Blob"),
    // the tables 00 01 02 04 06 08 0A 0B 0C 11 1B 20 23 29 with their counts
    (0x2C4, b"\x02\0\0\x01\x57\x1D\x02\x08\x09\x02"),
    (
        0x2D8,
        b"\x01\0\0\0\x02\0\0\0\x04\0\0\0\x02\0\0\0\x04\0\0\0\x02\0\0\0\x01\0\0\0\x01",
    ),
    (
        0x2F8,
        b"\x01\0\0\0\x01\0\0\0\x01\0\0\0\x01\0\0\0\x01\0\0\0\x02",
    ),
    // Module, TypeRef
    (0x310, b"\0\0\x3D\0\x01\0\0\0\0\0"),
    (0x31A, b"\x06\0\x1B\0\x14\0"),
    (0x320, b"\x06\0\x45\0\x14\0"),
    // TypeDef
    (0x326, b"\0\0\0\0\x01\0\0\0\0\0\x01\0\x01\0"),
    (0x334, b"\x01\0\x10\0\x0E\0\x0A\0\x05\0\x01\0\x01\0"),
    (0x342, b"\x02\0\x10\0\x10\0\0\0\x05\0\x02\0\x04\0"),
    (0x350, b"\x02\0\x10\0\x12\0\0\0\x05\0\x03\0\x05\0"),
    // Field
    (0x35E, b"\x16\0\x3B\0\x01\0"),
    (0x364, b"\x06\0\x3B\0\x01\0"),
    // MethodDef
    (0x36A, b"\x48\x20\0\0\0\0\x16\0\x31\0\x04\0\x01\0"),
    (0x378, b"\x4C\x20\0\0\0\0\x06\x18\x35\0\x0D\0\x01\0"),
    (0x386, b"\x48\x20\0\0\0\0\x16\0\x31\0\x08\0\x01\0"),
    (0x394, b"\x48\x20\0\0\0\0\x16\0\x31\0\x08\0\x02\0"),
    // Param
    (0x3A2, b"\0\0\x01\0\x3B\0"),
    (0x3A8, b"\0\0\x01\0\x3B\0"),
    // MemberRef, Constant, CustomAttribute, StandAloneSig, TypeSpec
    (0x3AE, b"\x11\0\x35\0\x0D\0"),
    (0x3B4, b"\x08\0\x08\0\x1D\0"),
    (0x3BA, b"\x2E\0\x0B\0\x18\0"),
    (0x3C0, b"\x11\0"),
    (0x3C2, b"\x15\0"),
    // Assembly, AssemblyRef
    (
        0x3C4,
        b"\x04\x80\0\0\x01\0\x02\0\x03\0\x04\0\0\0\0\0\0\0\x0A\0\0\0",
    ),
    (0x3DA, b"\x08\0\0\0\0\0\0\0\0\0\0\0\x22\0\x22\0\0\0\0\0"),
    // NestedClass
    (0x3EE, b"\x03\0\x02\0"),
    (0x3F2, b"\x04\0\x03\0"),
    // the heaps: of strings, at 1, 0A, 0E, 10, 12, 14, 1B, 22, 31, 35, 3B, 3D and 45
    (
        0x3F8,
        b"\0<Module>\0Lib\0C\0D\0E\0System\0Object\0System.Runtime\0Get\0.ctor\0n\0",
    ),
    (0x435, b"Lib.dll\0FlagsAttribute\0"),
    (0x44C, b"\0\x05h\0i\0\0\0"),
    (0x454, b"0123456789abcdef"),
    // and of blobs, at 1, 4, 8, 0D, 11, 15, 18, 1D, 22 and 2B
    (
        0x464,
        b"\0\x02\x06\x08\x03\0\0\x08\x04\0\x01\x08\x08\x03\x20\0\x01\x03\x07\x01\x08",
    ),
    (
        0x479,
        b"\x02\x1D\x08\x04\x01\0\0\0\x04\x2A\0\0\0\x08\xB0\x3F\x5F\x7F\x11\xD5\x0A\x3A\0",
    ),
];

fn put(rt: &impl Abort, bytes: &mut Vec<u8>, at: usize, part: &[u8]) {
    assert!(rt; at <= bytes.len());
    assert!(rt; part.len() <= bytes.len() - at);
    bytes[at..][..part.len()].copy_from_slice(part);
}

fn put_all<'a>(rt: &impl Abort, bytes: &mut Vec<u8>, parts: &'a [(usize, &'a [u8])]) {
    for (at, part) in parts {
        put(rt, bytes, *at, part);
    }
}

/// The image with these changes, and bytes after it.
fn image_with<'a>(
    rt: &impl Abort,
    alloc: Global,
    changes: &'a [(usize, &'a [u8])],
    more: &[u8],
) -> Result<Vec<u8>, AllocError> {
    let mut bytes = Vec::new(alloc);
    bytes.resize(LENGTH, 0)?;
    put_all(rt, &mut bytes, IMAGE);
    put_all(rt, &mut bytes, changes);
    bytes.extend_from_slice(more)?;
    Ok(bytes)
}

fn read(rt: &impl Abort, alloc: Global, bytes: Vec<u8>) -> Result<AssemblyImage, ImageFault> {
    assert!(rt; bytes.len() < 0x1000_0000);
    let shared = Arc::new(alloc, bytes).map_err(|_| ImageFault::OutOfMemory)?;
    read_image(alloc, shared)
}

fn sample(rt: &impl Abort, alloc: Global) -> Result<AssemblyImage, ImageFault> {
    let bytes = image_with(rt, alloc, &[], &[]).map_err(|_| ImageFault::OutOfMemory)?;
    read(rt, alloc, bytes)
}

/// Rows of MethodDef, and the number, the text and the length of the blob in a column of each.
static METHODS: [(u32, usize, u32, &str, usize); 4] = [
    (2, column::METHOD_DEF_FLAGS, 0x1806, "", 0),
    (2, column::METHOD_DEF_NAME, 0, ".ctor", 0),
    (2, column::METHOD_DEF_SIGNATURE, 0, "", 3),
    (5, column::METHOD_DEF_FLAGS, 0, "", 0),
];

/// What stands in rows, at a column that holds it and at another.
#[test]
fn tells_what_stands_in_rows(rt: HostRuntime) -> Result<(), Fail> {
    let image = sample(&rt, rt.alloc())?;
    for (n, k, number, text, len) in &METHODS {
        assert!(rt; image.number(table::METHOD_DEF, *n, *k) == *number);
        assert!(rt; image.text(table::METHOD_DEF, *n, *k) == *text);
        assert!(rt; image.blob(table::METHOD_DEF, *n, *k).len() == *len);
    }
    Ok(())
}

#[test]
fn tells_its_parts(rt: HostRuntime) -> Result<(), Fail> {
    let image = sample(&rt, rt.alloc())?;
    assert!(rt; image.refs() == 1 && image.types() == 4);
    assert!(rt; image.fields() == 2 && image.methods() == 4);
    assert!(rt; image.bytes().len() == 0xA00);
    assert!(rt; image.pe().root_at == 0x250 && image.root().blobs.at == 0x464);
    let name = Units::from_utf8(rt.alloc(), b"Lib")?;
    assert!(rt; image.name().units().units() == name.units());
    assert!(rt; image.version().revision == 4);
    assert!(rt; image.tables().count(table::CUSTOM_ATTRIBUTE) == 1);
    Ok(())
}

#[test]
fn tells_flags_and_bodies(rt: HostRuntime) -> Result<(), Fail> {
    let image = sample(&rt, rt.alloc())?;
    assert!(rt; image.type_flags(2) == 0x10_0001);
    assert!(rt; image.field_flags(1) == 0x16);
    assert!(rt; image.method_flags(2) == 0x1806);
    assert!(rt; image.body_at(2).map(|span| span.at) == Some(0x24C));
    assert!(rt; image.body_at(5).is_none());
    Ok(())
}

#[test]
fn tells_references(rt: HostRuntime) -> Result<(), Fail> {
    let image = sample(&rt, rt.alloc())?;
    assert!(rt; image.reference_name(1) == "System.Runtime");
    assert!(rt; image.reference_version(1).major == 8);
    assert!(rt; image.token(0x0200_0004) == Some((2, 4)));
    assert!(rt; image.token(0x0200_0005).is_none());
    assert!(rt; image.type_ref_scope(1) == Some((0x23, 1)));
    assert!(rt; image.outermost_scope(1) == Some((0x23, 1)));
    Ok(())
}

/// The full names of types.
static NAMES: [(u32, &[u8]); 3] = [(1, b"<Module>"), (2, b"Lib.C"), (4, b"Lib.C/D/E")];

/// Full names, and types that are found by them.
#[test]
fn tells_full_names(rt: HostRuntime) -> Result<(), Fail> {
    let image = sample(&rt, rt.alloc())?;
    for (row, name) in &NAMES {
        let name = Units::from_utf8(rt.alloc(), name)?;
        assert!(rt; image.find_type(&name) == Some(*row));
        assert!(rt; image.full_name(rt.alloc(), *row)?.units() == name.units());
    }
    let object = Units::from_utf8(rt.alloc(), b"System.Object")?;
    let found = image.type_ref_full_name(rt.alloc(), 1)?;
    assert!(rt; found.units() == object.units());
    Ok(())
}

/// The fields and the methods of types.
#[test]
fn tells_members(rt: HostRuntime) -> Result<(), Fail> {
    let image = sample(&rt, rt.alloc())?;
    let methods = image.members(Member::Method, 2);
    assert!(rt; methods.start == 1 && methods.end == 4);
    assert!(rt; image.type_of(Member::Field, 2) == Some(3));
    let get = Units::from_utf8(rt.alloc(), b"Get")?;
    assert!(rt; image.find_method(2, 2, &get) == Some(3));
    let n = Units::from_utf8(rt.alloc(), b"n")?;
    assert!(rt; image.find_field(2, 0, &n) == Some(1));
    Ok(())
}

/// The image with another stream `#~` at its end: the sizes of the section and of the metadata,
/// and the place and the size of the stream in it.
static WITH_INTERFACES: [(usize, &[u8]); 3] = [
    (0x188, b"\x70\x08\0\0"),
    (0x20C, b"\x20\x08\0\0"),
    (0x270, b"\xB0\x07\0\0\x70\0\0\0"),
];

/// A row of Module, two of TypeDef, three of InterfaceImpl and one of Assembly. Two of the three
/// are of the first type.
static INTERFACES: &[u8] = b"\0\0\0\0\x02\0\0\x01\x05\x02\0\0\x01\0\0\0\0\0\0\0\0\0\0\0\
    \x01\0\0\0\x02\0\0\0\x03\0\0\0\x01\0\0\0\
    \0\0\x3D\0\0\0\0\0\0\0\
    \0\0\0\0\x01\0\0\0\0\0\x01\0\x01\0\
    \0\0\0\0\x01\0\0\0\0\0\x01\0\x01\0\
    \x01\0\x08\0\x02\0\x04\0\x01\0\x04\0\
    \x04\x80\0\0\x01\0\0\0\0\0\0\0\0\0\0\0\0\0\x0A\0\0\0";

fn is_first_and_third(rows: &[u32]) -> bool {
    rows == [1, 3].as_slice()
}

/// Rows of InterfaceImpl; no other rows belong to the type.
#[test]
fn tells_rows_of_types(rt: HostRuntime) -> Result<(), Fail> {
    let bytes = image_with(&rt, rt.alloc(), &WITH_INTERFACES, INTERFACES)?;
    let image = read(&rt, rt.alloc(), bytes)?;
    let rows = image.interface_impls(rt.alloc(), 1)?;
    assert!(rt; is_first_and_third(&rows));
    let others = image.method_impls(rt.alloc(), 1)?;
    assert!(rt; others.is_empty());
    let params = image.type_params(rt.alloc(), 1)?;
    assert!(rt; params.is_empty());
    Ok(())
}

/// How many types are nested, each in the one before.
const NESTED: u32 = 170_000;

/// The same changes for the stream of these types.
static WITH_NESTED: [(usize, &[u8]); 3] = [
    (0x188, b"\xC8\x49\x3E\0"),
    (0x20C, b"\x78\x49\x3E\0"),
    (0x270, b"\xB0\x07\0\0\xC8\x41\x3E\0"),
];

/// The head of the stream, with its counts, and a row of Module.
static NESTED_HEAD: &[u8] = b"\0\0\0\0\x02\0\0\x01\x05\0\0\0\x01\x02\0\0\0\0\0\0\0\0\0\0\
    \x01\0\0\0\x10\x98\x02\0\x01\0\0\0\x10\x98\x02\0\
    \0\0\x3D\0\0\0\0\0\0\0";

/// A row of TypeDef, whose name is C, and one of Assembly.
static NESTED_TYPE: &[u8] = b"\0\0\0\0\x0E\0\0\0\0\0\0\0\x01\0\x01\0";

static NESTED_ASSEMBLY: &[u8] = b"\x04\x80\0\0\x01\0\0\0\0\0\0\0\0\0\0\0\0\0\x0A\0\0\0";

fn nested_stream(alloc: Global) -> Result<Vec<u8>, AllocError> {
    let mut stream = NESTED_HEAD.to_vec(alloc)?;
    for _ in 0..NESTED {
        stream.extend_from_slice(NESTED_TYPE)?;
    }
    stream.extend_from_slice(NESTED_ASSEMBLY)?;
    for encloser in 0..NESTED {
        stream.extend_from_slice(&(encloser + 1).to_le_bytes())?;
        stream.extend_from_slice(&encloser.to_le_bytes())?;
    }
    Ok(stream)
}

/// A good image of nearly 4 MiB with as many rows of NestedClass as types, of which each stands in
/// the one before. A type of 17 enclosers has the name that the outermost gives it, where that one
/// is not named.
#[test]
fn reads_as_many_nestings_as_types(rt: HostRuntime) -> Result<(), Fail> {
    let stream = nested_stream(rt.alloc())?;
    let bytes = image_with(&rt, rt.alloc(), &WITH_NESTED, &stream)?;
    let image = read(&rt, rt.alloc(), bytes)?;
    assert!(rt; image.encloser(NESTED) == Some(NESTED - 1));
    let full = image.full_name(rt.alloc(), NESTED)?;
    assert!(rt; full.units().len() == 33);
    assert!(rt; image.find_type(&full) == Some(17));
    Ok(())
}

#[test]
fn images_cross_threads(rt: HostRuntime) -> Result<(), Fail> {
    let mine = sample(&rt, rt.alloc())?;
    let theirs = sample(&rt, rt.alloc())?;
    let shared = &mine;
    let (first, second) = thread::join(
        &rt,
        move || theirs.types() == 4 && shared.fields() == 2,
        || shared.methods(),
    );
    assert!(rt; first && second == 4);
    Ok(())
}
