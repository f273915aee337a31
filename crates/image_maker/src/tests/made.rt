use crate::{SampleName, make, sample};
use assembly_image::{AssemblyImage, read_image};
use metadata_tables::{column, table};
use std::alloc::{AllocError, Global};
use std::process::Abort;
use std::sync::Arc;
use std::test::Fail;

/// How many numbers of tables are tried.
const TABLE_END: u8 = 64;

const LIB1: &[u8] = b"Lib \x01\x00\x00\x00 \x00\x01\x01\x01\x02\x02\x06\x01\x20\x01\x23\x01 \
    Get(\0\0\x08)\x0A\x17\x2A;";

const LIB2: &[u8] = b"Lib \x02\x00\x00\x00 \x00\x01\x01\x01\x02\x02\x06\x01\x20\x01\x23\x01 \
    Get(\0\0\x08)\x0A\x18\x2A;";

const LIB19: &[u8] = b"Lib \x01\x09\x09\x09 \x00\x01\x01\x01\x02\x02\x06\x01\x20\x01\x23\x01 \
    Get(\0\0\x08)\x0A\x17\x2A;";

const USE: &[u8] = b"Use \x01\x00\x00\x00 \x00\x01\x01\x02\x02\x02\x06\x01\x0A\x01\x20\x01\x23\x02 \
    Run(\0\0\x08)\x1A\x28\x01\0\0\x0A\x2A;";

const GEN: &[u8] = b"Gen \x01\x00\x00\x00 \
    \x00\x01\x01\x02\x02\x03\x04\x01\x06\x01\x0A\x01\x1B\x01\x20\x01\x23\x02\x2A\x02 \
    Run(\0\0\x08)\x1A\x7E\x01\0\0\x0A\x2A;";

const DEEP: &[u8] = b"Deep \x01\x00\x00\x00 \x00\x01\x01\x01\x02\x02\x06\x01\x20\x01\x23\x01 \
    M(\0\0\x01)\x06\x2A;";

const OPS: &[u8] =
    b"Ops \x01\x00\x00\x00 \x00\x01\x01\x03\x02\x02\x04\x02\x06\x0E\x0A\x01\x20\x01\x23\x02 \
    Div(\0\x02\x08\x08\x08)\x12\x02\x03\x5B\x2A;\
    AddOvf(\0\x02\x08\x08\x08)\x12\x02\x03\xD6\x2A;\
    Shl(\0\x02\x08\x08\x08)\x12\x02\x03\x62\x2A;\
    Spin3(\0\x01\x01\x08)\x32\0\0\0\x02\x17\x59\x10\0\x02\x2D\xF8\x2A;\
    Spin4(\0\x01\x01\x08)\x36\0\0\0\0\x02\x17\x59\x10\0\x02\x2D\xF8\x2A;\
    Bad(\0\0\x08)\x1A\x17\x17\x2D\x01\x18\x2A;\
    Loop(\0\x01\x01\x08)\x3E\x7E\x01\0\0\x04\x26\x02\x17\x59\x10\0\x02\x2D\xF2\x2A;\
    Rec(\0\x01\x01\x08)\x32\x02\x2C\x08\x02\x17\x59\x28\x08\0\0\x06\x2A;\
    Arr(\0\x01\x08\x08)\x26\x02\x8D\x02\0\0\x01\x8E\x69\x2A;\
    Say(\0\0\x01)\x2E\x72\x01\0\0\x70\x28\x01\0\0\x0A\x2A;\
    Half(\0\0\x0C)\x1A\x22\0\0\0\0\x2A;\
    Keep(\0\x01\x01\x0E)\x1E\x02\x80\x02\0\0\x04\x2A;\
    Put(\0\x01\x01\x08)\x1E\x02\x80\x01\0\0\x04\x2A;\
    Peek(\0\0\x08)\x1A\x7E\x01\0\0\x04\x2A;";

const REL: &[u8] = b"Plugin \x01\x02\x00\x00 \
    \x00\x01\x01\x02\x02\x02\x06\x02\x08\x01\x0A\x01\x0C\x01\x11\x01\
    \x15\x01\x17\x01\x18\x01\x20\x01\x23\x01 \
    Answer(\0\0\x08)\x0E\x1F\x2A\x2A;\
    Half(\0\0\x0D)\x2A\x23\0\0\0\0\0\0\0\0\x2A;";

/// The name, the version's lowest bytes, each table that has rows with the lowest byte of how many
/// it has, and each method's name, signature and tiny body.
fn seen(rt: &impl Abort, alloc: Global, which: SampleName) -> Result<Vec<u8>, Fail> {
    let image = image(rt, alloc, which)?;
    let mut found = Vec::new(alloc);
    put_head(&mut found, &image)?;
    for before in 0..image.methods() {
        put_method(&mut found, &image, before + 1)?;
    }
    Ok(found)
}

fn put_head(found: &mut Vec<u8>, image: &AssemblyImage) -> Result<(), AllocError> {
    let name = image.text(table::ASSEMBLY, 1, column::ASSEMBLY_NAME);
    let version = image.version();
    found.extend_from_slice(name.as_bytes())?;
    found.push(b' ')?;
    found.extend_from_slice(&[low(version.major), low(version.minor)])?;
    found.extend_from_slice(&[low(version.build), low(version.revision)])?;
    found.push(b' ')?;
    put_counts(found, image)?;
    found.extend_from_slice(b" ")
}

/// The lowest byte.
fn low(number: u16) -> u8 {
    number.to_le_bytes()[0]
}

fn put_counts(found: &mut Vec<u8>, image: &AssemblyImage) -> Result<(), AllocError> {
    for number in 0..TABLE_END {
        let count = image.tables().count(number);
        if count > 0 {
            found.extend_from_slice(&[number, count.to_le_bytes()[0]])?;
        }
    }
    Ok(())
}

fn put_method(found: &mut Vec<u8>, image: &AssemblyImage, n: u32) -> Result<(), AllocError> {
    let name = image.text(table::METHOD_DEF, n, column::METHOD_DEF_NAME);
    found.extend_from_slice(name.as_bytes())?;
    found.push(b'(')?;
    let sig = image.blob(table::METHOD_DEF, n, column::METHOD_DEF_SIGNATURE);
    found.extend_from_slice(sig)?;
    found.push(b')')?;
    found.extend_from_slice(body(image, n))?;
    found.extend_from_slice(b";")
}

/// The tiny body of a method.
fn body(image: &AssemblyImage, n: u32) -> &[u8] {
    let Some(first) = image.body_at(n) else {
        return &[];
    };
    let rest = image.bytes().get(first.at..).unwrap_or(&[]);
    let len = usize::from(rest.first().copied().unwrap_or(0)) / 4;
    rest.get(..1 + len).unwrap_or(&[])
}

/// No image of these tests is as long.
const LONG: usize = 5_000_000;

/// What is made of a sample.
fn made(rt: &impl Abort, alloc: Global, which: SampleName) -> Result<Vec<u8>, Fail> {
    let source = sample(alloc, which)?;
    assert!(rt; source.sound());
    Ok(make(alloc, &source)?)
}

/// The image of a sample.
fn image(rt: &impl Abort, alloc: Global, which: SampleName) -> Result<AssemblyImage, Fail> {
    let made = made(rt, alloc, which)?;
    assert!(rt; made.len() < LONG);
    Ok(read_image(alloc, Arc::new(alloc, made)?)?)
}

static SAMPLES: [(SampleName, &[u8]); 8] = [
    (SampleName::Lib1, LIB1),
    (SampleName::Lib2, LIB2),
    (SampleName::Lib19, LIB19),
    (SampleName::Use, USE),
    (SampleName::Gen, GEN),
    (SampleName::Deep, DEEP),
    (SampleName::Ops, OPS),
    (SampleName::Rel, REL),
];

#[test]
fn reads_as_each_sample(rt: HostRuntime) -> Result<(), Fail> {
    for (which, wanted) in &SAMPLES {
        let found = seen(&rt, rt.alloc(), *which)?;
        assert!(rt; found.as_slice() == *wanted, "{which:?}");
    }
    Ok(())
}
