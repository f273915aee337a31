//! Calls of the program over files and a sink in memory.
use crate::status::Status;
use crate::{alc, alc_alone};
use plug_io::{MemFiles, MemSink, OpenGate, SureFiles, SureSink};
use std::alloc::{AllocError, Global};
use std::test::Fail;

/// Room for each output of these tests.
const ROOM: usize = 8_388_608;

/// `F`, where there are bytes for it. The read of this number fails, counted from 1.
fn files(alloc: Global, held: Option<&[u8]>, fail_at: u64) -> Result<MemFiles, AllocError> {
    let mut files = Vec::new(alloc);
    if let Some(bytes) = held {
        let path = String::from_str(alloc, "F")?;
        files.push((path, bytes.to_vec(alloc)?))?;
    }
    Ok(MemFiles {
        held: files,
        fail_at: vec![in alloc; fail_at]?,
        calls: 0,
        faults: 0,
    })
}

/// The words that spaces part.
fn words(alloc: Global, line: &str) -> Result<Vec<String>, AllocError> {
    let mut words = Vec::new(alloc);
    for word in line.split_whitespace() {
        words.push(String::from_str(alloc, word)?)?;
    }
    Ok(words)
}

/// The answer to these words where `F` is held so, and what was written of at most so many bytes.
fn answer(
    alloc: Global,
    line: &str,
    held: Option<&[u8]>,
    fail_at: u64,
    room: usize,
) -> Result<(Status, Vec<u8>), AllocError> {
    let asked = words(alloc, line)?;
    let mut files = files(alloc, held, fail_at)?;
    let mut out = MemSink::new(alloc, room)?;
    let status = alc_alone(alloc, &asked, &mut files, &mut out);
    Ok((status, out.written))
}

/// Whether the answer to these words, where `F` is held so, is this status with this text.
pub(super) fn comes_to(
    alloc: Global,
    line: &str,
    held: Option<&[u8]>,
    status: Status,
    text: &str,
) -> Result<bool, AllocError> {
    let (found, written) = answer(alloc, line, held, 0, ROOM)?;
    Ok(found == status && written.as_slice() == text.as_bytes())
}

const LIFE: &[u8] = b"thread\nnew P\nunload P\ncollect";

const LIFE_REPORT: &str = "alc 1\n\
    thread 1\n\
    Made 1\n\
    Unloading 1\n\
    Freed 1\n\
    journal 3\n\
    1 1 new P -> Made 1\n\
    2 1 unload P -> Unloading 1\n\
    3 1 collect -> Freed 1\n\
    end\n";

/// A script of one image, whose file is read once.
const IMAGE: &[u8] = b"image a x.dll\nthread";

/// The words, what is held at `F`, the read that fails, how many bytes are taken; the status, and what
/// was written.
type Case = (
    &'static str,
    Option<&'static [u8]>,
    u64,
    usize,
    Status,
    &'static str,
);

static CASES: [Case; 11] = [
    ("steps F 0", Some(LIFE), 1, ROOM, Status::ReadFault, ""),
    ("steps F 0", None, 1, ROOM, Status::ReadFault, ""),
    ("steps F 0", Some(LIFE), 2, ROOM, Status::Done, LIFE_REPORT),
    (
        "steps F 0",
        Some(LIFE),
        2,
        10,
        Status::WriteFault,
        "alc 1\nthre",
    ),
    ("steps F 0", Some(LIFE), 2, 0, Status::WriteFault, ""),
    ("steps F 0", Some(IMAGE), 2, ROOM, Status::ReadFault, ""),
    (
        "steps F 0",
        Some(IMAGE),
        3,
        ROOM,
        Status::Done,
        "alc 1\nthread 1\njournal 0\nend\n",
    ),
    ("inspect F", Some(LIFE), 1, ROOM, Status::ReadFault, ""),
    ("inspect F", None, 1, ROOM, Status::ReadFault, ""),
    (
        "inspect F",
        Some(LIFE),
        2,
        12,
        Status::WriteFault,
        "inspect 1\nBa",
    ),
    ("inspect F", Some(LIFE), 2, 0, Status::WriteFault, ""),
];

#[test]
fn devices_that_fail_are_told(rt: HostRuntime) -> Result<(), Fail> {
    for (words, held, fail_at, room, status, text) in &CASES {
        let (found, written) = answer(rt.alloc(), words, *held, *fail_at, *room)?;
        assert!(rt;
            found == *status && written.as_slice() == text.as_bytes(),
            "{words}"
        );
    }
    Ok(())
}

#[test]
fn alc_answers_too(rt: HostRuntime) -> Result<(), Fail> {
    let asked = words(rt.alloc(), "inspect F")?;
    let mut files = SureFiles {
        held: Vec::new(rt.alloc()),
    };
    let status = alc(
        &rt,
        rt.alloc(),
        &asked,
        &mut files,
        &mut SureSink,
        &OpenGate,
    );
    assert!(rt; status == Status::Done);
    Ok(())
}
