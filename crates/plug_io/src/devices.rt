// The real outside: files of the system and its standard output. No contract can say what they give
// or take, so they tell nothing of content.
ghost use Rattle.std.specs.Prelude.{◌≡◌, ◌+◌, ◌-◌, ◌^◌, ◌<◌, ◌≤◌, length, min};
ghost use Rattle.std.specs.Prelude.{None, Some, Ok, IfOk, IfErr, OnErr, IfSome, is_err};
ghost use Rattle.std.specs.Io.Take.{take_inner, take_limit};
ghost use Rattle.plug_io.specs.Faults.{HasRisen, count_after};
ghost use Rattle.plug_io.specs.Found.{IfBytes, OnFailed, IsAnswer, is_failed};
ghost use Rattle.plug_io.specs.Sink.{IsTaken};
ghost use Rattle.plug_io.specs.System.{unopened, unread};

use crate::reading::{Files, Found};
use crate::writing::{Failed, Sink};
use std::alloc::Global;
use std::fs::File;
use std::io::{ErrorKind, Print, Read, Take};
use std::{io, rt};

/// The files of the system.
#[derive(Drop)]
pub struct DirFiles<R> {
    /// The runtime that opens them.
    pub rt: R,
    /// How many reads failed; it stands still at its last value.
    pub faults: u64,
}

/// The standard output.
#[derive(Drop)]
pub struct StdSink<R> {
    /// The runtime that prints.
    pub rt: R,
    /// How many writes failed; it stands still at its last value.
    pub faults: u64,
}

impl<R: rt::Files> Files for DirFiles<R> {
    ghost held = { λ _. None };

    ghost faults = { λ files. files.faults };

    /// It answers `Absent` where the system finds nothing at the path, and `Failed` where any other
    /// call of the system failed, as the read of a folder does. What it makes of an answer of the
    /// system is proved (`found_in`); what the system answers is tested.
    fn read(&mut self, alloc: Global, path: &str, limit: usize) -> Found
        ensures within { IfBytes result (λ bytes. length bytes ≤ limit) }
        ensures failed { OnFailed result (HasRisen self.old.faults self.new.faults) }
        ensures faults { self.old.faults ≤ self.new.faults }
        ensures last { self.old.faults ≡ 2 ^ 64 - 1 → self.new.faults ≡ 2 ^ 64 - 1 }
        ensures count { self.new.faults ≡ count_after self.old.faults (is_failed result) }
    {
        let found = found_in(File::open(&self.rt, path), alloc, limit);
        if let Found::Failed = found {
            self.faults = self.faults.saturating_add(1);
        }
        found
    }
}

// What a file that was opened, or was not, comes to.
fn found_in<F: Read + Drop>(opened: io::Result<F>, alloc: Global, limit: usize) -> Found
    ensures within { IfBytes result (λ bytes. length bytes ≤ limit) }
    ensures found { IfOk opened (λ file. IfSome (F.remaining file) (λ content.
        IsAnswer (Some content) limit result)) }
    ensures unopened { IfErr opened (λ error. result ≡ unopened error) }
{
    match opened {
        // One byte past the limit is read, to tell a file that is too long.
        Ok(file) => read_front(file.take(limit.saturating_add(1) as u64), alloc, limit),
        Err(error) => unopened(&error),
    }
}

// What is read of a file up to one byte past the limit.
fn read_front<F: Read + Drop>(mut front: Take<F>, alloc: Global, limit: usize) -> Found
    requires { take_limit front ≡ min (limit + 1) (2 ^ 64 - 1) }
    ensures within { IfBytes result (λ bytes. length bytes ≤ limit) }
    ensures found { IfSome (F.remaining (take_inner front)) (λ content.
        IsAnswer (Some content) limit result) }
{
    let mut bytes = Vec::new(alloc);
    match front.read_to_end(&mut bytes) {
        Ok(_) if bytes.len() > limit => Found::TooLong,
        Ok(_) => Found::Bytes(bytes),
        Err(error) => unread(&error),
    }
}

// What a failed opening comes to. Nothing stands at a path that leads through what is no folder.
fn unopened(error: &io::Error) -> Found
    ensures { result ≡ unopened error.now }
{
    match error.kind() {
        ErrorKind::NotFound | ErrorKind::NotADirectory => Found::Absent,
        _ => unread(error),
    }
}

// What a failed read comes to. An error of the allocator has no number of the system.
fn unread(error: &io::Error) -> Found
    ensures { result ≡ unread error.now }
{
    if error.kind() == ErrorKind::OutOfMemory && error.raw_os_error().is_none() {
        Found::OutOfMemory
    } else {
        Found::Failed
    }
}

impl<R: Print> Sink for StdSink<R> {
    ghost written = { λ _. None };

    ghost faults = { λ sink. sink.faults };

    /// Fails also where the output takes nothing of a piece that is not empty.
    fn write(&mut self, piece: &[u8]) -> Result<usize, Failed>
        ensures taken { IfOk result (IsTaken piece.now) }
        ensures failed { OnErr result (HasRisen self.old.faults self.new.faults) }
        ensures faults { self.old.faults ≤ self.new.faults }
        ensures last { self.old.faults ≡ 2 ^ 64 - 1 → self.new.faults ≡ 2 ^ 64 - 1 }
        ensures count { self.new.faults ≡ count_after self.old.faults (is_err result) }
    {
        let taken = taken_of(self.rt.write_some(piece), piece);
        if taken.is_err() {
            self.faults = self.faults.saturating_add(1);
        }
        taken
    }
}

// What a write of the system comes to: an output that takes nothing of a piece has failed.
fn taken_of(written: io::Result<usize>, piece: &[u8]) -> Result<usize, Failed>
    requires { IfOk written (λ n. n ≤ length piece.now) }
    ensures same { IfOk result (λ n. written ≡ Ok n) }
    ensures taken { IfOk result (IsTaken piece.now) }
    ensures failed { OnErr result (IfOk written (λ n. (n ≡ 0) × (0 < length piece.now))) }
{
    match written {
        Ok(taken) if taken > 0 || piece.is_empty() => Ok(taken),
        _ => Err(Failed),
    }
}
