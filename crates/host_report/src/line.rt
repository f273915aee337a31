// A text on its way to a sink, through a buffer that was taken before.
ghost use Rattle.std.specs.Prelude.{◌≡◌, ℕ, ◌+◌, ◌-◌, ◌≤◌, ◌<◌, List, [], ◌++◌, length, false};
ghost use Rattle.std.specs.Prelude.{IfOk, OnOk, OnErr, vec_len, vec_capacity, decimal};
ghost use Rattle.plug_io.specs.Faults.{HasRisen};
ghost use Rattle.plug_io.specs.Sink.{HasAppended};
ghost use Rattle.host_report.specs.Line.{HasStopped, Puts};

use itoa::Buffer;
use plug_io::{Failed, Sink};
use std::alloc::{AllocError, Global};

// How many bytes a line gathers before it writes them.
const ROOM: usize = 4096;

/// The one buffer through which a report or an inspection is written. Once the sink has failed, it
/// writes nothing more.
#[derive(Drop)]
pub struct Line {
    buffer: Vec<u8>,
    failed: bool,
}

impl Line {
    /// An empty line, with the memory that it will ever need.
    pub fn new(alloc: Global) -> Result<Line, AllocError>
        ensures waiting { IfOk result (λ line. line.buffer.items ≡ []) }
        ensures failed { IfOk result (λ line. line.failed ≡ false) }
    {
        let buffer = Vec::with_capacity(alloc, ROOM)?;
        Ok(Line {
            buffer,
            failed: false,
        })
    }

    /// Forgets what waits, and any fault.
    pub fn clear(&mut self)
        ensures waiting { self.new.buffer.items ≡ [] }
        ensures failed { self.new.failed ≡ false }
    {
        self.buffer.clear();
        self.failed = false;
    }

    /// A test of whether the sink has failed.
    pub fn has_failed(&self) -> bool
        ensures { result ≡ self.now.failed }
    {
        self.failed
    }

    // How many bytes can still wait.
    fn room(&self) -> usize
        ensures { result ≡ vec_capacity self.now.buffer - vec_len self.now.buffer }
    {
        self.buffer.capacity() - self.buffer.len()
    }

    // Lets the text wait, unless the sink has failed.
    fn keep(&mut self, text: &[u8])
        requires { length text.now ≤ vec_capacity self.old.buffer - vec_len self.old.buffer }
        ensures failed { self.new.failed ≡ self.old.failed }
        ensures waiting { self.old.failed ≡ false →
            self.new.buffer.items ≡ self.old.buffer.items ++ text.now }
    {
        if !self.failed {
            self.buffer.extend_from_slice(text).unwrap();
        }
    }
}

/// Puts the text.
pub fn put<S: Sink>(line: &mut Line, out: &mut S, text: &[u8])
    ensures { Puts S.written S.faults line.old out.old line.new out.new text.now }
{
    if text.len() <= line.room() {
        line.keep(text);
        return;
    }
    flush(line, out);
    if text.len() <= line.room() {
        line.keep(text);
        return;
    }
    send(line, out, text);
}

/// Puts a number in decimal digits.
pub fn put_number<S: Sink>(line: &mut Line, out: &mut S, number: u64)
    ensures { Puts S.written S.faults line.old out.old line.new out.new (decimal number) }
{
    let mut digits = Buffer::new();
    put(line, out, digits.format(number).as_bytes());
}

/// Writes what waits.
pub fn flush<S: Sink>(line: &mut Line, out: &mut S)
    ensures puts { Puts S.written S.faults line.old out.old line.new out.new [] }
    ensures waiting { line.new.failed ≡ false → line.new.buffer.items ≡ [] }
{
    if line.failed {
        return;
    }
    line.failed = write_whole(out, &line.buffer).is_err();
    line.buffer.clear();
}

// Writes the text where nothing waits, unless the sink has failed.
fn send<S: Sink>(line: &mut Line, out: &mut S, text: &[u8])
    requires { line.old.failed ≡ false → line.old.buffer.items ≡ [] }
    ensures { Puts S.written S.faults line.old out.old line.new out.new text.now }
{
    if line.failed {
        return;
    }
    line.failed = write_whole(out, text).is_err();
}

// Writes the whole piece, by as many writes as it takes.
fn write_whole<S: Sink>(out: &mut S, piece: &[u8]) -> Result<(), Failed>
    ensures written { OnOk result (HasAppended (S.written out.old) (S.written out.new) piece.now) }
    ensures stopped { OnErr result (HasStopped (S.written out.old) (S.written out.new) piece.now) }
    ensures failed { OnErr result (HasRisen (S.faults out.old) (S.faults out.new)) }
    ensures faults { S.faults out.old ≤ S.faults out.new }
{
    let mut rest = piece;
    while !rest.is_empty() {
        let taken = out.write(rest)?;
        rest = &rest[taken..];
    }
    Ok(())
}
