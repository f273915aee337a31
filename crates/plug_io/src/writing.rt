// Sinks: the trait, and two sinks that need no system.
ghost use Rattle.std.specs.Prelude.{◌≡◌, ℕ, ◌+◌, ◌-◌, ◌^◌, ◌≤◌, ◌↔◌, ◌++◌, [], List, length, take};
ghost use Rattle.std.specs.Prelude.{Option, Some, None, Ok, IsErr, IfOk, OnErr, MatchResult};
ghost use Rattle.std.specs.Prelude.{is_err, min, vec_len, vec_capacity};
ghost use Rattle.plug_io.specs.Faults.{HasRisen, count_after};
ghost use Rattle.plug_io.specs.Sink.{IsTaken, HasAppended};

use std::alloc::{AllocError, Global};
use thiserror::Error;

/// A write that failed: nothing of the piece was taken, and the sink's count of faults rose, or
/// stands at its last value.
#[derive(Debug, Drop, Error)]
#[error("the write failed")]
pub struct Failed;

/// Where bytes are written.
///
/// `written` is what was taken so far, where the sink tells it. `faults` is how often it has
/// failed.
pub trait Sink {
    ghost written: { Self → Option (List ℕ) };

    ghost faults: { Self → ℕ };

    /// Takes the first bytes of `piece`, at least one where there is one, and gives how many.
    fn write(&mut self, piece: &[u8]) -> Result<usize, Failed>
        ensures taken { IfOk result (IsTaken piece.now) }
        ensures written { MatchResult result
            (λ n. HasAppended (written self.old) (written self.new) (take n piece.now))
            (λ _. written self.new ≡ written self.old) }
        ensures failed { OnErr result (HasRisen (faults self.old) (faults self.new)) }

        // The count never falls, and its last value stays.
        ensures faults { faults self.old ≤ faults self.new }
        ensures last { faults self.old ≡ 2 ^ 64 - 1 → faults self.new ≡ 2 ^ 64 - 1 };
}

/// A sink in memory with room for so many bytes.
#[derive(Debug, Drop)]
pub struct MemSink {
    /// What was written.
    pub written: Vec<u8>,
    /// How many bytes it still takes.
    pub room_left: usize,
    /// How many writes failed; it stands still at its last value.
    pub faults: u64,

    // The room is taken before, so that no write takes memory.
    ghost has_room: { vec_len written + room_left ≤ vec_capacity written },
}

/// A sink that takes every piece whole, and tells nothing of it.
#[derive(Debug, Drop)]
pub struct SureSink;

impl MemSink {
    /// An empty sink that takes `room` bytes. It fails only where there is no memory for them.
    pub fn new(alloc: Global, room: usize) -> Result<MemSink, AllocError>
        ensures empty { IfOk result (λ sink. sink.written.items ≡ []) }
        ensures room { IfOk result (λ sink. sink.room_left ≡ room) }
        ensures faults { IfOk result (λ sink. sink.faults ≡ 0) }
    {
        let written = Vec::with_capacity(alloc, room)?;
        Ok(MemSink {
            written,
            room_left: room,
            faults: 0,
        })
    }
}

impl Sink for MemSink {
    ghost written = { λ sink. Some sink.written.items };

    ghost faults = { λ sink. sink.faults };

    /// Takes what there is room for. A write where no room is left fails, also of an empty piece.
    fn write(&mut self, piece: &[u8]) -> Result<usize, Failed>
        ensures taken { IfOk result (IsTaken piece.now) }
        ensures written { MatchResult result
            (λ n. self.new.written.items ≡ self.old.written.items ++ take n piece.now)
            (λ _. self.new.written.items ≡ self.old.written.items) }
        ensures failed { OnErr result (HasRisen self.old.faults self.new.faults) }
        ensures faults { self.old.faults ≤ self.new.faults }
        ensures last { self.old.faults ≡ 2 ^ 64 - 1 → self.new.faults ≡ 2 ^ 64 - 1 }

        ensures full { IsErr result ↔ (self.old.room_left ≡ 0) }
        ensures whole { IfOk result (λ n. n ≡ min (length piece.now) self.old.room_left) }
        ensures room { MatchResult result
            (λ n. self.new.room_left + n ≡ self.old.room_left) (λ _. self.new.room_left ≡ 0) }
        ensures count { self.new.faults ≡ count_after self.old.faults (is_err result) }
    {
        if self.room_left == 0 {
            self.faults = self.faults.saturating_add(1);
            return Err(Failed);
        }
        let taken = piece.len().min(self.room_left);
        self.written.extend_from_slice(&piece[..taken]).unwrap();
        self.room_left -= taken;
        Ok(taken)
    }
}

impl Sink for SureSink {
    ghost written = { λ _. None };

    ghost faults = { λ _. 0 };

    /// It never fails.
    fn write(&mut self, piece: &[u8]) -> Result<usize, Failed>
        ensures whole { result ≡ Ok (length piece.now) }
    {
        Ok(piece.len())
    }
}
