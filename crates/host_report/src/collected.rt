// Bytes that are gathered in memory.
ghost use Rattle.std.specs.Prelude.{◌≡◌, ◌-◌, ◌^◌, ◌≤◌, take, MatchResult, IfOk, OnErr};
ghost use Rattle.plug_io.specs.Faults.{HasRisen};
ghost use Rattle.plug_io.specs.Sink.{IsTaken, HasAppended};

use plug_io::{Failed, Sink};

/// A sink that takes all, unless memory is wanting.
#[derive(Drop)]
pub(crate) struct Collected {
    pub bytes: Vec<u8>,
    pub faults: u64,
}

impl Sink for Collected {
    ghost use Rattle.std.specs.Prelude.{Some};

    ghost written = { λ sink. Some sink.bytes.items };

    ghost faults = { λ sink. sink.faults };

    fn write(&mut self, piece: &[u8]) -> Result<usize, Failed> {
        match self.bytes.extend_from_slice(piece) {
            Ok(()) => Ok(piece.len()),
            Err(_) => {
                self.faults = self.faults.saturating_add(1);
                Err(Failed)
            }
        }
    }
}
