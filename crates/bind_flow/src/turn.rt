//! Where a bind stands between two events.
use host_events::{AskStep, Candidate, Outcome};

/// For the reply to which event a bind waits.
#[derive(Clone, Copy, Debug, PartialEq, Eq)]
pub enum Wait {
    /// Whether the name is bound already.
    Lookup,
    /// What a step finds.
    Ask(AskStep),
    /// The publication in context 0 of an image that every context finds.
    PublishDefault(u32),
    /// The publication of what a step found.
    Publish(Candidate),
    /// The publication of the assembly that context 0 has.
    Share(u32),
}

/// What a bind does next.
#[derive(Debug, Drop)]
pub enum Turn {
    /// It asks for an event.
    Asks(Wait),
    /// It ends: the name means this assembly.
    Found(u32),
    /// It ends so: the name means no assembly.
    Refused(Outcome),
}
