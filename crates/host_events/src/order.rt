//! Orders and answers: what goes into the host, and what comes out of it.
ghost use Rattle.std.specs.Prelude.{◌≡◌, ℕ};

use crate::event::Event;
use crate::reply::Reply;
use crate::reserved::{Numbers, Text};

/// What an order brings for the lists and texts of its reply, so that the host takes no memory.
#[derive(Debug, Drop)]
pub struct Room {
    /// For the contexts that a `Collect` frees.
    pub numbers: Numbers,
    /// For the text that a `LoadStatic` reads. The host does not answer that event yet.
    pub first: Text,
    /// No event has a use for it yet. It is for one that reads the assembly, the type and the method
    /// of a handler of a context's unloading: three texts, of which `first` has the first.
    pub second: Text,
    /// For the last of these texts.
    pub third: Text,
}

/// An event for the host, with all that answering it takes.
#[derive(Drop)]
pub struct Order<C> {
    /// It goes into the journal.
    pub event: Event,
    /// An event equal to `event`: its names, keys and texts go into the host's tables.
    pub again: Event,
    /// The code of the image that the event publishes.
    pub code: Option<C>,
    /// It goes into the journal's reply.
    pub room: Room,
    /// It goes into the answer's reply.
    pub copy: Room,
}

/// The code of an assembly, of which the host asks from what image it comes.
pub trait Code {
    ghost image: { Self → ℕ };

    /// The image's number, counted from 1.
    fn image(&self) -> u32
        ensures { result ≡ image self.now };
}

/// Where the code of an assembly comes from.
#[derive(Clone, Copy, Debug, PartialEq, Eq)]
pub struct CodeOf {
    /// The image's number, counted from 1.
    pub image: u32,
    /// The context in which the assembly lives.
    pub context: u32,
}

/// What the host answers to an order.
#[derive(Debug, Drop)]
pub struct Answer {
    pub reply: Reply,
    /// Where the code of the assembly that the reply names comes from: `None` where the reply names
    /// no assembly, or the platform.
    pub code: Option<CodeOf>,
}

/// An order, which asks for an event.
pub trait HasEvent {
    ghost use Rattle.host_events.specs.declared.event.Event.{Event};

    ghost event: { Self → Event };
}

/// An answer, which tells a reply, and where the code of the assembly comes from that it names.
pub trait HasReply {
    ghost use Rattle.std.specs.Prelude.{Option};
    ghost use Rattle.host_events.specs.declared.order.CodeOf.{CodeOf};
    ghost use Rattle.host_events.specs.declared.reply.Reply.{Reply};

    ghost reply: { Self → Reply };

    ghost code: { Self → Option CodeOf };
}

impl<C> HasEvent for Order<C> {
    ghost event = { λ order. order.event };
}

impl HasReply for Answer {
    ghost reply = { λ answer. answer.reply };

    ghost code = { λ answer. answer.code };
}
