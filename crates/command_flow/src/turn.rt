//! Where a thread stands between two events.
ghost use Rattle.std.specs.Prelude.{◌≡◌, ◌<◌, Some, IsSome};
ghost use Rattle.command_flow.specs.Turns.{CanTurn, entered_turn, loaded, opened, turn_with};

use bind_flow::BindFlow;
use host_events::{Answer, Outcome, Reply};

/// For the reply to which event a thread waits.
#[derive(Drop)]
pub enum Wait {
    /// The one event of a command.
    Event,
    /// The first event of an operation.
    Enter,
    /// The publication of the image that is loaded.
    Load {
        operation: u32,
    },
    /// An event of a bind, within the operation after so many others.
    Bind {
        operation: u32,
        count: u32,
        flow: BindFlow,
    },
    /// The last event of an operation.
    Leave {
        operation: u32,
        outcome: Outcome,
    },
}

/// What a thread does next.
#[derive(Drop)]
pub enum Turn {
    /// The command has ended so.
    Ends(Outcome),
    /// The operation has begun in this context.
    Begins {
        operation: u32,
        context: u32,
    },
    /// The bind goes on with the answer. So many events were made within the operation.
    Binds {
        operation: u32,
        count: u32,
        flow: BindFlow,
        answer: Answer,
    },
    /// The work within the operation has ended so.
    Leaves {
        operation: u32,
        outcome: Outcome,
    },
}

impl Wait {
    /// Where the thread goes with the answer.
    pub fn turn(self, answer: Answer) -> Turn
        requires { CanTurn self answer.reply }
        ensures { result ≡ turn_with self answer }
    {
        match self {
            Wait::Event => Turn::Ends(Outcome::Replied(answer.reply)),
            Wait::Enter => entered(answer.reply),
            Wait::Load { operation } => Turn::Leaves {
                operation,
                outcome: Outcome::Assembly(loaded(&answer.reply)),
            },
            Wait::Bind {
                operation,
                count,
                flow,
            } => Turn::Binds {
                operation,
                count: count + 1,
                flow,
                answer,
            },
            Wait::Leave { outcome, .. } => Turn::Ends(outcome),
        }
    }
}

impl Turn {
    /// The operation within which the thread is.
    pub fn open(&self) -> Option<u32>
        ensures { result ≡ opened self.now }
    {
        match self {
            Turn::Ends(_) => None,
            Turn::Begins { operation, .. }
            | Turn::Binds { operation, .. }
            | Turn::Leaves { operation, .. } => Some(*operation),
        }
    }
}

/// An operation begins, unless the reply is the outcome.
fn entered(reply: Reply) -> Turn
    ensures { result ≡ entered_turn reply }
{
    match reply {
        Reply::Entered(operation, context) => Turn::Begins { operation, context },
        _ => Turn::Ends(Outcome::Replied(reply)),
    }
}

/// The assembly that the context has under the image's name.
fn loaded(reply: &Reply) -> u32
    requires { IsSome (loaded reply.now) }
    ensures { loaded reply.now ≡ Some result }
{
    match reply {
        Reply::Bound(assembly) | Reply::Lost(assembly) => *assembly,
        _ => unreachable!(),
    }
}
