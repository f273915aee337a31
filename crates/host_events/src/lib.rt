//! What happens in the host, as data: events and the replies to them, the journal that lists both,
//! and what a command ends with; and the traits of what keeps a journal and of what asks for events.
//! All that is read off a journal is defined in this crate's `specs/`.
#![tactic(auto)]

mod event;
mod flow;
mod journal;
mod kept;
mod laws;
mod order;
mod outcome;
mod reply;
mod reserved;
#[cfg(test)]
mod tests;

pub use cli_words::Listed;
pub use event::{AskStep, Candidate, ContextKind, Datum, Event, RuleAnswer, RuleAt, ValueKind};
pub use flow::{Due, Flow, Next};
pub use journal::{Entry, Journal};
pub use kept::Kept;
pub use laws::{
    assemblies_stay, named_are_made, one_reply, own_entries_tell_open, own_entries_tell_replies,
    own_entries_tell_within,
};
pub use order::{Answer, Code, CodeOf, HasEvent, HasReply, Order, Room};
pub use outcome::{CommandEnd, End, Lines, Outcome, VerifyRule};
pub use reply::Reply;
pub use reserved::{Numbers, Reserved, Text};
