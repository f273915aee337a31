//! What the threads of a script do: a flow asks for the events of a thread's commands, one after the
//! other, and ends with how each command ended.
#![tactic(auto)]

mod flow;
mod laws;
mod order;
mod run;
mod turn;

pub use flow::ThreadFlow;
pub use laws::{commands_in_order, due_events_fit, one_end};
