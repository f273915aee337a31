//! A ticket lock round a state that keeps a journal. Threads step the state in turns: all their
//! events stand in one history, which each thread sees a beginning of.
#![tactic(auto)]

mod lock;
mod rule;
mod seat;
#[cfg(test)]
mod tests;
mod view;

pub use lock::Lock;
pub use seat::LockSeat;
