//! The drivers: they run the flows of threads over one state that keeps a journal.
#![tactic(auto)]

#[cfg(test)]
mod fakes;
mod laws;
mod seat;
mod seed;
#[cfg(test)]
mod tests;

pub use laws::one_journal;
pub use seed::run_by_seed;
