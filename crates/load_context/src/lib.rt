//! The contexts of a host: which ones there are, by their numbers, and what a name means.
#![tactic(auto)]

mod contexts;
mod scan;
#[cfg(test)]
mod tests;

pub use contexts::{ContextRow, Contexts};
