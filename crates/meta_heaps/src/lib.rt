//! The root of the metadata of a PE file: its streams, and the entries of the heaps among them.
//! ECMA-335 II.24.2.
#![tactic(auto)]

mod header;
mod heap;
mod root;

pub use heap::Root;
pub use root::read_root;

#[cfg(test)]
mod tests;
