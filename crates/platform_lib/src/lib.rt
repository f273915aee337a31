//! The platform, assembly 0: its types and its methods.
#![tactic(auto)]

mod calls;
mod classes;
mod names;
mod table;

pub use calls::{intrinsic, method};
pub use classes::{parent, prim, type_row};
pub use table::Intrinsic;

#[cfg(test)]
mod tests;
