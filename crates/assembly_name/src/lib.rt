//! Simple names and versions of assemblies, and references to them.
#![tactic(auto)]

mod simple_name;
mod version;

pub use simple_name::{SimpleName, same_name};
pub use version::{AssemblyRef, Version, accepts};

#[cfg(test)]
mod tests;
