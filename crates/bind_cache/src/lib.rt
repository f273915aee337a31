//! Which assembly a context has for each name.
#![tactic(auto)]

mod bindings;
mod laws;
#[cfg(test)]
mod tests;

pub use bindings::Bindings;
pub use laws::a_publication_changes_one_name;
