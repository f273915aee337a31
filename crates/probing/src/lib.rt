//! Where a bind looks for an image: the rules that were set, in their order, and the image files
//! that every context may find by themselves.
#![tactic(auto)]

mod app_list;
mod rules;
#[cfg(test)]
mod tests;

pub use app_list::AppList;
pub use rules::{RulePlace, Rules};
