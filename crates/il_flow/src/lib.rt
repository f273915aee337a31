//! The types of values on the evaluation stack: how they merge where two ways meet, and which may
//! go into a place of which type. ECMA-335 III.1.1, III.1.8.1.
#![tactic(auto)]

mod assign;
mod classes;
mod laws;
mod level;
mod merging;
mod stack;

pub use assign::assignable;
pub use laws::{
    merging_is_least, no_array_is_above, object_is_above_all, rank_falls_upwards,
    values_stay_assignable,
};
pub use merging::merge;
pub use stack::{Parents, StackType};

#[cfg(test)]
mod tests;
