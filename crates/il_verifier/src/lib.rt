//! The check of method bodies: what each instruction takes from the evaluation stack and gives to
//! it, how deep the stack is at each place, which types it holds there, and the first fault that a
//! body has. ECMA-335 III.1.8.
#![tactic(auto)]

mod begins;
mod depth;
mod effect;
mod effects;
mod facts;
mod fault;
mod filled;
mod gift;
mod joins;
mod keys;
mod kind;
mod known;
mod laws;
mod line;
mod pairs;
mod pool;
mod rules;
mod sweep;
mod todo;
mod typing;
mod verdict;

pub use facts::{BodyFacts, FieldFacts, MethodFacts, Use};
pub use laws::{kept_typings_are_sound, stacks_rise, typings_are_least, verdicts_are_one};
pub use verdict::typed_or_fault;

#[cfg(test)]
mod tests;
