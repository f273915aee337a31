//! Images from modules: a module is written as a PE32 file, which reads as that module.
#![tactic(auto)]

mod counts;
mod fault;
mod file;
mod limit;
mod maker;
mod module;
mod plans;
mod rows;
mod samples;
mod size;
mod sound;
mod streams;
mod tally;
mod units;
mod writer;

pub use fault::MakeFault;
pub use maker::make;
pub use module::{Cell, FieldRow, MemberRow, MethodRow, Module, TypeRefRow, TypeRow};
pub use samples::{SampleName, sample};

#[cfg(test)]
mod tests;
