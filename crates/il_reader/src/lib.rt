//! Method bodies, their exception clauses and their instructions. ECMA-335 II.25.4, III.
#![tactic(auto)]

mod body;
mod fault;
mod instruction;
mod laws;
mod offsets;
mod opcode;
mod section;

pub use body::{Body, read_body};
pub use fault::IlFault;
pub use instruction::{Instr, Operand, next};
pub use laws::{
    boundaries_are_one_list, boundaries_lie_in_the_code, boundaries_or_break,
    distances_lie_in_the_code, not_broken, one_break,
};
pub use offsets::boundaries;
pub use section::{CATCH, Clause, Clauses, FAULT, FILTER, FINALLY};

#[cfg(test)]
mod tests;
