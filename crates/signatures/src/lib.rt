//! Signatures: the blobs that say the types of fields, methods and locals, and the keys of closed
//! types. ECMA-335 II.23.2.
#![tactic(auto)]

mod element;
mod fault;
mod feature;
mod key;
mod laws;
mod levels;
mod made_of;
mod number;
mod part;
mod reader;
mod sig;
mod substitution;

pub use fault::{KeyFault, SigFault, Stop};
pub use feature::Feature;
pub use key::{Key, KeyPart, TypeKey};
pub use laws::{
    equal_keys_are_same, keys_made_of_are_one_list, readings_are_spelled, readings_stop_at_first,
    sigs_made_of_are_one_list, spelled_numbers_are_small,
};
pub use reader::{field_sig, local_sig, method_sig, type_sig};
pub use sig::{MethodSig, Primitive as Prim, Sig, SigPart, Sigs};
pub use substitution::substitute;

#[cfg(test)]
mod tests;
