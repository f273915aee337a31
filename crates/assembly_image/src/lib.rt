//! Images of assemblies: bytes that pass every check of the reading, and what they hold.
//! ECMA-335 II.22 to II.25.
#![tactic(auto)]

mod cells;
mod checks;
mod fault;
mod image;
mod index;
mod laws;
mod members;
mod names;
mod reading;
mod references;
mod strings;
mod texts;

pub use fault::ImageFault;
pub use image::AssemblyImage;
pub use laws::{not_both, one_fault, one_module, read_or_refused};
pub use members::Member;
pub use reading::read_image;

#[cfg(test)]
mod tests;
