//! Images of assemblies as PE files: their headers, their sections, and where their metadata lies.
#![tactic(auto)]

mod headers;
mod pe;
mod section;

pub use headers::read_pe;
pub use pe::Pe;

#[cfg(test)]
mod tests;
