//! Words of the Common Language Infrastructure (ECMA-335) that every layer speaks of: names, texts,
//! lists, numbers and their conversions, places in bytes, and checks.
#![tactic(auto)]

mod character;
mod check;
mod compressed;
mod conversion;
mod fault;
mod listed;
pub mod name;
mod number;
mod span;
mod text;
pub mod units;
mod word32;
mod word64;

pub use character::first_character;
pub use check::{CheckCode, FailedCheck};
pub use compressed::read_compressed;
pub use conversion::{NumKind, convert, convert_ovf};
pub use fault::DivFault;
pub use listed::Listed;
pub use name::{Name, NameFault};
pub use number::{u16_at, u32_at, u64_at};
pub use span::{Span, zero_after};
pub use text::Utf8Text;
pub use units::{TextFault, Units};
pub use word32::Word32;
pub use word64::Word64;

#[cfg(test)]
mod tests;
