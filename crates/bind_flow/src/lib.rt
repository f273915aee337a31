//! Binding: which assembly a name means in a context.
#![tactic(auto)]

mod flow;
mod images;
mod laws;
mod search;
mod turn;

pub use flow::BindFlow;
pub use images::{ImageCode, ImageFile, ImageReading, Images};
pub use laws::{binds_in_order, one_bind};
