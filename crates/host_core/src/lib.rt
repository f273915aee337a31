//! The host: it takes events one after another, and answers each by the reply that the events
//! before it determine.
#![tactic(auto)]

mod asks;
mod bounds;
mod handles;
mod host;
mod lookups;
mod platform;
mod replies;
mod retold;
mod tables;

pub use bounds::{Bounds, Share};
pub use host::HostCore;
