//! The tables of metadata: which rows a stream `#~` has, and what stands in their columns.
#![tactic(auto)]

pub mod column;
mod layout;
mod place;
mod reading;
mod row;
mod schema;
pub mod table;
mod tables;

pub use layout::{Layout, Width};
pub use row::Row;
pub use schema::{CodedIndex, Column, columns};
pub use table::TABLE_COUNT;
pub use tables::{HeapSizes, Tables, read_tables};

#[cfg(test)]
mod tests;
