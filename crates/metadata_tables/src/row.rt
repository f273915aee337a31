//! A row of a table.
ghost use Rattle.std.specs.Prelude.{◌≡◌, ◌+◌, ◌<◌, ◌++◌, ◌∷◌, [], length, slice_get};

use crate::schema::COLUMN_LIMIT;
use std::marker::Model;

/// A row of a table: the number that stands in each column.
#[derive(Drop)]
pub struct Row {
    values: [u32; COLUMN_LIMIT],
    len: usize,
}

impl Model for Row {
    ghost use Rattle.std.specs.Prelude.{List, ℕ, ◌≤◌, take};

    ghost Value = { List ℕ };

    ghost view = { λ row. take row.len row.values };

    ghost invariant = { λ row. row.len ≤ 9 };
}

impl Row {
    /// The number in column `n`, counted from 0. `None` exactly where the table has no such
    /// column.
    pub fn column(&self, n: usize) -> Option<u32>
        ensures { result ≡ slice_get self.now n }
    {
        self.values[..self.len].get(n).copied()
    }

    pub(crate) fn new() -> Row
        ensures { result ≡ [] }
    {
        Row {
            values: [0; COLUMN_LIMIT],
            len: 0,
        }
    }

    pub(crate) fn push(&mut self, value: u32)
        requires { length self.old < 9 }
        ensures { self.new ≡ self.old ++ value ∷ [] }
    {
        self.values[self.len] = value;
        self.len += 1;
    }
}
