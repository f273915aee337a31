//! How many rows a module has.
ghost use Rattle.std.specs.Prelude.{◌≡◌, length, map, min, None};
ghost use Rattle.std.specs.List.{range_with_len, sum_by};
ghost use Rattle.image_maker.specs.Sound.{count};
ghost use Rattle.image_maker.specs.Size.{long_table};
ghost use Rattle.image_maker.specs.Tally.{Tells, most, given_count};

use crate::module::{Module, TypeRow};
use metadata_tables::{TABLE_COUNT, table};

/// How many tables there may be.
pub(crate) const TABLES: u8 = TABLE_COUNT as u8;

impl Module {
    /// How many rows each table has, at most `u32::MAX`.
    pub(crate) fn counts(&self) -> [u32; 45]
        ensures tells { Tells result self.now }
        ensures all { long_table self.now ≡ None
            → result ≡ map (count self.now) (range_with_len 0 45) }
    {
        let mut counts = [0; 45];
        for table in 0..TABLES {
            counts[usize::from(table)] = self.count(table).min(u64::from(u32::MAX)) as u32;
        }
        counts
    }

    /// How many rows a table has, at most `u64::MAX`.
    pub(crate) fn count(&self, table: u8) -> u64
        ensures { result ≡ min (count self.now table) most }
    {
        match table {
            table::MODULE | table::ASSEMBLY => 1,
            table::TYPE_REF => self.type_refs.items().len() as u64,
            table::TYPE_DEF => self.types.items().len() as u64,
            table::FIELD => field_count(self.types.items()),
            table::METHOD_DEF => method_count(self.types.items()),
            table::MEMBER_REF => self.members.items().len() as u64,
            table::TYPE_SPEC => self.specs.items().len() as u64,
            table::ASSEMBLY_REF => self.refs.items().len() as u64,
            _ => self.given_count(table),
        }
    }

    /// How many rows of a table a module gives as cells.
    pub(crate) fn given_count(&self, table: u8) -> u64
        ensures { result ≡ given_count table self.now.rows }
    {
        self.rows
            .items()
            .iter()
            .filter(|row| row.0 == table)
            .count() as u64
    }
}

pub(crate) fn field_count(types: &[TypeRow]) -> u64
    ensures { result ≡ min (sum_by (λ t. length t.fields) types.now) most }
{
    let mut count: u64 = 0;
    for item in types {
        count = count.saturating_add(item.fields.items().len() as u64);
    }
    count
}

pub(crate) fn method_count(types: &[TypeRow]) -> u64
    ensures { result ≡ min (sum_by (λ t. length t.methods) types.now) most }
{
    let mut count: u64 = 0;
    for item in types {
        count = count.saturating_add(item.methods.items().len() as u64);
    }
    count
}
