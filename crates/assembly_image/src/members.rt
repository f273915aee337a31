//! The fields and the methods of types.
ghost use Rattle.std.specs.Prelude.{◌≡◌, ◌+◌, ◌^◌, ◌<◌, ◌≤◌};
ghost use Rattle.metadata_tables.specs.Tables as tables;
ghost use Rattle.assembly_image.specs.Module as held;
ghost use Rattle.assembly_image.specs.Members as spec;
ghost use Rattle.assembly_image.specs.Names.{has_type};
ghost use Rattle.assembly_image.specs.Reading.{module_of};

use crate::image::AssemblyImage;
use crate::names::spells;
use cli_words::{Span, Units};
use metadata_tables::{column, table};
use std::ops::Range;

/// What a type has.
#[derive(Clone, Copy, PartialEq, Eq, Debug)]
pub enum Member {
    Field,
    Method,
}

impl Member {
    /// The table of these members.
    fn table(self) -> u8
        ensures { result ≡ spec.table_of self }
    {
        match self {
            Member::Field => table::FIELD,
            Member::Method => table::METHOD_DEF,
        }
    }

    /// The column of a type's row at which their list begins.
    fn list(self) -> usize
        ensures { result ≡ spec.list_of_kind self }
    {
        match self {
            Member::Field => column::TYPE_DEF_FIELD_LIST,
            Member::Method => column::TYPE_DEF_METHOD_LIST,
        }
    }

    /// The column of their names.
    fn name(self) -> usize
        ensures { result ≡ spec.name_of_kind self }
    {
        match self {
            Member::Field => column::FIELD_NAME,
            Member::Method => column::METHOD_DEF_NAME,
        }
    }
}

impl AssemblyImage {
    /// The rows of a type's fields, or of its methods: the first, and the one after the last. Both
    /// are 0 where there is no such type, and neither is past 2^24. ECMA-335 II.22.37.
    pub fn members(&self, kind: Member, row: u32) -> Range<u32>
        ensures value { result ≡ spec.member_range (module_of self.now) kind row }
        ensures few { result.end ≤ 2 ^ 24 }
    {
        if row == 0 || self.types() < row {
            return 0..0;
        }
        self.list_start(kind, row)..self.list_end(kind, row)
    }

    /// The row of the type that has a field, or a method. `None` exactly where row `n` stands in the
    /// list of no type. ECMA-335 II.22.37.
    pub fn type_of(&self, kind: Member, n: u32) -> Option<u32>
        ensures { result ≡ spec.type_of_member (module_of self.now) kind n }
    {
        // The lists of the types up to `low` begin at or before the row, those of the types past
        // `high` after it.
        let (mut low, mut high) = (0, self.tables.count(table::TYPE_DEF));
        while low < high {
            let middle = high - (high - low) / 2;
            if self.list_start(kind, middle) <= n {
                low = middle;
            } else {
                high = middle - 1;
            }
        }
        if low == 0 || self.list_end(kind, low) <= n {
            return None;
        }
        Some(low)
    }

    /// The first row, counted from 1 and at or after `from`, of a field of the type of a row that
    /// has this name. Names are compared unit by unit. `None` exactly where there is no such field,
    /// also where there is no such type. ECMA-335 II.22.15, II.22.37.
    pub fn find_field(&self, row: u32, from: u32, name: &Units) -> Option<u32>
        ensures { result ≡ spec.field_of_name (module_of self.now) row from name.now }
    {
        self.find_member(Member::Field, row, from, name.units())
    }

    /// The first row, counted from 1 and at or after `from`, of a method of the type of a row that
    /// has this name. Names are compared unit by unit. `None` exactly where there is no such
    /// method, also where there is no such type. ECMA-335 II.22.26, II.22.37.
    pub fn find_method(&self, row: u32, from: u32, name: &Units) -> Option<u32>
        ensures { result ≡ spec.method_of_name (module_of self.now) row from name.now }
    {
        self.find_member(Member::Method, row, from, name.units())
    }

    fn find_member(&self, kind: Member, row: u32, from: u32, name: &[u16]) -> Option<u32>
        ensures { result ≡ spec.member_of_name (module_of self.now) kind row from name.now }
    {
        let rows = self.members(kind, row);
        for n in rows.start.max(from)..rows.end {
            if spells(name, self.text(kind.table(), n, kind.name())) {
                return Some(n);
            }
        }
        None
    }

    /// The row at which a list of a type begins.
    fn list_start(&self, kind: Member, row: u32) -> u32
        requires first { 1 ≤ row }
        requires last { row ≤ held.count (module_of self.now) tables.type_def }
        ensures value { result
            ≡ held.number (module_of self.now) tables.type_def row (spec.list_of_kind kind) }
        ensures few { result ≤ 2 ^ 24 }
    {
        self.index(table::TYPE_DEF, row, kind.list())
    }

    /// The row after the last of a list of a type.
    fn list_end(&self, kind: Member, row: u32) -> u32
        requires first { 1 ≤ row }
        requires last { row ≤ held.count (module_of self.now) tables.type_def }
        ensures value { result ≡ spec.after_list (module_of self.now) (spec.table_of kind) row
            (spec.list_of_kind kind) }
        ensures few { result ≤ 2 ^ 24 }
    {
        if row < self.types() {
            self.list_start(kind, row + 1)
        } else {
            self.tables.count(kind.table()) + 1
        }
    }

    /// The flags of a type. 0 where there is no such row. ECMA-335 II.23.1.15.
    pub fn type_flags(&self, row: u32) -> u32
        ensures { result ≡ spec.type_flags (module_of self.now) row }
    {
        self.number(table::TYPE_DEF, row, column::TYPE_DEF_FLAGS)
    }

    /// The flags of a field. 0 where there is no such row. ECMA-335 II.23.1.5.
    pub fn field_flags(&self, n: u32) -> u16
        ensures { result ≡ spec.field_flags (module_of self.now) n }
    {
        self.word(table::FIELD, n, column::FIELD_FLAGS)
    }

    /// The flags of a method. 0 where there is no such row. ECMA-335 II.23.1.10.
    pub fn method_flags(&self, n: u32) -> u16
        ensures { result ≡ spec.method_flags (module_of self.now) n }
    {
        self.word(table::METHOD_DEF, n, column::METHOD_DEF_FLAGS)
    }

    /// Where in the file the body of a method begins: the place of the first byte at its RVA, as a
    /// span of length 1, which may stand past the file's end. `None` exactly where there is no such
    /// row, its RVA is 0, or no section holds that byte. ECMA-335 II.22.26, II.25.4.
    pub fn body_at(&self, n: u32) -> Option<Span>
        ensures { result ≡ spec.body_place self.now n }
    {
        let rva = self.number(table::METHOD_DEF, n, column::METHOD_DEF_RVA);
        if rva == 0 {
            return None;
        }
        self.pe().at(self.bytes(), rva, 1)
    }
}
