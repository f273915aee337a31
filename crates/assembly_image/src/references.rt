//! References to assemblies and to types, and what tokens name.
ghost use Rattle.std.specs.Prelude.{◌≡◌, IfOk};
ghost use Rattle.cli_words.specs.Text.{units_of};
ghost use Rattle.assembly_image.specs.Module as held;
ghost use Rattle.metadata_tables.specs.Columns.{column_of};
ghost use Rattle.assembly_image.specs.Names as spec;
ghost use Rattle.assembly_image.specs.Reading.{module_of};

use crate::image::AssemblyImage;
use assembly_name::Version;
use metadata_tables::{CodedIndex, Column, TABLE_COUNT, column, table};

/// The most references in which a reference to a type may stand.
const MOST_SCOPES: u32 = 16;

/// How many rows' numbers a token has room for.
const TOKEN_ROWS: u32 = 0x100_0000;

impl AssemblyImage {
    /// The simple name of the assembly that a reference names. Empty where there is no such row.
    /// ECMA-335 II.22.5.
    pub fn reference_name(&self, n: u32) -> &str
        ensures { units_of result.now ≡ spec.reference_name (module_of self.now) n }
    {
        self.text(table::ASSEMBLY_REF, n, column::ASSEMBLY_REF_NAME)
    }

    /// The version that a reference to an assembly asks for. 0.0.0.0 where there is no such row.
    /// ECMA-335 II.22.5.
    pub fn reference_version(&self, n: u32) -> Version
        ensures { result ≡ spec.reference_version (module_of self.now) n }
    {
        let major = self.word(table::ASSEMBLY_REF, n, column::ASSEMBLY_REF_MAJOR);
        let minor = self.word(table::ASSEMBLY_REF, n, column::ASSEMBLY_REF_MINOR);
        let build = self.word(table::ASSEMBLY_REF, n, column::ASSEMBLY_REF_BUILD);
        let revision = self.word(table::ASSEMBLY_REF, n, column::ASSEMBLY_REF_REVISION);
        Version {
            major,
            minor,
            build,
            revision,
        }
    }

    /// The scope of a reference to a type: a table, and its row, or 0. `None` exactly where there is
    /// no such reference. ECMA-335 II.22.38.
    pub fn type_ref_scope(&self, n: u32) -> Option<(u8, u32)>
        ensures { result ≡ spec.type_ref_scope (module_of self.now) n }
    {
        if !self.has_row(table::TYPE_REF, n) {
            return None;
        }
        let scope = self.number(table::TYPE_REF, n, column::TYPE_REF_RESOLUTION_SCOPE);
        CodedIndex::ResolutionScope.target(scope)
    }

    /// The reference in which a reference to a type stands, where its scope is one. ECMA-335
    /// II.22.38.
    pub fn type_ref_outer(&self, n: u32) -> Option<u32>
        ensures { result ≡ spec.type_ref_outer (module_of self.now) n }
    {
        let (table, row) = self.type_ref_scope(n)?;
        if table == table::TYPE_REF && row > 0 {
            Some(row)
        } else {
            None
        }
    }

    /// The scope of the outermost of the references in which a reference to a type stands. `None`
    /// exactly where there is no such reference, or it stands in more than 16. ECMA-335 II.22.38.
    pub fn outermost_scope(&self, n: u32) -> Option<(u8, u32)>
        ensures { result ≡ spec.outermost_scope (module_of self.now) n }
    {
        let mut outermost = n;
        for _passed in 0..MOST_SCOPES {
            match self.type_ref_outer(outermost) {
                Some(outer) => outermost = outer,
                None => return self.type_ref_scope(outermost),
            }
        }
        if self.type_ref_outer(outermost).is_some() {
            return None;
        }
        self.type_ref_scope(outermost)
    }

    /// The table and the row that a token names: its highest byte, and the three others. `None`
    /// exactly where there is no such row. ECMA-335 II.22, III.1.9.
    pub fn token(&self, token: u32) -> Option<(u8, u32)>
        ensures { result ≡ spec.token_row (module_of self.now) token }
    {
        let table = (token / TOKEN_ROWS) as u8;
        let n = token % TOKEN_ROWS;
        if usize::from(table) >= TABLE_COUNT || !self.has_row(table, n) {
            return None;
        }
        Some((table, n))
    }

    /// The number in a column of two bytes.
    pub(crate) fn word(&self, table: u8, n: u32, k: usize) -> u16
        requires { column_of table k ≡ Column.U16 }
        ensures { result ≡ held.number (module_of self.now) table n k }
    {
        self.number(table, n, k) as u16
    }
}
