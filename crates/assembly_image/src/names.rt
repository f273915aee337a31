//! The names of types, and types that are found by name.
ghost use Rattle.std.specs.Prelude.{◌≡◌, ◌≢◌, ℕ, List, [], ◌∷◌, ◌++◌, MatchOption, IfOk};
ghost use Rattle.std.specs.Str.{bytes_eq};
ghost use Rattle.cli_words.specs.Text.{units_of};
ghost use Rattle.assembly_image.specs.Module as held;
ghost use Rattle.assembly_image.specs.Names as spec;
ghost use Rattle.assembly_image.specs.Reading.{module_of};

use crate::image::AssemblyImage;
use cli_words::Units;
use metadata_tables::{column, table};
use std::alloc::{AllocError, Global};

/// How many enclosers a full name has at most.
const MOST_ENCLOSERS: u32 = 16;

const DOT: u16 = 0x2E;

const SLASH: u16 = 0x2F;

/// What has a full name: a type, or a reference to one.
#[derive(Clone, Copy)]
pub(crate) enum Named {
    TypeDef,
    TypeRef,
}

impl AssemblyImage {
    /// The first row, counted from 1, of a type of this full name: its namespace, a dot and its
    /// name, or its name alone where its namespace is empty; of an enclosed type that of its
    /// encloser, a slash and its name, with at most 16 enclosers. Names are compared unit by unit.
    /// `None` exactly where there is no such type. ECMA-335 II.22.37, II.22.32.
    pub fn find_type(&self, full: &Units) -> Option<u32>
        ensures { result ≡ spec.type_of_name (module_of self.now) full.now }
    {
        for n in 0..self.types() {
            if self.has_full_name(n + 1, full.units()) {
                return Some(n + 1);
            }
        }
        None
    }

    /// The full name of a type, with at most 16 enclosers. ECMA-335 II.22.37, II.22.32.
    pub fn full_name(&self, alloc: Global, row: u32) -> Result<Units, AllocError>
        ensures { IfOk result (λ name. name ≡ spec.full_name (module_of self.now) row) }
    {
        let mut units = Vec::new(alloc);
        self.push_name(&mut units, Named::TypeDef, MOST_ENCLOSERS, row)?;
        Units::of(alloc, units)
    }

    /// The full name of the type that a reference names, with at most 16 of the references in which
    /// it stands. ECMA-335 II.22.38.
    pub fn type_ref_full_name(&self, alloc: Global, n: u32) -> Result<Units, AllocError>
        ensures { IfOk result (λ name. name ≡ spec.type_ref_full_name (module_of self.now) n) }
    {
        let mut units = Vec::new(alloc);
        self.push_name(&mut units, Named::TypeRef, MOST_ENCLOSERS, n)?;
        Units::of(alloc, units)
    }

    /// Pushes the full name of what stands in at most so many others of its kind.
    fn push_name(
        &self,
        units: &mut Vec<u16>,
        kind: Named,
        most: u32,
        row: u32,
    ) -> Result<(), AllocError>
        ensures { IfOk result (λ _. units.new.items
            ≡ units.old.items ++ spec.name_within (module_of self.now) kind most row) }
    {
        match self.outer_of(kind, row) {
            Some(outer) if most > 0 => {
                self.push_name(units, kind, most - 1, outer)?;
                units.push(SLASH)?;
                push_text(units, self.name_of(kind, row))
            }
            _ => self.push_qualified(units, kind, row),
        }
    }

    /// Pushes the namespace, a dot and the name, or the name alone where the namespace is empty.
    fn push_qualified(&self, units: &mut Vec<u16>, kind: Named, row: u32) -> Result<(), AllocError>
        ensures { let m = module_of self.now in IfOk result (λ _. units.new.items
            ≡ units.old.items ++ spec.qualified (spec.namespace_of m kind row) (spec.name_of m kind row)) }
    {
        let namespace = self.namespace_of(kind, row);
        if namespace.is_empty() {
            return push_text(units, self.name_of(kind, row));
        }
        push_text(units, namespace)?;
        units.push(DOT)?;
        push_text(units, self.name_of(kind, row))
    }

    fn outer_of(&self, kind: Named, row: u32) -> Option<u32>
        ensures { result ≡ spec.outer_of (module_of self.now) kind row }
    {
        match kind {
            Named::TypeDef => self.encloser(row),
            Named::TypeRef => self.type_ref_outer(row),
        }
    }

    fn namespace_of(&self, kind: Named, row: u32) -> &str
        ensures { units_of result.now ≡ spec.namespace_of (module_of self.now) kind row }
    {
        match kind {
            Named::TypeDef => self.text(table::TYPE_DEF, row, column::TYPE_DEF_NAMESPACE),
            Named::TypeRef => self.text(table::TYPE_REF, row, column::TYPE_REF_NAMESPACE),
        }
    }

    fn name_of(&self, kind: Named, row: u32) -> &str
        ensures { units_of result.now ≡ spec.name_of (module_of self.now) kind row }
    {
        match kind {
            Named::TypeDef => self.text(table::TYPE_DEF, row, column::TYPE_DEF_NAME),
            Named::TypeRef => self.text(table::TYPE_REF, row, column::TYPE_REF_NAME),
        }
    }

    /// Whether the units are the full name of a type. They are looked at from their end, since the
    /// name of the innermost type is the last.
    fn has_full_name(&self, row: u32, full: &[u16]) -> bool
        ensures { result ≡ bytes_eq (spec.full_name (module_of self.now) row) full.now }
    {
        let (mut row, mut units) = (row, full);
        for _named in 0..MOST_ENCLOSERS {
            let Some(outer) = self.encloser(row) else {
                return self.has_qualified_name(row, units);
            };
            let Some(before) = strip_text(
                units,
                self.text(table::TYPE_DEF, row, column::TYPE_DEF_NAME),
            ) else {
                return false;
            };
            let Some(rest) = strip_unit(before, SLASH) else {
                return false;
            };
            (row, units) = (outer, rest);
        }
        self.has_qualified_name(row, units)
    }

    /// Whether the units are the namespace of a type, a dot and its name, or its name alone where
    /// the namespace is empty.
    fn has_qualified_name(&self, row: u32, units: &[u16]) -> bool
        ensures { let m = module_of self.now in
            result ≡ bytes_eq (spec.qualified (spec.type_namespace m row) (spec.type_name m row))
            units.now }
    {
        let Some(before) = strip_text(
            units,
            self.text(table::TYPE_DEF, row, column::TYPE_DEF_NAME),
        ) else {
            return false;
        };
        let namespace = self.text(table::TYPE_DEF, row, column::TYPE_DEF_NAMESPACE);
        if namespace.is_empty() {
            return before.is_empty();
        }
        match strip_unit(before, DOT) {
            Some(rest) => spells(rest, namespace),
            None => false,
        }
    }
}

fn push_text(units: &mut Vec<u16>, text: &str) -> Result<(), AllocError>
    ensures { IfOk result (λ _. units.new.items ≡ units.old.items ++ units_of text.now) }
{
    for character in text.chars() {
        units.extend_from_slice(character.encode_utf16(&mut [0; 2]))?;
    }
    Ok(())
}

/// Whether the units are those of a text.
pub(crate) fn spells(units: &[u16], text: &str) -> bool
    ensures { result ≡ bytes_eq (units_of text.now) units.now }
{
    match strip_text(units, text) {
        Some(rest) => rest.is_empty(),
        None => false,
    }
}

/// What stands before the units of a text, where the units end with these.
fn strip_text<'a>(units: &'a [u16], text: &str) -> Option<&'a [u16]>
    ensures { MatchOption result
        ((front : List ℕ) → units.now ≢ front ++ units_of text.now)
        (λ front. units.now ≡ front.now ++ units_of text.now) }
{
    let mut rest = units;
    for character in text.chars().rev() {
        rest = rest.strip_suffix(character.encode_utf16(&mut [0; 2]))?;
    }
    Some(rest)
}

/// What stands before a unit, where the units end with it.
fn strip_unit(units: &[u16], unit: u16) -> Option<&[u16]>
    ensures { MatchOption result
        ((front : List ℕ) → units.now ≢ front ++ unit ∷ [])
        (λ front. units.now ≡ front.now ++ unit ∷ []) }
{
    units.strip_suffix(&[unit])
}
