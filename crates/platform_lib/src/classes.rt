//! The types of the platform by their names.
ghost use Rattle.std.specs.Prelude.{◌≡◌, ◌<◌, ◌++◌, codes, length, position, IfSome};
ghost use Rattle.std.specs.Prelude.{option_map, option_and_then};
ghost use Rattle.std.specs.List.{find};
ghost use Rattle.std.specs.Str.{bytes_eq};
ghost use Rattle.platform_lib.specs.Rows.{letters};
ghost use Rattle.platform_lib.specs.Types.{nth, is_named, type_row, prim_named, parent};

use crate::names::{Name, letters};
use cli_words::Units;
use signatures::Prim;

/// Each type's name, and the row of its parent, in the order of the rows, which count from 1.
const TYPES: [(Name, Option<u32>); 12] = [
    (Name::Object, None),
    (Name::String, Some(1)),
    (Name::Console, Some(1)),
    (Name::Exception, Some(1)),
    (Name::SystemException, Some(4)),
    (Name::ArithmeticException, Some(5)),
    (Name::OverflowException, Some(6)),
    (Name::DivideByZeroException, Some(6)),
    (Name::NullReferenceException, Some(5)),
    (Name::IndexOutOfRangeException, Some(5)),
    (Name::InvalidCastException, Some(5)),
    (Name::ArrayTypeMismatchException, Some(5)),
];

/// The names that are found as primitives.
const PRIMITIVES: [(Name, Prim); 12] = [
    (Name::Boolean, Prim::Bool),
    (Name::Char, Prim::Char),
    (Name::SByte, Prim::Int8),
    (Name::Byte, Prim::UInt8),
    (Name::Int16, Prim::Int16),
    (Name::UInt16, Prim::UInt16),
    (Name::Int32, Prim::Int32),
    (Name::UInt32, Prim::UInt32),
    (Name::Int64, Prim::Int64),
    (Name::UInt64, Prim::UInt64),
    (Name::IntPtr, Prim::Native),
    (Name::UIntPtr, Prim::UNative),
];

/// The row, from 1, of the type of a full name; `None` exactly where there is no such type. The
/// primitives of `prim` are no rows.
pub fn type_row(full: &Units) -> Option<u32>
    ensures { result ≡ type_row full.now }
{
    match place_of(&TYPES, full) {
        Some(place) => Some(place as u32 + 1),
        None => None,
    }
}

fn place_of(rows: &[(Name, Option<u32>)], full: &Units) -> Option<usize>
    ensures place { result ≡ position (λ row. is_named full.now (letters row.0)) rows.now }
    ensures within { IfSome result (λ place. place < length rows.now) }
{
    rows.iter().position(|row| is_named(full, row.0))
}

/// The primitive of a full name; `None` exactly where it is none of the twelve.
pub fn prim(full: &Units) -> Option<Prim>
    ensures { result ≡ prim_named full.now }
{
    prim_in(&PRIMITIVES, full)
}

fn prim_in(rows: &[(Name, Prim)], full: &Units) -> Option<Prim>
    ensures { result ≡ option_map (λ row. row.1)
        (find (λ row. is_named full.now (letters row.0)) rows.now) }
{
    rows.iter()
        .find(|row| is_named(full, row.0))
        .map(|row| row.1)
}

/// The row of the parent of a type; `None` exactly for System.Object and for what is no row.
pub fn parent(row: u32) -> Option<u32>
    ensures { result ≡ parent row }
{
    parent_in(&TYPES, row)
}

fn parent_in(rows: &[(Name, Option<u32>)], row: u32) -> Option<u32>
    ensures { result ≡ option_and_then (λ type. type.1) (nth rows.now row) }
{
    if row == 0 || row as usize > rows.len() {
        return None;
    }
    rows[row as usize - 1].1
}

/// The full name is that of the type of this name.
fn is_named(full: &Units, name: Name) -> bool
    ensures { result ≡ is_named full.now (letters name) }
{
    let units = full.units();
    if units.len() < 7 {
        return false;
    }
    let (namespace, rest) = units.split_at(7);
    is_spelled(namespace, b"System.") && is_spelled(rest, letters(name))
}

/// The units are these letters.
pub(crate) fn is_spelled(units: &[u16], letters: &[u8]) -> bool
    ensures { result ≡ bytes_eq units.now letters.now }
{
    if units.len() != letters.len() {
        return false;
    }
    for i in 0..units.len() {
        if units[i] != u16::from(letters[i]) {
            return false;
        }
    }
    true
}
