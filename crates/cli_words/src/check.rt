//! Checks of images.
ghost use Rattle.std.specs.Prelude.{◌≡◌, ◌^◌, ◌<◌, Some};
ghost use Rattle.cli_words.specs.Check.{name_of};

use std::fmt;
use thiserror::Error;

/// A check that a file fails, so that it is no image. ECMA-335 II.24, II.25; the choice of the
/// checks is this project's.
#[derive(Clone, Copy, PartialEq, Eq, Debug)]
pub enum CheckCode {
    /// The file ends within a structure that is read.
    Cut,
    /// The file does not begin with `MZ`.
    NoMz,
    /// No PE signature stands where the word at 3C says.
    NoPe,
    /// The magic number of the optional header is neither 10B nor 20B.
    Magic,
    /// The headers tell of no CLI header.
    NoCli,
    /// No section holds the CLI header, or the metadata.
    Outside,
    /// Not all code is IL.
    NotIlOnly,
    /// The metadata does not begin with its signature.
    RootSignature,
    /// A part of the metadata runs past what holds it.
    Bounds,
    /// A stream of the metadata is named `#-`.
    EditStream,
    /// The metadata has no stream `#~` that is long enough.
    NoTables,
    /// A table is one that is refused, or has too many rows.
    Table,
    /// An index of a row leads nowhere.
    Index,
    /// The lists of a table's rows do not follow one another.
    List,
    /// A string has no zero after it, is not UTF-8, or is too long.
    Text,
    /// The image is not that of one assembly with a name.
    NoAssembly,
    /// The file is too long.
    TooLong,
    /// There is no such file.
    Absent,
}

impl CheckCode {
    /// The name under which the check is printed.
    pub fn name(self) -> &'static str
        ensures { result.now ≡ name_of self }
    {
        match self {
            CheckCode::Cut => "cut",
            CheckCode::NoMz => "no-mz",
            CheckCode::NoPe => "no-pe",
            CheckCode::Magic => "magic",
            CheckCode::NoCli => "no-cli",
            CheckCode::Outside => "outside",
            CheckCode::NotIlOnly => "not-il-only",
            CheckCode::RootSignature => "root-signature",
            CheckCode::Bounds => "bounds",
            CheckCode::EditStream => "edit-stream",
            CheckCode::NoTables => "no-tables",
            CheckCode::Table => "table",
            CheckCode::Index => "index",
            CheckCode::List => "list",
            CheckCode::Text => "text",
            CheckCode::NoAssembly => "no-assembly",
            CheckCode::TooLong => "too-long",
            CheckCode::Absent => "absent",
        }
    }
}

impl fmt::Display for CheckCode {
    ghost output = { λ code. Some (name_of code) };

    fn fmt<W: fmt::Write>(&self, f: &mut fmt::Formatter<W>) -> fmt::Result {
        f.write_str(self.name())
    }
}

/// Why bytes are refused: the check that fails, and the byte of the file of which it speaks.
#[derive(Clone, Copy, PartialEq, Eq, Debug, Error)]
#[error("not an image: {code} at byte {at}")]
pub struct FailedCheck {
    pub code: CheckCode,
    pub at: u32,
}

impl FailedCheck {
    /// The check fails at a byte of a file that is shorter than 2^32 bytes.
    pub fn of(code: CheckCode, at: usize) -> FailedCheck
        requires { at < 2 ^ 32 }
        ensures { result ≡ record { code = code; at = at } }
    {
        FailedCheck {
            code,
            at: at as u32,
        }
    }
}
