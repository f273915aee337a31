//! Why scripts are refused.
ghost use Rattle.std.specs.Prelude.{◌≡◌, Some};
ghost use Rattle.host_script.specs.Cause.{cause_name};

use std::fmt;
use thiserror::Error;

/// Why a script is refused at a line.
#[derive(Clone, Copy, Debug, PartialEq, Eq)]
pub enum LineCause {
    /// The line is not UTF-8.
    NotUtf8,
    /// A text does not end, is followed by another character, or has an escape that is none.
    BadText,
    /// The first word begins no line, or a word that is fixed is another one.
    UnknownWord,
    /// A line of the head stands after the first `thread`, or a command before it.
    Place,
    /// No line that begins with this word has so many words.
    Arity,
    /// A name or a path has another form.
    BadName,
    /// A version or an argument is none, or is out of range.
    BadNumber,
    /// No line above declares the image.
    NoImage,
    /// A line above declares the image, or lists it as an application.
    Twice,
    /// There are too many images, threads, commands or arguments.
    TooMany,
    /// No line is `thread`.
    NoThread,
    /// There is no such file.
    Absent,
    /// The file is longer than a script can be.
    TooLong,
    /// The program does not run the command yet. `read_script` never gives it.
    NotBuilt,
}

impl LineCause {
    fn name(self) -> &'static str
        ensures { result.now ≡ cause_name self }
    {
        match self {
            LineCause::NotUtf8 => "NotUtf8",
            LineCause::BadText => "BadText",
            LineCause::UnknownWord => "UnknownWord",
            LineCause::Place => "Place",
            LineCause::Arity => "Arity",
            LineCause::BadName => "BadName",
            LineCause::BadNumber => "BadNumber",
            LineCause::NoImage => "NoImage",
            LineCause::Twice => "Twice",
            LineCause::TooMany => "TooMany",
            LineCause::NoThread => "NoThread",
            LineCause::Absent => "Absent",
            LineCause::TooLong => "TooLong",
            LineCause::NotBuilt => "NotBuilt",
        }
    }
}

/// The name of the cause.
impl fmt::Display for LineCause {
    ghost output = { λ cause. Some (cause_name cause) };

    fn fmt<W: fmt::Write>(&self, f: &mut fmt::Formatter<W>) -> fmt::Result {
        f.write_str(self.name())
    }
}

/// Why there is no script.
#[derive(Debug, Drop, Error)]
pub enum ScriptFault {
    /// The line is counted from 1; at 0 the cause is that of the whole script.
    #[error("line {line}: {cause}")]
    At { line: u32, cause: LineCause },
    /// Memory was wanting.
    #[error("out of memory")]
    OutOfMemory,
}

/// Why a line or a word of it has no form.
#[derive(Drop)]
pub enum LineFault {
    Cause(LineCause),
    OutOfMemory,
}
