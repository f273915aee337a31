ghost use Rattle.std.specs.Prelude.{◌≡◌, Some};
ghost use Rattle.alc_program.specs.Status.{exit_status, status_line, unread_status};

use host_script::LineCause;
use std::fmt;
use std::io::ErrorKind;

/// What a call of the program came to.
#[derive(Clone, Copy, PartialEq, Eq)]
pub enum Status {
    /// The whole output was written.
    Done,
    /// The words ask for nothing that the program does.
    Usage,
    /// The script can't be run: the line, counted from 1, and the cause. Line 0 is the file as a
    /// whole.
    Script { line: u32, cause: LineCause },
    /// A read failed: the files' count of faults rose, or stands at its last value. Nothing was
    /// written.
    ReadFault,
    /// A write failed: the sink's count of faults rose, or stands at its last value. A proper
    /// prefix of the output, which may be empty, was written.
    WriteFault,
    /// Memory ran out. Nothing was written.
    OutOfMemory,
}

impl Status {
    /// What an error comes to that the system gave in place of the words: words that are no text
    /// ask for nothing.
    pub fn of_unread_words(error: ErrorKind) -> Status
        ensures { result ≡ unread_status error }
    {
        match error {
            ErrorKind::OutOfMemory => Status::OutOfMemory,
            _ => Status::Usage,
        }
    }

    /// The exit status of the program.
    pub fn exit(self) -> u8
        ensures { result ≡ exit_status self }
    {
        match self {
            Status::Done => 0,
            Status::Usage => 1,
            Status::Script { .. } => 2,
            Status::ReadFault => 3,
            Status::WriteFault => 4,
            Status::OutOfMemory => 5,
        }
    }
}

/// The line that the program prints on standard error, without its line feed: nothing where all is
/// done.
impl fmt::Display for Status {
    ghost output = { λ status. Some (status_line status) };

    fn fmt<W: fmt::Write>(&self, f: &mut fmt::Formatter<W>) -> fmt::Result {
        match self {
            Status::Done => Ok(()),
            Status::Usage => write!(f, "usage: alc steps F N | inspect F"),
            Status::Script { line, cause } => write!(f, "script: line {line}: {cause}"),
            Status::ReadFault => write!(f, "read fault"),
            Status::WriteFault => write!(f, "write fault"),
            Status::OutOfMemory => write!(f, "out of memory"),
        }
    }
}
