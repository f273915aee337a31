// Why a text was not read.
ghost use Rattle.std.specs.Prelude.{◌≡◌, IfErr, IfOk, Ok, Err};
ghost use Rattle.host_report.specs.declared.unread.Unread.TheVariants.{OutOfMemory};

use std::alloc::{AllocError, AllocFailed};

/// Why nothing was read.
#[derive(Drop)]
pub(crate) enum Unread {
    /// The text is none of the kind.
    Differs,
    /// Memory was wanting.
    OutOfMemory,
}

impl From<AllocError> for Unread {
    ghost from_gives = { λ _ e. e ≡ OutOfMemory };

    fn from(_error: AllocError) -> Unread {
        Unread::OutOfMemory
    }
}

impl<T: Drop> From<AllocFailed<T>> for Unread {
    ghost from_gives = { λ _ e. e ≡ OutOfMemory };

    fn from(_error: AllocFailed<T>) -> Unread {
        Unread::OutOfMemory
    }
}

/// Both values, if the second was read.
pub(crate) fn beside<A: Drop, B: Drop>(
    first: A,
    second: Result<B, Unread>,
) -> Result<(A, B), Unread>
    ensures read { IfOk result (λ both. (both.0 ≡ first) × (second ≡ Ok both.1)) }
    ensures unread { IfErr result (λ unread. second ≡ Err unread) }
{
    match second {
        Ok(second) => Ok((first, second)),
        Err(unread) => Err(unread),
    }
}
