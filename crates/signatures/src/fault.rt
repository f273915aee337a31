//! Why there is no signature or no key.
ghost use Rattle.std.specs.Prelude.{◌≡◌};
ghost use Rattle.signatures.specs.declared.fault.ReadFault.TheVariants.{Stopped, OutOfMemory};

use crate::feature::Feature;
use std::alloc::{AllocError, AllocFailed};
use thiserror::Error;

/// Why a blob is no signature that the host takes.
#[derive(Clone, Copy, PartialEq, Eq, Debug, Error)]
pub enum SigFault {
    /// The blob has no reading. `at`, counted from the start of the bytes, is the first byte at
    /// which none goes on: where the blob is cut, the byte after it, and else where a reading ends
    /// early, the first byte left over.
    #[error("no signature at byte {at}")]
    Bad { at: usize },
    /// The first thing in the blob that is left out; what follows it is not looked at.
    #[error("the signature has a feature that is left out")]
    Feature { feature: Feature },
    /// Memory was wanting.
    #[error("out of memory")]
    OutOfMemory,
}

/// Why there is no key.
#[derive(Clone, Copy, PartialEq, Eq, Debug, Error)]
pub enum KeyFault {
    /// A type variable has no argument.
    #[error("no argument for a type variable")]
    Index,
    /// The key has more than 16 levels or more than 256 nodes.
    #[error("the type nests too deep")]
    Deep,
    /// Memory was wanting.
    #[error("out of memory")]
    OutOfMemory,
}

/// Where the reading of a blob stops, by the blob alone: contracts say with it what a blob is.
#[derive(Clone, Copy, PartialEq, Eq, Debug)]
pub enum Stop {
    /// No reading goes on at the byte from which this many bytes of the blob are left; with none
    /// left, the blob is cut.
    Bad { left: usize },
    /// The first thing that is left out.
    Feature { feature: Feature },
}

/// Why a blob was not read.
#[derive(Clone, Copy, PartialEq, Eq, Debug)]
pub(crate) enum ReadFault {
    Stopped(Stop),
    OutOfMemory,
}

impl From<Stop> for ReadFault {
    ghost from_gives = { λ stop fault. fault ≡ Stopped stop };

    fn from(stop: Stop) -> ReadFault {
        ReadFault::Stopped(stop)
    }
}

impl From<AllocError> for ReadFault {
    ghost from_gives = { λ _ fault. fault ≡ OutOfMemory };

    fn from(_e: AllocError) -> ReadFault {
        ReadFault::OutOfMemory
    }
}

impl<T: Drop> From<AllocFailed<T>> for ReadFault {
    ghost from_gives = { λ _ fault. fault ≡ OutOfMemory };

    fn from(_e: AllocFailed<T>) -> ReadFault {
        ReadFault::OutOfMemory
    }
}
