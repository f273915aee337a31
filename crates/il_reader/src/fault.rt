//! Why code is refused.
use thiserror::Error;

/// Why there is no body, no instruction or no list of instructions.
#[derive(Clone, Copy, PartialEq, Eq, Debug, Error)]
pub enum IlFault {
    /// None stands whole at byte `at`.
    #[error("no body or instruction at byte {at}")]
    Bad { at: usize },
    /// Memory was wanting.
    #[error("out of memory")]
    OutOfMemory,
}
