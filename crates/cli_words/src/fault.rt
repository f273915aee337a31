//! Why a quotient is refused.
use thiserror::Error;

/// Why there is no quotient or no remainder. ECMA-335 III.3.31, III.3.55.
#[derive(Clone, Copy, PartialEq, Eq, Debug, Error)]
pub enum DivFault {
    /// The divisor is 0.
    #[error("division by zero")]
    Zero,
    /// The quotient fits no word: the least number by -1.
    #[error("the quotient is out of range")]
    Range,
}
