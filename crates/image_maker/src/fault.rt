//! Why a module is not made into an image.
use thiserror::Error;

/// Why there is no image of a module.
#[derive(Clone, Copy, PartialEq, Eq, Debug, Error)]
pub enum MakeFault {
    /// The module passes a limit. `what` is the least number of a table that has more than 65,534
    /// rows, else FE where a name has more than 1,023 bytes, else FF where the size is more than
    /// 4,194,304 bytes.
    #[error("the module passes limit {what}")]
    Limit { what: u8 },
    /// Memory was wanting.
    #[error("out of memory")]
    OutOfMemory,
}
