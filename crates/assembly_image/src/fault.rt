//! Why bytes are no image.
use cli_words::FailedCheck;
use thiserror::Error;

/// Why there is no image.
#[derive(Clone, Copy, PartialEq, Eq, Debug, Error)]
pub enum ImageFault {
    /// The first check that the bytes fail, and the byte of which it speaks. They are tried in this
    /// order:
    /// - those of the headers of the file, as `read_pe` lists them.
    /// - those of the root of the metadata, as `read_root` lists them.
    /// - those of the stream of the tables, as `read_tables` lists them.
    /// - `Index`: an index is not in its heap, a blob is not whole, a row is neither one of its
    ///   table's nor 0, or a tag is not in use, at the column.
    /// - `List`: a list begins at 0, past the row after the last, or before the list of the row
    ///   before, at the column.
    /// - `Text`: a string has no zero, more than 1,023 bytes before it, or is not UTF-8, at the
    ///   column.
    /// - `NoAssembly`: there is not one Assembly row with a name, or no Module row or no TypeDef
    ///   row, at the stream of the tables.
    ///
    /// `Index`, `List` and `Text` are tried over the tables in rising order, in each over its rows,
    /// in each row over its columns from the left, and at one column in this order.
    #[error("{0}")]
    Bad(FailedCheck),
    /// Memory was wanting.
    #[error("out of memory")]
    OutOfMemory,
}

impl From<FailedCheck> for ImageFault {
    ghost use Rattle.std.specs.Prelude.{◌≡◌};
    ghost use Rattle.assembly_image.specs.declared.fault.ImageFault.TheVariants.{Bad};

    ghost from_gives = { λ failed fault. fault ≡ Bad failed };

    fn from(failed: FailedCheck) -> ImageFault {
        ImageFault::Bad(failed)
    }
}
