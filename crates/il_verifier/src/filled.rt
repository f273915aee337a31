//! Lists of so many places with nothing at them.
ghost use Rattle.std.specs.Prelude.{◌≡◌, replicate, None, IfOk};

use std::alloc::{AllocError, Global};

/// Nothing at each of so many places.
pub(crate) fn nothing_at<T: Drop>(alloc: Global, size: usize) -> Result<Vec<Option<T>>, AllocError>
    ensures { IfOk result (λ items. items.items ≡ replicate size None) }
{
    let mut items = Vec::new(alloc);
    for _ in 0..size {
        items.push(None)?;
    }
    Ok(items)
}
