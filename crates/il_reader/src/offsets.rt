//! The places where the instructions of a code begin.
ghost use Rattle.std.specs.Prelude.{◌≡◌, List, ℕ, ◌-◌, ◌^◌, ◌<◌, length, IfOk, IfErr};
ghost use Rattle.il_reader.specs.Offsets.{AreBoundaries, HasFault};

use crate::fault::IlFault;
use crate::instruction::next;
use std::alloc::Global;

/// The places at which the instructions of a code begin, going on from byte 0, in their order.
/// `Bad` exactly where, going on so, a place before the code's end is come to at which no
/// instruction stands whole: it names that place. ECMA-335 III.1.2.
pub fn boundaries(alloc: Global, code: &[u8]) -> Result<Vec<u32>, IlFault>
    requires { length code.now < 2 ^ 32 - 1 }
    ensures places { IfOk result (λ places. AreBoundaries code.now places.items) }
    ensures only { IfOk result (λ places.
        (others : List ℕ) → AreBoundaries code.now others → others ≡ places.items) }
    ensures fault { IfErr result (HasFault code.now) }
{
    let mut places = Vec::new(alloc);
    let mut at = 0;
    while at < code.len() {
        let (_, end) = next(code, at)?;
        if places.push(at as u32).is_err() {
            return Err(IlFault::OutOfMemory);
        }
        at = end;
    }
    Ok(places)
}
