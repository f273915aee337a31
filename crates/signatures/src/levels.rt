//! How deep keys are.
ghost use Rattle.std.specs.Prelude.{◌≡◌, ◌+◌, ◌<◌, ◌≤◌, ◌^◌, drop, length, IfOk};
ghost use Rattle.signatures.specs.Keys.{greatest, levels_of};

use crate::key::KeyPart;
use std::alloc::{AllocError, Global};

/// The levels of the deepest of the types that the parts spell.
pub(crate) fn levels(alloc: Global, parts: &[KeyPart]) -> Result<usize, AllocError>
    ensures { IfOk result (λ levels. levels ≡ greatest (levels_of parts.now)) }
{
    // of the types that begin at part `at` and after it, the first last
    let mut levels: Vec<usize> = Vec::new(alloc);
    let mut at = parts.len();
    while at > 0 {
        at -= 1;
        let others = levels.len().saturating_sub(parts[at].arity() as usize);
        let level = level_over(&levels, others);
        levels.truncate(others);
        levels.push(level)?;
    }
    Ok(greatest(&levels))
}

/// The levels of a type that is made of those types whose levels stand from a place on.
#[tactic(auto, using(std::proofs::lemmas::List::take_rest))]
fn level_over(levels: &[usize], from: usize) -> usize
    requires within { from ≤ length levels.now }
    requires short { greatest (drop from levels.now) + 1 < 2 ^ 64 }
    ensures { result ≡ greatest (drop from levels.now) + 1 }
{
    greatest(&levels[from..]) + 1
}

fn greatest(levels: &[usize]) -> usize
    ensures { result ≡ greatest levels.now }
{
    let mut most = 0;
    for level in levels {
        most = most.max(*level);
    }
    most
}
