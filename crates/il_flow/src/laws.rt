//! Laws over the definitions of merging and of what may go into a place. Each clause states one,
//! and the calls do nothing.
ghost use Rattle.std.specs.Prelude.{◌≡◌, ◌⊎◌, ◌<◌, ◌≤◌, List, None};
ghost use Rattle.signatures.specs.declared.key.KeyPart.{KeyPart};
ghost use Rattle.signatures.specs.Keys.{element_of};
ghost use Rattle.il_flow.specs.declared.stack.StackType.{StackType};
ghost use Rattle.il_flow.specs.Families.{Family, IsFamily, object, IsOnChain};
ghost use Rattle.il_flow.specs.Merging.{Held, joined, IsUnderType, IsUnder};
ghost use Rattle.il_flow.specs.Assigning.{IsAssignable};
ghost use Rattle.il_flow.specs.Ranks.{rank};

use signatures::equal_keys_are_same;

/// The order of merging is one, and what two types merge to is the least type above both.
pub fn merging_is_least()
    ensures reflexive { (family : Family) (a : Held) → IsUnder family a a }
    ensures transitive { (family : Family) (a b c : Held) →
        IsUnder family a b → IsUnder family b c → IsUnder family a c }
    ensures antisymmetric { (family : Family) → IsFamily family → (a b : Held) →
        IsUnder family a b → IsUnder family b a → a ≡ b }
    ensures above_both { (family : Family) (a b : Held) →
        IsUnder family a (joined family a b) × IsUnder family b (joined family a b) }
    ensures least { (family : Family) → IsFamily family → (a b c : Held) →
        IsUnder family a c → IsUnder family b c → IsUnder family (joined family a b) c }
{
    equal_keys_are_same()
}

/// System.Object is on the chain of every reference.
pub fn object_is_above_all()
    ensures { (family : Family) → IsFamily family → (key : List KeyPart) →
        IsOnChain family key object }
{
    equal_keys_are_same()
}

/// What stands above a type is no array.
pub fn no_array_is_above()
    ensures { (family : Family) → IsFamily family → (low high : List KeyPart) →
        IsOnChain family low high → (low ≡ high) ⊎ (element_of high ≡ None) }
{
    equal_keys_are_same()
}

/// A step up the order of merging lowers the rank, which is 67 at most.
pub fn rank_falls_upwards()
    ensures falls { (family : Family) → IsFamily family → (a b : Held) →
        IsUnder family a b → (a ≡ b) ⊎ (rank family b < rank family a) }
    ensures small { (family : Family) (a : Held) → rank family a ≤ 67 }
{
    equal_keys_are_same()
}

/// What may go into a place of a type may go into one of a type above it.
pub fn values_stay_assignable()
    ensures { (family : Family) (value a b : StackType) →
        IsAssignable family value a → IsUnderType family a b → IsAssignable family value b }
{
    equal_keys_are_same()
}
