//! Laws over the definitions of typings and faults. Each clause states one, and the calls do
//! nothing.
ghost use Rattle.std.specs.Prelude.{◌≡◌, ℕ, List, Option};
ghost use Rattle.il_flow.specs.Families.{Family, IsFamily};
ghost use Rattle.il_verifier.specs.declared.facts.BodyFacts.{BodyFacts};
ghost use Rattle.il_verifier.specs.declared.line.Line.{Line};
ghost use Rattle.il_verifier.specs.Laws.{Rises, OneLeast, OneVerdict, IsTop, KeptIsSound};

use il_flow::{merging_is_least, no_array_is_above, object_is_above_all};
use il_reader::boundaries_are_one_list;

/// What an instruction leaves on the stack rises with what it finds there.
pub fn stacks_rise()
    ensures { (family : Family) → IsFamily family → Rises family }
{
    merging_is_least();
    no_array_is_above();
    object_is_above_all();
}

/// A body has no more than one least typing.
pub fn typings_are_least()
    ensures { (family : Family) → IsFamily family → (max : ℕ) (lines : List (Option Line)) →
        OneLeast family max lines }
{
    merging_is_least()
}

/// A method that is checked has no fault, and no method has two.
pub fn verdicts_are_one()
    ensures { (family : Family) → IsFamily family → (facts : BodyFacts) → OneVerdict family facts }
{
    boundaries_are_one_list();
    typings_are_least();
}

/// A typing that is closed and keeps each rule shows that a method has no fault, where nothing is
/// told above System.Object.
pub fn kept_typings_are_sound()
    ensures { (family : Family) → IsFamily family → IsTop family → (facts : BodyFacts) →
        KeptIsSound family facts }
{
    boundaries_are_one_list();
    no_array_is_above();
}
