//! Laws over the places where instructions begin. Each clause states one, and the calls do nothing.
ghost use Rattle.std.specs.Prelude.{◌≡◌, ◌⊎◌, ◌<◌, ◌≤◌, ◌+◌, ℕ, List, length, slice_index, EachIndex, Some};
ghost use Rattle.cli_words.specs.declared.span.Span.{Span};
ghost use Rattle.il_reader.specs.declared.instruction.Instr.{Instr};
ghost use Rattle.il_reader.specs.declared.instruction.Operand.TheVariants.{Switch};
ghost use Rattle.il_reader.specs.Instructions.{instruction_at};
ghost use Rattle.il_reader.specs.Offsets.{AreBoundaries, IsBroken};

/// A code that has boundaries has no break.
pub fn not_broken()
    ensures { (code places : List ℕ) (at : ℕ) → AreBoundaries code places → ¬ IsBroken code at }
{}

/// A code has boundaries, or it has a break.
pub fn boundaries_or_break()
    ensures { (code : List ℕ) → ((places : List ℕ) × AreBoundaries code places)
        ⊎ ((at : ℕ) × IsBroken code at) }
{}

/// A code has at most one break.
pub fn one_break()
    ensures { (code : List ℕ) (at other : ℕ) →
        IsBroken code at → IsBroken code other → at ≡ other }
{}

/// The boundaries of a code are one list.
pub fn boundaries_are_one_list()
    ensures { (code places others : List ℕ) →
        AreBoundaries code places → AreBoundaries code others → places ≡ others }
{}

/// The instructions of a code that has boundaries begin before its end.
pub fn boundaries_lie_in_the_code()
    ensures { (code places : List ℕ) → AreBoundaries code places →
        EachIndex places (λ k. slice_index places k < length code) }
{}

/// The distances of a switch stand whole in the code.
pub fn distances_lie_in_the_code()
    ensures { (code : List ℕ) (at : ℕ) (found : Instr × ℕ) → instruction_at code at ≡ Some found →
        (span : Span) → found.0.operand ≡ Switch span → span.at + span.len ≤ length code }
{}
