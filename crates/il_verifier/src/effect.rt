//! What an instruction takes off the stack and what it gives.
ghost use Rattle.std.specs.Prelude.{◌≡◌, [], ◌∷◌, IfOk};
ghost use Rattle.il_verifier.specs.Lines.{does, two_agree};

use crate::kind::Width;
use cli_words::Listed;
use il_flow::StackType;
use signatures::TypeKey;
use std::alloc::{AllocError, Global};

/// Which arrays an instruction takes, by their elements.
#[derive(Drop)]
pub(crate) enum Elements {
    /// Of any type.
    Any,
    /// Numbers of a width.
    Numbers(Width),
    References,
    /// The type, or a reference type that is assignable to it.
    ReadAs(TypeKey),
    /// The type, or a reference type to which it is assignable.
    WrittenAs(TypeKey),
}

/// What one operand has to be.
#[derive(Drop)]
pub(crate) enum Want {
    Anything,
    /// Assignable to a place of this type.
    Into(StackType),
    Numeric,
    /// An index, a length or a count of bits.
    Size,
    Int32,
    /// Null or a reference.
    Reference,
    /// Null or such an array.
    ArrayOf(Elements),
}

/// What the operands have to be.
#[derive(Drop)]
pub(crate) enum Operands {
    /// Each of them, the lowest first.
    Each(Listed<Want>),
    /// Two numbers that go together or, where it says so, two references.
    Agreeing(bool),
    /// At a return: nothing else on the stack than what the method gives back.
    Returned(Option<StackType>),
}

/// What an instruction gives.
#[derive(Drop)]
pub(crate) enum Gift {
    /// A value of this type.
    Is(StackType),
    /// Its lowest operand once more.
    Again,
    /// The number that two numbers make.
    Sum,
    /// Its lowest operand, where that is a number; else a number of 32 bits.
    Same,
    /// The element of an array of references: null of null, and System.Object of what is none.
    Element,
}

/// What an instruction does to the stack.
#[derive(Drop)]
pub(crate) struct Effect {
    pub(crate) operands: Operands,
    pub(crate) gives: Listed<Gift>,
}

impl Effect {
    fn does(wants: Vec<Want>, gives: Vec<Gift>) -> Effect
        ensures { result ≡ does wants.items gives.items }
    {
        Effect {
            operands: Operands::Each(Listed::of(wants)),
            gives: Listed::of(gives),
        }
    }

    /// Takes nothing and gives nothing.
    pub(crate) fn nothing(alloc: Global) -> Effect
        ensures { result ≡ does [] [] }
    {
        Effect::does(Vec::new(alloc), Vec::new(alloc))
    }

    /// Takes one operand and gives nothing.
    pub(crate) fn takes(alloc: Global, want: Want) -> Result<Effect, AllocError>
        ensures { IfOk result (λ effect. effect ≡ does (want ∷ []) []) }
    {
        Ok(Effect::does(vec![in alloc; want]?, Vec::new(alloc)))
    }

    /// Gives a value of a type.
    pub(crate) fn gives(alloc: Global, given: StackType) -> Result<Effect, AllocError>
        ensures { IfOk result (λ effect. effect ≡ does [] (Gift.Is given ∷ [])) }
    {
        Ok(Effect::does(Vec::new(alloc), vec![in alloc; Gift::Is(given)]?))
    }

    /// Takes operands and gives one value.
    pub(crate) fn turns(alloc: Global, wants: Vec<Want>, gift: Gift) -> Result<Effect, AllocError>
        ensures { IfOk result (λ effect. effect ≡ does wants.items (gift ∷ [])) }
    {
        Ok(Effect::does(wants, vec![in alloc; gift]?))
    }

    /// Takes operands and gives nothing.
    pub(crate) fn stores(alloc: Global, wants: Vec<Want>) -> Effect
        ensures { result ≡ does wants.items [] }
    {
        Effect::does(wants, Vec::new(alloc))
    }

    /// Takes a value and gives it twice.
    pub(crate) fn doubles(alloc: Global) -> Result<Effect, AllocError>
        ensures { IfOk result (λ effect.
            effect ≡ does (Want.Anything ∷ []) (Gift.Again ∷ Gift.Again ∷ [])) }
    {
        let wants = vec![in alloc; Want::Anything]?;
        Ok(Effect::does(wants, vec![in alloc; Gift::Again, Gift::Again]?))
    }

    /// Takes two numbers that go together or, where it says so, two references, and gives nothing.
    pub(crate) fn compares(alloc: Global, references: bool) -> Effect
        ensures { result ≡ two_agree references [] }
    {
        Effect {
            operands: Operands::Agreeing(references),
            gives: Listed::of(Vec::new(alloc)),
        }
    }

    /// The same, and gives a value.
    pub(crate) fn joins(alloc: Global, references: bool, gift: Gift) -> Result<Effect, AllocError>
        ensures { IfOk result (λ effect. effect ≡ two_agree references (gift ∷ [])) }
    {
        Ok(Effect {
            operands: Operands::Agreeing(references),
            gives: Listed::of(vec![in alloc; gift]?),
        })
    }

    /// Ends the method with what it gives back.
    pub(crate) fn returns(alloc: Global, given: Option<StackType>) -> Effect
        ensures { result ≡ record { operands = Operands.Returned given; gives = [] } }
    {
        Effect {
            operands: Operands::Returned(given),
            gives: Listed::of(Vec::new(alloc)),
        }
    }
}
