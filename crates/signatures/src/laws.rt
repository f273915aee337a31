//! Laws over the definitions of signatures and keys. Each clause states one, and the calls do
//! nothing.
ghost use Rattle.std.specs.Prelude.{◌≡◌, ◌↔◌, ℕ, List, IsTrue};
ghost use Rattle.std.specs.List.{AllByRecursion};
ghost use Rattle.signatures.specs.declared.key.KeyPart.{KeyPart};
ghost use Rattle.signatures.specs.SameKeys.{same_key};
ghost use Rattle.signatures.specs.declared.sig.SigPart.{SigPart};
ghost use Rattle.signatures.specs.Types.{AreMadeOf, arity};
ghost use Rattle.signatures.specs.Keys.{key_arity};
ghost use Rattle.signatures.specs.Signatures.{field_reading, method_reading, locals_reading};
ghost use Rattle.signatures.specs.Signatures.{type_reading};
ghost use Rattle.signatures.specs.Spelling.{SpellsField, SpellsMethod, SpellsLocals, SpellsType};
ghost use Rattle.signatures.specs.declared.sig.MethodSig.{MethodSig};
ghost use Rattle.signatures.specs.Laws.{ReadsAsSpelled, StopsAtFirst, OfTypes, OfMethods};
ghost use Rattle.signatures.specs.Laws.{AreNumbered, IsMethodNumbered};

/// A blob reads as a signature exactly where it spells it.
pub fn readings_are_spelled()
    ensures fields { ReadsAsSpelled SpellsField field_reading }
    ensures methods { ReadsAsSpelled SpellsMethod method_reading }
    ensures locals { ReadsAsSpelled SpellsLocals locals_reading }
    ensures types { ReadsAsSpelled SpellsType type_reading }
{}

/// Of what is spelled, each number has at most 29 bits, and that of a class the tag of a table.
pub fn spelled_numbers_are_small()
    ensures fields { (sig : List SigPart) (bytes : List ℕ) →
        SpellsField sig bytes → AreNumbered sig }
    ensures methods { (sig : MethodSig) (bytes : List ℕ) →
        SpellsMethod sig bytes → IsMethodNumbered sig }
    ensures locals { (sigs : List (List SigPart)) (bytes : List ℕ) →
        SpellsLocals sigs bytes → AllByRecursion AreNumbered sigs }
    ensures types { (sig : List SigPart) (bytes : List ℕ) →
        SpellsType sig bytes → AreNumbered sig }
{}

/// A blob that is not read is refused at the first byte that no signature could have there, or at
/// its end: some signature's bytes begin with all the bytes before that place, and no signature's
/// with these and the byte there. A feature that is told is what this byte means as the first one
/// of a type, or of a method's signature; the law does not say that a type can stand there.
pub fn readings_stop_at_first()
    ensures fields { StopsAtFirst OfTypes SpellsField field_reading }
    ensures methods { StopsAtFirst OfMethods SpellsMethod method_reading }
    ensures locals { StopsAtFirst OfTypes SpellsLocals locals_reading }
    ensures types { StopsAtFirst OfTypes SpellsType type_reading }
{}

/// Keys are equal by `==` exactly where they are the same.
pub fn equal_keys_are_same()
    ensures { (a b : List KeyPart) → IsTrue (same_key a b) ↔ (a ≡ b) }
{}

/// The keys that a key is made of are one list.
pub fn keys_made_of_are_one_list()
    ensures { (parts : List KeyPart) (a b : List (List KeyPart)) →
        AreMadeOf key_arity parts a → AreMadeOf key_arity parts b → a ≡ b }
{}

/// The types that a type of a signature is made of are one list.
pub fn sigs_made_of_are_one_list()
    ensures { (parts : List SigPart) (a b : List (List SigPart)) →
        AreMadeOf arity parts a → AreMadeOf arity parts b → a ≡ b }
{}
