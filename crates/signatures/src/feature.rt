//! What the profile leaves out.
ghost use Rattle.std.specs.Prelude.{◌≡◌, ◌↔◌, Some};
ghost use Rattle.std.specs.List.{find};
ghost use Rattle.std.specs.Str.{bytes_eq};
ghost use Rattle.signatures.specs.Features.{features, text};
ghost use Rattle.signatures.specs.declared.feature.Feature.{Feature};

/// A part of the standard that this host reads and does not run.
#[derive(Clone, Copy, PartialEq, Eq, Debug)]
pub enum Feature {
    /// Numbers with a fraction. ECMA-335 I.12.1.3.
    Float,
    /// Types whose values are no references. ECMA-335 II.13.
    ValueType,
    /// Pointers to data and to functions, and references to places. ECMA-335 II.14.4, II.14.5.
    Pointer,
    /// Arrays of more dimensions than one, or with bounds. ECMA-335 II.14.2.
    ArrayShape,
    /// Methods with type parameters. ECMA-335 II.9.3.
    GenericMethod,
    /// Methods with a variable count of arguments. ECMA-335 II.15.3.
    Varargs,
    /// Values as objects. ECMA-335 I.8.2.4.
    Box,
    /// Delegates. ECMA-335 II.14.6.
    Delegate,
    /// The instruction `jmp`. ECMA-335 III.3.37.
    Jump,
    /// Prefixes of instructions. ECMA-335 III.2.
    Prefix,
    /// Handles of types and members. ECMA-335 III.4.17.
    Handle,
    /// The size of a type. ECMA-335 III.4.25.
    Size,
    /// The instruction `break`. ECMA-335 III.3.16.
    Break,
    /// Filters of exceptions. ECMA-335 II.19.4.
    Filter,
    /// Clauses that handle exceptions. ECMA-335 II.25.4.6.
    ExceptionClause,
    /// Methods with no body in IL. ECMA-335 II.15.5.
    Native,
    /// Assemblies of several modules. ECMA-335 II.6.
    MultiModule,
    /// Type initialisers. ECMA-335 II.10.5.3.
    TypeInitialiser,
    /// Static fields of objects (own).
    ObjectStatic,
    /// An entry into a generic type (own).
    GenericEntry,
    /// What is not built yet (own).
    NotBuilt,
}

/// Each feature once.
const ALL: [Feature; 21] = [
    Feature::Float,
    Feature::ValueType,
    Feature::Pointer,
    Feature::ArrayShape,
    Feature::GenericMethod,
    Feature::Varargs,
    Feature::Box,
    Feature::Delegate,
    Feature::Jump,
    Feature::Prefix,
    Feature::Handle,
    Feature::Size,
    Feature::Break,
    Feature::Filter,
    Feature::ExceptionClause,
    Feature::Native,
    Feature::MultiModule,
    Feature::TypeInitialiser,
    Feature::ObjectStatic,
    Feature::GenericEntry,
    Feature::NotBuilt,
];

impl Feature {
    /// The name of the feature.
    pub fn text(self) -> &'static [u8]
        ensures { result.now ≡ text self }
    {
        match self {
            Feature::Float => b"float",
            Feature::ValueType => b"value-type",
            Feature::Pointer => b"pointer",
            Feature::ArrayShape => b"array-shape",
            Feature::GenericMethod => b"generic-method",
            Feature::Varargs => b"varargs",
            Feature::Box => b"box",
            Feature::Delegate => b"delegate",
            Feature::Jump => b"jump",
            Feature::Prefix => b"prefix",
            Feature::Handle => b"handle",
            Feature::Size => b"size",
            Feature::Break => b"break",
            Feature::Filter => b"filter",
            Feature::ExceptionClause => b"exception-clause",
            Feature::Native => b"native",
            Feature::MultiModule => b"multi-module",
            Feature::TypeInitialiser => b"type-initialiser",
            Feature::ObjectStatic => b"object-static",
            Feature::GenericEntry => b"generic-entry",
            Feature::NotBuilt => b"not-built",
        }
    }

    /// The feature of this name; `None` exactly where no feature has it.
    pub fn of_text(bytes: &[u8]) -> Option<Feature>
        ensures named { (feature : Feature) →
            (result ≡ Some feature) ↔ (text feature ≡ bytes.now) }
    {
        first_named(bytes)
    }
}

fn first_named(bytes: &[u8]) -> Option<Feature>
    ensures { result ≡ find (λ feature. bytes_eq (text feature) bytes.now) features }
{
    ALL.iter().copied().find(|feature| feature.text() == bytes)
}
