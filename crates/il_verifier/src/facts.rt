//! What a check of a body knows of its method, and of the members and types that its tokens name.

ghost use Rattle.std.specs.Prelude.{◌≡◌, length};

use cli_words::Listed;
use signatures::TypeKey;

/// A method that a token names.
#[derive(Drop)]
pub struct MethodFacts {
    /// The type that has it.
    pub owner: TypeKey,
    /// Its row says that it is static.
    pub is_static: bool,
    /// Its signature is one of a method that is called on an object.
    pub has_this: bool,
    /// It is an instance constructor that gives nothing, of a class of which there can be objects.
    pub makes: bool,
    /// The types of its parameters, the object left out.
    pub params: Listed<TypeKey>,
    /// The type of what it gives back, where it gives something.
    pub result: Option<TypeKey>,
}

/// A field that a token names.
#[derive(Drop)]
pub struct FieldFacts {
    /// The type that has it.
    pub owner: TypeKey,
    /// Its row says that it is static.
    pub is_static: bool,
    /// That type is a class: an object has a place for the field.
    pub in_class: bool,
    /// The type of its values.
    pub holds: TypeKey,
}

/// What the token of an instruction names.
#[derive(Drop)]
pub enum Use {
    /// A text, or there is no token.
    Plain,
    /// A type.
    OfType(TypeKey),
    /// A field.
    OfField(FieldFacts),
    /// A method.
    OfMethod(MethodFacts),
}

/// A method, its body, and what its tokens name.
#[derive(Drop)]
pub struct BodyFacts {
    /// The bytes of its instructions.
    pub code: Listed<u8>,
    /// The most values that the stack may hold.
    pub max_stack: u16,
    /// The locals begin as zeros and nulls.
    pub init_locals: bool,
    /// The types of the arguments, the object first where the method is called on one.
    pub args: Listed<TypeKey>,
    /// The types of the locals.
    pub locals: Listed<TypeKey>,
    /// The type of what the method gives back, where it gives something.
    pub result: Option<TypeKey>,
    /// For each byte of the code what is named by the instruction that begins there; `Plain` where
    /// none begins.
    pub uses: Listed<Use>,
    pub ghost complete: { length uses ≡ length code },
}
