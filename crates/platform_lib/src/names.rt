//! The names of the platform's types and methods.
ghost use Rattle.std.specs.Prelude.{◌≡◌};
ghost use Rattle.platform_lib.specs.Rows.{letters};

/// A name of a type or of a method.
#[derive(Clone, Copy)]
pub(crate) enum Name {
    Object,
    String,
    Console,
    Exception,
    SystemException,
    ArithmeticException,
    OverflowException,
    DivideByZeroException,
    NullReferenceException,
    IndexOutOfRangeException,
    InvalidCastException,
    ArrayTypeMismatchException,
    Boolean,
    Char,
    SByte,
    Byte,
    Int16,
    UInt16,
    Int32,
    UInt32,
    Int64,
    UInt64,
    IntPtr,
    UIntPtr,
    Ctor,
    Concat,
    GetLength,
    GetChars,
    OpEquality,
    WriteLine,
}

/// The letters of a name.
pub(crate) fn letters(name: Name) -> &'static [u8]
    ensures { result.now ≡ letters name }
{
    match name {
        Name::Object => b"Object",
        Name::String => b"String",
        Name::Console => b"Console",
        Name::Exception => b"Exception",
        Name::SystemException => b"SystemException",
        Name::ArithmeticException => b"ArithmeticException",
        Name::OverflowException => b"OverflowException",
        Name::DivideByZeroException => b"DivideByZeroException",
        Name::NullReferenceException => b"NullReferenceException",
        Name::IndexOutOfRangeException => b"IndexOutOfRangeException",
        Name::InvalidCastException => b"InvalidCastException",
        Name::ArrayTypeMismatchException => b"ArrayTypeMismatchException",
        Name::Boolean => b"Boolean",
        Name::Char => b"Char",
        Name::SByte => b"SByte",
        Name::Byte => b"Byte",
        Name::Int16 => b"Int16",
        Name::UInt16 => b"UInt16",
        Name::Int32 => b"Int32",
        Name::UInt32 => b"UInt32",
        Name::Int64 => b"Int64",
        Name::UInt64 => b"UInt64",
        Name::IntPtr => b"IntPtr",
        Name::UIntPtr => b"UIntPtr",
        Name::Ctor => b".ctor",
        Name::Concat => b"Concat",
        Name::GetLength => b"get_Length",
        Name::GetChars => b"get_Chars",
        Name::OpEquality => b"op_Equality",
        Name::WriteLine => b"WriteLine",
    }
}
