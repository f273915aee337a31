//! Modules that serve as samples.
ghost use Rattle.std.specs.Prelude.{◌≡◌, true, None, IfOk};
ghost use Rattle.image_maker.specs.Samples as samples;
ghost use Rattle.image_maker.specs.Plans.{module_by};
ghost use Rattle.image_maker.specs.Sound.{is_sound};
ghost use Rattle.image_maker.specs.Size.{limit_of};

use crate::module::Module;
use crate::plans::Cell::{Bytes, Number, Text};
use crate::plans::{Class, Field, Member, Method, Plan, Ref, Row, Stream, TypeRef};
use metadata_tables::table;
use std::alloc::{AllocError, Global};

/// The names of the samples.
#[derive(Clone, Copy, PartialEq, Eq, Debug)]
pub enum SampleName {
    Lib1,
    Lib2,
    Lib19,
    Use,
    Gen,
    Deep,
    Ops,
    Rel,
}

/// The module of a name.
pub fn sample(alloc: Global, which: SampleName) -> Result<Module, AllocError>
    ensures is { IfOk result (λ m. m ≡ samples.sample_of which) }
    ensures sound { IfOk result (λ m. is_sound m ≡ true) }
    ensures within { IfOk result (λ m. limit_of m ≡ None) }
{
    plan(which).module(alloc)
}

fn plan(which: SampleName) -> Plan
    ensures { module_by result ≡ samples.sample_of which }
{
    match which {
        SampleName::Lib1 => LIB1,
        SampleName::Lib2 => LIB2,
        SampleName::Lib19 => LIB19,
        SampleName::Use => USE,
        SampleName::Gen => GEN,
        SampleName::Deep => DEEP,
        SampleName::Ops => OPS,
        SampleName::Rel => REL,
    }
}

const FIRST: [u16; 4] = [1, 0, 0, 0];

const EIGHTH: [u16; 4] = [8, 0, 0, 0];

const RUNTIME: Ref = Ref("System.Runtime", EIGHTH);

/// The scope of what is in System.Runtime, a coded index, ResolutionScope.
const IN_RUNTIME: u32 = 6;

/// The scope of what is in the second reference.
const IN_SECOND: u32 = 10;

const SYSTEM_OBJECT: TypeRef = TypeRef(IN_RUNTIME, "System", "Object");

/// The type System.Object, a coded index, TypeDefOrRef.
const OBJECT: u32 = 5;

/// The second type of the module itself, a coded index, TypeDefOrRef.
const SECOND_TYPE: u32 = 8;

/// The type of all that stands in no type. ECMA-335 II.22.37.
const NOWHERE: Class = Class("", "<Module>", 0, &[], &[]);

// Signatures of methods: what is returned follows the count of parameters. ECMA-335 II.23.2.1.

const TO_NONE: &[u8] = b"\0\0\x01";

const TO_INT: &[u8] = b"\0\0\x08";

const TO_DOUBLE: &[u8] = b"\0\0\x0D";

const TO_FLOAT: &[u8] = b"\0\0\x0C";

const INT_TO_NONE: &[u8] = b"\0\x01\x01\x08";

const INT_TO_INT: &[u8] = b"\0\x01\x08\x08";

const INTS_TO_INT: &[u8] = b"\0\x02\x08\x08\x08";

const STRING_TO_NONE: &[u8] = b"\0\x01\x01\x0E";

/// The signature of a field that is an int32. ECMA-335 II.23.2.4.
const INT_FIELD: &[u8] = b"\x06\x08";

const GET_ONE: &[Method] = &[Method(0, "Get", TO_INT, b"\x0A\x17\x2A")];

/// A library with one method.
const LIB1: Plan = Plan {
    name: "Lib",
    version: FIRST,
    refs: &[RUNTIME],
    type_refs: &[SYSTEM_OBJECT],
    types: &[NOWHERE, Class("Lib", "C", OBJECT, &[], GET_ONE)],
    members: &[],
    specs: &[],
    user_strings: &[0],
    rows: &[],
    streams: &[],
};

const GET_TWO: &[Method] = &[Method(0, "Get", TO_INT, b"\x0A\x18\x2A")];

const LIB2: Plan = Plan {
    version: [2, 0, 0, 0],
    types: &[NOWHERE, Class("Lib", "C", OBJECT, &[], GET_TWO)],
    ..LIB1
};

const LIB19: Plan = Plan {
    version: [1, 9, 9, 9],
    ..LIB1
};

const USE_METHODS: &[Method] = &[Method(0, "Run", TO_INT, b"\x1A\x28\x01\0\0\x0A\x2A")];

/// What calls a method of another assembly.
const USE: Plan = Plan {
    name: "Use",
    refs: &[RUNTIME, Ref("Lib", FIRST)],
    type_refs: &[SYSTEM_OBJECT, TypeRef(IN_SECOND, "Lib", "C")],
    types: &[NOWHERE, Class("Use", "P", OBJECT, &[], USE_METHODS)],
    members: &[Member(17, "Get", TO_INT)],
    ..LIB1
};

const GEN_METHODS: &[Method] = &[Method(0, "Run", TO_INT, b"\x1A\x7E\x01\0\0\x0A\x2A")];

/// A generic type, and a method that reads a field of one of its instantiations.
const GEN: Plan = Plan {
    name: "Gen",
    types: &[
        NOWHERE,
        Class("Gen", "Pair`2", OBJECT, &[Field("n", INT_FIELD)], &[]),
        Class("Gen", "U", OBJECT, &[], GEN_METHODS),
    ],
    members: &[Member(12, "n", INT_FIELD)],
    specs: &[b"\x15\x12\x08\x02\x12\x0C\x12\x09"],
    rows: GEN_ROWS,
    ..USE
};

const GEN_ROWS: &[Row] = &[
    Row(
        table::GENERIC_PARAM,
        &[Number(0), Number(0), Number(4), Text("T")],
    ),
    Row(
        table::GENERIC_PARAM,
        &[Number(1), Number(0), Number(4), Text("U")],
    ),
];

const DEEP_METHODS: &[Method] = &[Method(0, "M", TO_NONE, b"\x06\x2A")];

/// A type that extends itself.
const DEEP: Plan = Plan {
    name: "Deep",
    types: &[NOWHERE, Class("Deep", "E", SECOND_TYPE, &[], DEEP_METHODS)],
    ..LIB1
};

/// A type with many small methods.
const OPS: Plan = Plan {
    name: "Ops",
    refs: &[RUNTIME, Ref("System.Console", EIGHTH)],
    type_refs: &[
        SYSTEM_OBJECT,
        TypeRef(IN_RUNTIME, "System", "Int32"),
        TypeRef(IN_SECOND, "System", "Console"),
    ],
    types: &[NOWHERE, Class("Ops", "M", OBJECT, OPS_FIELDS, OPS_METHODS)],
    members: &[Member(25, "WriteLine", STRING_TO_NONE)],
    user_strings: b"\0\x05h\0i\0\0",
    ..LIB1
};

const OPS_FIELDS: &[Field] = &[Field("n", INT_FIELD), Field("s", b"\x06\x0E")];

// Bodies of its longer methods.

const SPIN3: &[u8] = b"\x32\0\0\0\x02\x17\x59\x10\0\x02\x2D\xF8\x2A";

const SPIN4: &[u8] = b"\x36\0\0\0\0\x02\x17\x59\x10\0\x02\x2D\xF8\x2A";

const LOOP: &[u8] = b"\x3E\x7E\x01\0\0\x04\x26\x02\x17\x59\x10\0\x02\x2D\xF2\x2A";

const REC: &[u8] = b"\x32\x02\x2C\x08\x02\x17\x59\x28\x08\0\0\x06\x2A";

const ARR: &[u8] = b"\x26\x02\x8D\x02\0\0\x01\x8E\x69\x2A";

const SAY: &[u8] = b"\x2E\x72\x01\0\0\x70\x28\x01\0\0\x0A\x2A";

const OPS_METHODS: &[Method] = &[
    Method(0, "Div", INTS_TO_INT, b"\x12\x02\x03\x5B\x2A"),
    Method(0, "AddOvf", INTS_TO_INT, b"\x12\x02\x03\xD6\x2A"),
    Method(0, "Shl", INTS_TO_INT, b"\x12\x02\x03\x62\x2A"),
    Method(0, "Spin3", INT_TO_NONE, SPIN3),
    Method(0, "Spin4", INT_TO_NONE, SPIN4),
    Method(0, "Bad", TO_INT, b"\x1A\x17\x17\x2D\x01\x18\x2A"),
    Method(0, "Loop", INT_TO_NONE, LOOP),
    Method(0, "Rec", INT_TO_NONE, REC),
    Method(0, "Arr", INT_TO_INT, ARR),
    Method(0, "Say", TO_NONE, SAY),
    Method(0, "Half", TO_FLOAT, b"\x1A\x22\0\0\0\0\x2A"),
    Method(0, "Keep", STRING_TO_NONE, b"\x1E\x02\x80\x02\0\0\x04\x2A"),
    Method(0, "Put", INT_TO_NONE, b"\x1E\x02\x80\x01\0\0\x04\x2A"),
    Method(0, "Peek", TO_INT, b"\x1A\x7E\x01\0\0\x04\x2A"),
];

/// Rows as a compiler leaves them, and a further stream.
const REL: Plan = Plan {
    name: "Plugin",
    version: [1, 2, 0, 0],
    type_refs: &[
        SYSTEM_OBJECT,
        TypeRef(
            IN_RUNTIME,
            "System.Runtime.CompilerServices",
            "RuntimeCompatibilityAttribute",
        ),
    ],
    types: &[NOWHERE, Class("Plugin", "Entry", OBJECT, &[], REL_METHODS)],
    members: &[Member(17, ".ctor", b"\x20\0\x01")],
    rows: REL_ROWS,
    streams: &[Stream("#Own", b"\x01\x02\x03")],
    ..LIB1
};

const REL_METHODS: &[Method] = &[
    Method(1, "Answer", TO_INT, b"\x0E\x1F\x2A\x2A"),
    Method(0, "Half", TO_DOUBLE, b"\x2A\x23\0\0\0\0\0\0\0\0\x2A"),
];

const REL_ROWS: &[Row] = &[
    Row(table::PARAM, &[Number(0), Number(0), Text("")]),
    Row(
        table::CUSTOM_ATTRIBUTE,
        &[Number(46), Number(11), Bytes(b"\x01\0\0\0")],
    ),
    Row(table::STAND_ALONE_SIG, &[Bytes(b"\x07\x01\x08")]),
    Row(table::PROPERTY_MAP, &[Number(2), Number(1)]),
    Row(
        table::PROPERTY,
        &[Number(0), Text("Answer"), Bytes(b"\x08\0\x08")],
    ),
    Row(table::METHOD_SEMANTICS, &[Number(2), Number(1), Number(3)]),
];
