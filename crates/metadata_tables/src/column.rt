//! The columns that are read by name, counted from 0 within their table. ECMA-335 II.22.

pub const MODULE_NAME: usize = 1;

pub const TYPE_REF_RESOLUTION_SCOPE: usize = 0;

pub const TYPE_REF_NAME: usize = 1;

pub const TYPE_REF_NAMESPACE: usize = 2;

pub const TYPE_DEF_FLAGS: usize = 0;

pub const TYPE_DEF_NAME: usize = 1;

pub const TYPE_DEF_NAMESPACE: usize = 2;

pub const TYPE_DEF_EXTENDS: usize = 3;

pub const TYPE_DEF_FIELD_LIST: usize = 4;

pub const TYPE_DEF_METHOD_LIST: usize = 5;

pub const FIELD_FLAGS: usize = 0;

pub const FIELD_NAME: usize = 1;

pub const FIELD_SIGNATURE: usize = 2;

pub const METHOD_DEF_RVA: usize = 0;

pub const METHOD_DEF_IMPL_FLAGS: usize = 1;

pub const METHOD_DEF_FLAGS: usize = 2;

pub const METHOD_DEF_NAME: usize = 3;

pub const METHOD_DEF_SIGNATURE: usize = 4;

pub const METHOD_DEF_PARAM_LIST: usize = 5;

pub const INTERFACE_IMPL_CLASS: usize = 0;

pub const INTERFACE_IMPL_INTERFACE: usize = 1;

pub const MEMBER_REF_CLASS: usize = 0;

pub const MEMBER_REF_NAME: usize = 1;

pub const MEMBER_REF_SIGNATURE: usize = 2;

pub const STAND_ALONE_SIG_SIGNATURE: usize = 0;

pub const METHOD_IMPL_CLASS: usize = 0;

pub const METHOD_IMPL_BODY: usize = 1;

pub const METHOD_IMPL_DECLARATION: usize = 2;

pub const TYPE_SPEC_SIGNATURE: usize = 0;

pub const ASSEMBLY_MAJOR: usize = 1;

pub const ASSEMBLY_MINOR: usize = 2;

pub const ASSEMBLY_BUILD: usize = 3;

pub const ASSEMBLY_REVISION: usize = 4;

pub const ASSEMBLY_NAME: usize = 7;

pub const ASSEMBLY_REF_MAJOR: usize = 0;

pub const ASSEMBLY_REF_MINOR: usize = 1;

pub const ASSEMBLY_REF_BUILD: usize = 2;

pub const ASSEMBLY_REF_REVISION: usize = 3;

pub const ASSEMBLY_REF_NAME: usize = 6;

pub const NESTED_CLASS_NESTED: usize = 0;

pub const NESTED_CLASS_ENCLOSING: usize = 1;

pub const GENERIC_PARAM_NUMBER: usize = 0;

pub const GENERIC_PARAM_FLAGS: usize = 1;

pub const GENERIC_PARAM_OWNER: usize = 2;
