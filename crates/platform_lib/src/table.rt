//! The table of the platform's methods.

use crate::names::Name;
use Params::{Nothing, One, Two};
use signatures::Prim;

/// The parameters of a method, without the object.
#[derive(Clone, Copy, PartialEq, Eq, Debug)]
pub(crate) enum Params {
    Nothing,
    One(Prim),
    Two(Prim, Prim),
}

/// A method: the row of its type, its name, whether it is called on an object, its parameters and
/// its result.
#[derive(Clone, Copy)]
pub(crate) struct Row(
    pub(crate) u32,
    pub(crate) Name,
    pub(crate) bool,
    pub(crate) Params,
    pub(crate) Option<Prim>,
);

/// The methods in the order of their numbers, which count from 1.
pub(crate) const METHODS: [Row; 31] = [
    Row(1, Name::Ctor, true, Nothing, None),
    Row(
        2,
        Name::Concat,
        false,
        Two(Prim::Text, Prim::Text),
        Some(Prim::Text),
    ),
    Row(2, Name::GetLength, true, Nothing, Some(Prim::Int32)),
    Row(2, Name::GetChars, true, One(Prim::Int32), Some(Prim::Char)),
    Row(
        2,
        Name::OpEquality,
        false,
        Two(Prim::Text, Prim::Text),
        Some(Prim::Bool),
    ),
    Row(3, Name::WriteLine, false, Nothing, None),
    Row(3, Name::WriteLine, false, One(Prim::Text), None),
    Row(3, Name::WriteLine, false, One(Prim::Bool), None),
    Row(3, Name::WriteLine, false, One(Prim::Char), None),
    Row(3, Name::WriteLine, false, One(Prim::Int32), None),
    Row(3, Name::WriteLine, false, One(Prim::UInt32), None),
    Row(3, Name::WriteLine, false, One(Prim::Int64), None),
    Row(3, Name::WriteLine, false, One(Prim::UInt64), None),
    Row(4, Name::Ctor, true, Nothing, None),
    Row(4, Name::Ctor, true, One(Prim::Text), None),
    Row(5, Name::Ctor, true, Nothing, None),
    Row(5, Name::Ctor, true, One(Prim::Text), None),
    Row(6, Name::Ctor, true, Nothing, None),
    Row(6, Name::Ctor, true, One(Prim::Text), None),
    Row(7, Name::Ctor, true, Nothing, None),
    Row(7, Name::Ctor, true, One(Prim::Text), None),
    Row(8, Name::Ctor, true, Nothing, None),
    Row(8, Name::Ctor, true, One(Prim::Text), None),
    Row(9, Name::Ctor, true, Nothing, None),
    Row(9, Name::Ctor, true, One(Prim::Text), None),
    Row(10, Name::Ctor, true, Nothing, None),
    Row(10, Name::Ctor, true, One(Prim::Text), None),
    Row(11, Name::Ctor, true, Nothing, None),
    Row(11, Name::Ctor, true, One(Prim::Text), None),
    Row(12, Name::Ctor, true, Nothing, None),
    Row(12, Name::Ctor, true, One(Prim::Text), None),
];

/// A method of the platform, which runs without instructions.
#[derive(Clone, Copy, PartialEq, Eq, Debug)]
pub struct Intrinsic {
    /// Its number, from 1.
    pub number: u32,
}
