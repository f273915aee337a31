//! Conversions of numbers.
ghost use Rattle.std.specs.Prelude.{◌≡◌, ◌^◌, ◌↔◌, pos, IsTrue, SomeIff};
ghost use Rattle.std.specs.Int.{w8, w16, w32, w64, int_wrap, int_rem_euclid};
ghost use Rattle.cli_words.specs.Convert.{Holds, low_bits, widened, reads_unsigned};

/// A kind of number: signed or unsigned, with its bytes; `I` and `U` are native and have 8.
/// ECMA-335 III.1.1.
#[derive(Clone, Copy, PartialEq, Eq, Debug)]
pub enum NumKind {
    I1,
    I2,
    I4,
    I8,
    U1,
    U2,
    U4,
    U8,
    I,
    U,
}

impl NumKind {
    /// Whether conv to this kind reads its source as unsigned, which is so for u4, u8 and u: an
    /// int32 is then widened with zeros, and else with its sign. ECMA-335 III.3.27.
    pub fn reads_unsigned(self) -> bool
        ensures { result ≡ reads_unsigned self }
    {
        matches!(self, NumKind::U4 | NumKind::U8 | NumKind::U)
    }
}

/// The number of the kind that has the lowest bits of the source, as 64 bits: a signed number is
/// widened with its sign, an unsigned one with zeros. A source of 32 bits comes widened to 64;
/// `Word32::converted` does both. ECMA-335 III.3.27.
pub fn convert(value: i64, to: NumKind) -> i64
    ensures { result ≡ int_wrap w64 (low_bits to value) }
{
    match to {
        NumKind::I1 => low_1(value).cast_signed() as i64,
        NumKind::I2 => low_2(value).cast_signed() as i64,
        NumKind::I4 => low_4(value).cast_signed() as i64,
        NumKind::U1 => low_1(value) as i64,
        NumKind::U2 => low_2(value) as i64,
        NumKind::U4 => low_4(value) as i64,
        NumKind::I8 | NumKind::U8 | NumKind::I | NumKind::U => value,
    }
}

/// The source as a number of the kind, in the same 64 bits; `None` exactly where the kind has no
/// such number. The source is the number for which the 64 bits of `value` stand, read as unsigned
/// where `from_unsigned` says so. A source of 32 bits comes widened to 64;
/// `Word32::converted_ovf` does both. ECMA-335 III.3.28, III.3.29.
pub fn convert_ovf(value: i64, from_unsigned: bool, to: NumKind) -> Option<i64>
    ensures { SomeIff result (Holds to (widened w64 from_unsigned value)) value }
{
    let holds = if from_unsigned && value < 0 {
        matches!(to, NumKind::U8 | NumKind::U)
    } else {
        holds(to, value)
    };
    if holds { Some(value) } else { None }
}

fn holds(kind: NumKind, value: i64) -> bool
    ensures { IsTrue result ↔ Holds kind value }
{
    match kind {
        NumKind::I1 => i8::try_from(value).is_ok(),
        NumKind::I2 => i16::try_from(value).is_ok(),
        NumKind::I4 => i32::try_from(value).is_ok(),
        NumKind::U1 => u8::try_from(value).is_ok(),
        NumKind::U2 => u16::try_from(value).is_ok(),
        NumKind::U4 => u32::try_from(value).is_ok(),
        NumKind::I8 | NumKind::I => true,
        NumKind::U8 | NumKind::U => 0 <= value,
    }
}

fn low_1(value: i64) -> u8
    ensures { pos result ≡ int_rem_euclid value (pos (2 ^ 8)) }
{
    value.rem_euclid(1 << 8) as u8
}

fn low_2(value: i64) -> u16
    ensures { pos result ≡ int_rem_euclid value (pos (2 ^ 16)) }
{
    value.rem_euclid(1 << 16) as u16
}

fn low_4(value: i64) -> u32
    ensures { pos result ≡ int_rem_euclid value (pos (2 ^ 32)) }
{
    value.rem_euclid(1 << 32) as u32
}
