//! Words of 64 bits.
ghost use Rattle.std.specs.Prelude.{◌≡◌, ◌+◌, ◌-◌, ◌*◌, ◌/◌, ◌%◌, ◌^◌, ◌<◌, ◌≤◌, ◌↔◌, pos, negsuc};
ghost use Rattle.std.specs.Prelude.{◌+ℤ◌, ◌-ℤ◌, ◌*ℤ◌, neg_ℤ, FitsSigned, int_div, int_rem, SomeIff};
ghost use Rattle.std.specs.Prelude.{IfOk, IfErr};
ghost use Rattle.std.specs.Result.{IsErrOf};
ghost use Rattle.std.specs.Int.{w64, cast_signed, cast_unsigned, int_wrap, int_bit_and, int_bit_or};
ghost use Rattle.std.specs.Int.{int_bit_xor, int_bit_not, int_div_euclid};
ghost use Rattle.cli_words.specs.Word.{least_number, shift_factor};
ghost use Rattle.cli_words.specs.Convert.{Holds, low_bits, widened, reads_unsigned};

use crate::conversion::{NumKind, convert, convert_ovf};
use crate::fault::DivFault;

/// A word of 64 bits, by the number that it stands for when read as signed. Where a result fits no
/// word its lowest 64 bits are left, but the `ovf` forms answer `None` and `div` answers `Range`. A
/// name that ends in `un` reads the words as unsigned. ECMA-335 III.3.
#[derive(Clone, Copy, PartialEq, Eq, Debug)]
pub struct Word64(pub i64);

impl Word64 {
    /// The number with the other sign.
    #[tactic(auto, using(std::proofs::lemmas::Int::wrapping_neg_is))]
    pub fn neg(self) -> Word64
        ensures { result.0 ≡ int_wrap w64 (neg_ℤ self.0) }
    {
        Word64(self.0.wrapping_neg())
    }

    /// Each bit the other way.
    pub fn not(self) -> Word64
        ensures { result.0 ≡ int_bit_not w64 self.0 }
    {
        Word64(!self.0)
    }

    /// The sum.
    #[tactic(auto, using(std::proofs::lemmas::Int::wrapping_add_is))]
    pub fn add(self, other: Word64) -> Word64
        ensures { result.0 ≡ int_wrap w64 (self.0 +ℤ other.0) }
    {
        Word64(self.0.wrapping_add(other.0))
    }

    /// The difference.
    #[tactic(auto, using(std::proofs::lemmas::Int::wrapping_sub_is))]
    pub fn sub(self, other: Word64) -> Word64
        ensures { result.0 ≡ int_wrap w64 (self.0 -ℤ other.0) }
    {
        Word64(self.0.wrapping_sub(other.0))
    }

    /// The product.
    pub fn mul(self, other: Word64) -> Word64
        ensures { result.0 ≡ int_wrap w64 (self.0 *ℤ other.0) }
    {
        Word64(self.0.wrapping_mul(other.0))
    }

    /// The bits that both have.
    pub fn and(self, other: Word64) -> Word64
        ensures { result.0 ≡ int_bit_and w64 self.0 other.0 }
    {
        Word64(self.0 & other.0)
    }

    /// The bits that one or both have.
    pub fn or(self, other: Word64) -> Word64
        ensures { result.0 ≡ int_bit_or w64 self.0 other.0 }
    {
        Word64(self.0 | other.0)
    }

    /// The bits that exactly one has.
    pub fn xor(self, other: Word64) -> Word64
        ensures { result.0 ≡ int_bit_xor w64 self.0 other.0 }
    {
        Word64(self.0 ^ other.0)
    }

    /// The bits moved up by the count, modulo 64.
    #[tactic(auto, using(crate::proofs::Wraps::shifted))]
    pub fn shl(self, count: u32) -> Word64
        ensures { result.0 ≡ int_wrap w64 (self.0 *ℤ pos (shift_factor w64 count)) }
    {
        Word64(self.0.wrapping_shl(count))
    }

    /// The bits moved down by the count, modulo the width, with the sign's bit above them.
    pub fn shr(self, count: u32) -> Word64
        ensures { result.0 ≡ int_div_euclid self.0 (pos (shift_factor w64 count)) }
    {
        Word64(self.0.wrapping_shr(count))
    }

    /// The bits moved down by the count, modulo the width, with zeros above them.
    pub fn shr_un(self, count: u32) -> Word64
        ensures { result.0 ≡ cast_signed w64 (cast_unsigned w64 self.0 / shift_factor w64 count) }
    {
        Word64(self.0.cast_unsigned().wrapping_shr(count).cast_signed())
    }

    /// The sum; `None` exactly where it fits no word.
    pub fn add_ovf(self, other: Word64) -> Option<Word64>
        ensures { let sum = self.0 +ℤ other.0 in
            SomeIff result (FitsSigned w64 sum) (record { 0 = sum }) }
    {
        self.0.checked_add(other.0).map(Word64)
    }

    /// The difference; `None` exactly where it fits no word.
    pub fn sub_ovf(self, other: Word64) -> Option<Word64>
        ensures { let difference = self.0 -ℤ other.0 in
            SomeIff result (FitsSigned w64 difference) (record { 0 = difference }) }
    {
        self.0.checked_sub(other.0).map(Word64)
    }

    /// The product; `None` exactly where it fits no word.
    pub fn mul_ovf(self, other: Word64) -> Option<Word64>
        ensures { let product = self.0 *ℤ other.0 in
            SomeIff result (FitsSigned w64 product) (record { 0 = product }) }
    {
        self.0.checked_mul(other.0).map(Word64)
    }

    /// The sum; `None` exactly where it is 2^64 or more.
    pub fn add_ovf_un(self, other: Word64) -> Option<Word64>
        ensures { let sum = cast_unsigned w64 self.0 + cast_unsigned w64 other.0 in
            SomeIff result (sum < 2 ^ 64) (record { 0 = cast_signed w64 sum }) }
    {
        let sum = self.0.cast_unsigned().checked_add(other.0.cast_unsigned())?;
        Some(Word64(sum.cast_signed()))
    }

    /// The difference; `None` exactly where it is below 0.
    pub fn sub_ovf_un(self, other: Word64) -> Option<Word64>
        ensures { let from = cast_unsigned w64 self.0 in let taken = cast_unsigned w64 other.0 in
            SomeIff result (taken ≤ from) (record { 0 = cast_signed w64 (from - taken) }) }
    {
        let difference = self.0.cast_unsigned().checked_sub(other.0.cast_unsigned())?;
        Some(Word64(difference.cast_signed()))
    }

    /// The product; `None` exactly where it is 2^64 or more.
    pub fn mul_ovf_un(self, other: Word64) -> Option<Word64>
        ensures { let product = cast_unsigned w64 self.0 * cast_unsigned w64 other.0 in
            SomeIff result (product < 2 ^ 64) (record { 0 = cast_signed w64 product }) }
    {
        let product = self.0.cast_unsigned().checked_mul(other.0.cast_unsigned())?;
        Some(Word64(product.cast_signed()))
    }

    /// The quotient, rounded toward zero. `Zero` exactly at a divisor of 0, `Range` exactly at the
    /// least number by -1.
    pub fn div(self, other: Word64) -> Result<Word64, DivFault>
        ensures quotient { IfOk result (λ quotient. quotient.0 ≡ int_div self.0 other.0) }
        ensures zero { IsErrOf result DivFault.Zero ↔ (other.0 ≡ pos 0) }
        ensures range { IsErrOf result DivFault.Range
            ↔ ((self.0 ≡ least_number w64) × (other.0 ≡ negsuc 0)) }
    {
        match other.0 {
            0 => Err(DivFault::Zero),
            -1 if self.0 == i64::MIN => Err(DivFault::Range),
            by => Ok(Word64(self.0 / by)),
        }
    }

    /// The quotient, rounded down; `Zero` exactly at a divisor of 0, and no other fault.
    pub fn div_un(self, other: Word64) -> Result<Word64, DivFault>
        ensures quotient { let quotient = cast_unsigned w64 self.0 / cast_unsigned w64 other.0 in
            IfOk result (λ word. word.0 ≡ cast_signed w64 quotient) }
        ensures zero { IsErrOf result DivFault.Zero ↔ (other.0 ≡ pos 0) }
        ensures only { IfErr result (λ fault. fault ≡ DivFault.Zero) }
    {
        match other.0.cast_unsigned() {
            0 => Err(DivFault::Zero),
            by => Ok(Word64((self.0.cast_unsigned() / by).cast_signed())),
        }
    }

    /// What the quotient leaves, with the sign of `self`; 0 for the least number by -1. `Zero`
    /// exactly at a divisor of 0, and no other fault.
    pub fn rem(self, other: Word64) -> Result<Word64, DivFault>
        ensures rest { IfOk result (λ rest. rest.0 ≡ int_rem self.0 other.0) }
        ensures zero { IsErrOf result DivFault.Zero ↔ (other.0 ≡ pos 0) }
        ensures only { IfErr result (λ fault. fault ≡ DivFault.Zero) }
    {
        match other.0 {
            0 => Err(DivFault::Zero),
            by => Ok(Word64(self.0.wrapping_rem(by))),
        }
    }

    /// What the quotient leaves; `Zero` exactly at a divisor of 0, and no other fault.
    pub fn rem_un(self, other: Word64) -> Result<Word64, DivFault>
        ensures rest { let rest = cast_unsigned w64 self.0 % cast_unsigned w64 other.0 in
            IfOk result (λ word. word.0 ≡ cast_signed w64 rest) }
        ensures zero { IsErrOf result DivFault.Zero ↔ (other.0 ≡ pos 0) }
        ensures only { IfErr result (λ fault. fault ≡ DivFault.Zero) }
    {
        match other.0.cast_unsigned() {
            0 => Err(DivFault::Zero),
            by => Ok(Word64((self.0.cast_unsigned() % by).cast_signed())),
        }
    }

    /// What conv makes of the word: the number of the kind that has its lowest bits, as 64 bits. The
    /// word is read as unsigned where the kind is u4, u8 or u, and else as signed. ECMA-335
    /// III.3.27.
    pub fn converted(self, to: NumKind) -> i64
        ensures { let source = widened w64 (reads_unsigned to) self.0 in
            result ≡ int_wrap w64 (low_bits to source) }
    {
        convert(self.0, to)
    }

    /// What conv.ovf makes of the word, read as signed, and conv.ovf.un, read as unsigned: the same
    /// number as 64 bits; `None` exactly where the kind has no such number. ECMA-335 III.3.28,
    /// III.3.29.
    pub fn converted_ovf(self, from_unsigned: bool, to: NumKind) -> Option<i64>
        ensures { let source = widened w64 from_unsigned self.0 in
            SomeIff result (Holds to source) (int_wrap w64 source) }
    {
        convert_ovf(self.0, from_unsigned, to)
    }
}
