//! The sections after a fat body's code, and the exception clauses in them.
ghost use Rattle.std.specs.Prelude.{◌≡◌, ◌+◌, ◌-◌, ◌%◌, ◌^◌, ◌==◌, ◌&&◌, nat_le, ◌<◌, ◌≤◌, ◌++◌};
ghost use Rattle.std.specs.Prelude.{if◌then◌else◌, true, List, ℕ, length, Some, None, IfOk};
ghost use Rattle.std.specs.Prelude.{IfSome};
ghost use Rattle.std.specs.List.{list_all};
ghost use Rattle.il_reader.specs.Sections.{HasClauses, clauses_of, clause_count};
ghost use Rattle.il_reader.specs.Sections.{clause_of, clause_at, clause_len, is_known};
ghost use Rattle.il_reader.specs.Sections.{has_header};
ghost use Rattle.il_reader.specs.Reading.{section_of};

use cli_words::{Listed, u16_at, u32_at};
use std::alloc::{AllocError, Global};

/// What the place of a section is a multiple of.
const ALIGNMENT: usize = 4;

/// The length of a section's header, in bytes.
const HEADER_LEN: usize = 4;

/// The length of a clause of the small form, in bytes.
const SMALL_LEN: usize = 12;

/// The same of the fat form.
const WIDE_LEN: usize = 24;

/// What the length of a section is multiplied by in the fat form's header, after its kind.
const LEN_UNIT: u32 = 0x100;

/// The bits of a section's first byte that say what it holds.
const KINDS: u8 = 0x3F;

/// It holds exception clauses.
const EXCEPTIONS: u8 = 1;

/// The bit that says that its clauses have the fat form.
const WIDE: u8 = 0x40;

/// The bit that says that another section follows.
const MORE: u8 = 0x80;

/// The kind of a clause that takes exceptions of a class. ECMA-335 II.25.4.6.
pub const CATCH: u32 = 0;

/// That of a clause whose code says whether it takes an exception.
pub const FILTER: u32 = 1;

/// That of a clause that runs however its try is left.
pub const FINALLY: u32 = 2;

/// That of a clause that runs where its try is left by an exception.
pub const FAULT: u32 = 4;

/// An exception clause. Offsets and lengths are in bytes of the code. ECMA-335 II.25.4.6.
#[derive(Clone, Copy, PartialEq, Eq, Debug)]
pub struct Clause {
    /// One of [`CATCH`], [`FILTER`], [`FINALLY`] and [`FAULT`].
    pub kind: u32,
    pub try_at: u32,
    pub try_len: u32,
    pub handler_at: u32,
    pub handler_len: u32,
    /// The token of the class that a catch takes, or the offset of a filter's code.
    pub last: u32,
}

/// The clauses of a body, in their order.
pub type Clauses = Listed<Clause>;

/// The clauses of the sections that stand one after the other, where sections are `due` after byte
/// `end`. `None` exactly where no such sections stand whole in the bytes.
pub(crate) fn read_clauses(
    alloc: Global,
    bytes: &[u8],
    mut due: bool,
    mut end: usize,
) -> Result<Option<Clauses>, AllocError>
    requires { end ≤ length bytes.now }
    ensures { IfOk result (HasClauses bytes.now due end) }
{
    let mut clauses = Vec::new(alloc);
    while due {
        let Some(section) = read_section(bytes, end.next_multiple_of(ALIGNMENT)) else {
            return Ok(None);
        };
        if !section.push_clauses(bytes, &mut clauses)? {
            return Ok(None);
        }
        due = section.has_more;
        end = section.at + section.len;
    }
    Ok(Some(Clauses::of(clauses)))
}

/// The header of a section.
#[derive(Clone, Copy)]
struct Section {
    /// Its first byte.
    at: usize,
    /// How many bytes it has, with its header.
    len: usize,
    /// Whether its clauses have the fat form.
    is_wide: bool,
    /// Whether another section follows.
    has_more: bool,
}

/// The header of the section of exception clauses at a place, where the section stands whole in
/// the bytes, whatever the kinds of its clauses are.
#[tactic(auto, unfolding(crate::specs::Sections::has_header, crate::specs::Sections::section_len))]
fn read_section(bytes: &[u8], at: usize) -> Option<Section>
    requires { at < length bytes.now + 4 }
    ensures found { result
        ≡ (if has_header bytes.now at then Some (section_of bytes.now at) else None) }
    ensures header { IfSome result (λ section. 4 ≤ section.len) }
    ensures within { IfSome result (λ section. section.at + section.len ≤ length bytes.now) }
{
    if bytes.len() < at + HEADER_LEN {
        return None;
    }
    let kind = bytes[at];
    let is_wide = kind & WIDE != 0;
    let len = if is_wide {
        u32_at(bytes, at) / LEN_UNIT
    } else {
        u32::from(bytes[at + 1])
    };
    let section = Section {
        at,
        len: len as usize,
        is_wide,
        has_more: kind & MORE != 0,
    };
    if kind & KINDS == EXCEPTIONS && section.is_whole(bytes) {
        Some(section)
    } else {
        None
    }
}

impl Section {
    /// Its clauses fill it, and the bytes go on to its end.
    fn is_whole(self, bytes: &[u8]) -> bool
        requires near { self.at ≤ length bytes.now }
        requires short { self.len < 2 ^ 32 }
        ensures { result ≡ (nat_le 4 self.len
            && ((self.len - 4) % clause_len self.is_wide == 0)
            && nat_le (self.at + self.len) (length bytes.now)) }
    {
        self.len >= HEADER_LEN
            && (self.len - HEADER_LEN) % self.clause_len() == 0
            && self.at + self.len <= bytes.len()
    }

    fn clause_len(self) -> usize
        ensures { result ≡ clause_len self.is_wide }
    {
        if self.is_wide { WIDE_LEN } else { SMALL_LEN }
    }

    /// Puts its clauses at the end of these, as far as their kinds are known. Answers whether all
    /// are.
    #[tactic(auto, unfolding(crate::specs::Sections::clause_of))]
    fn push_clauses(self, bytes: &[u8], clauses: &mut Vec<Clause>) -> Result<bool, AllocError>
        requires header { 4 ≤ self.len }
        requires within { self.at + self.len ≤ length bytes.now }
        requires read { self ≡ section_of bytes.now self.at }
        ensures known { IfOk result (λ all.
            all ≡ list_all is_known (clauses_of bytes.now self.at)) }
        ensures clauses { IfOk result (λ all. all ≡ true →
            clauses.new.items ≡ clauses.old.items ++ clauses_of bytes.now self.at) }
    {
        let len = self.clause_len();
        let first = self.at + HEADER_LEN;
        for n in 0..(self.len - HEADER_LEN) / len {
            let clause = read_clause(bytes, self.is_wide, first + len * n);
            if !clause.is_known() {
                return Ok(false);
            }
            clauses.push(clause)?;
        }
        Ok(true)
    }
}

/// The clause at a place, of the fat form or of the small one.
fn read_clause(bytes: &[u8], is_wide: bool, at: usize) -> Clause
    requires { at + clause_len is_wide ≤ length bytes.now }
    ensures { result ≡ clause_at bytes.now is_wide at }
{
    if is_wide {
        Clause {
            kind: u32_at(bytes, at),
            try_at: u32_at(bytes, at + 4),
            try_len: u32_at(bytes, at + 8),
            handler_at: u32_at(bytes, at + 12),
            handler_len: u32_at(bytes, at + 16),
            last: u32_at(bytes, at + 20),
        }
    } else {
        Clause {
            kind: u32::from(u16_at(bytes, at)),
            try_at: u32::from(u16_at(bytes, at + 2)),
            try_len: u32::from(bytes[at + 4]),
            handler_at: u32::from(u16_at(bytes, at + 5)),
            handler_len: u32::from(bytes[at + 7]),
            last: u32_at(bytes, at + 8),
        }
    }
}

impl Clause {
    fn is_known(&self) -> bool
        ensures { result ≡ is_known self.now }
    {
        matches!(self.kind, CATCH | FILTER | FINALLY | FAULT)
    }
}
