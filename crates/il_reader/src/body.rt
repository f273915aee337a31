//! Method bodies.
ghost use Rattle.std.specs.Prelude.{◌≡◌, ◌<◌, nat_le, if◌then◌else◌, length, Some};
ghost use Rattle.std.specs.Prelude.{None};
ghost use Rattle.std.specs.Prelude.{IfOk, IfErr, IfSome};
ghost use Rattle.cli_words.specs.Span.{LiesIn};
ghost use Rattle.il_reader.specs.Bodies.{IsBody, HasNoBody, tiny_end, has_fat_head};
ghost use Rattle.il_reader.specs.Reading.{head_at, tiny_head, fat_head};

use crate::fault::IlFault;
use crate::section::{Clauses, read_clauses};
use cli_words::{Span, u16_at, u32_at};
use std::alloc::Global;

/// How many forms the two lowest bits of a body's first byte tell apart; in a tiny body the other
/// bits are the length of its code.
const FORMS: u8 = 4;

/// The two lowest bits of a tiny body's first byte.
const TINY: u8 = 2;

/// Those of a fat body's.
const FAT: u8 = 3;

/// The maximum stack of a tiny body.
const TINY_STACK: u16 = 8;

/// The length of a fat body's header, in bytes.
const FAT_LEN: usize = 12;

/// The same in words of four bytes, as the header says it.
const FAT_WORDS: u16 = 3;

/// What that is multiplied by in the header's first two bytes, above the flags.
const WORDS_UNIT: u16 = 0x1000;

/// The flag that says that sections follow the code.
const MORE_SECTIONS: u16 = 8;

/// The flag that says that the locals begin as zeros and nulls.
const INIT_LOCALS: u16 = 0x10;

/// A method body. ECMA-335 II.25.4.
#[derive(Debug, Drop)]
pub struct Body {
    /// The most values that its stack holds.
    pub max_stack: u16,
    /// Whether its locals begin as zeros and nulls.
    pub init_locals: bool,
    /// The token of its locals' signature, or 0.
    pub locals: u32,
    /// Its instructions, as a span of the bytes that it was read from.
    pub code: Span,
    /// The exception clauses of all its sections.
    pub clauses: Clauses,
}

/// The body at byte `at`. `Bad` with `at` exactly where no body stands there whole: a tiny one,
/// whose maximum stack is 8, or a fat one, whose header has twelve bytes and whose sections hold
/// exception clauses alone, each of a kind that the standard names. A section begins at a multiple
/// of four, counted from the start of `bytes`. ECMA-335 II.25.4.
pub fn read_body(alloc: Global, bytes: &[u8], at: usize) -> Result<Body, IlFault>
    ensures body { IfOk result (λ body. IsBody bytes.now at body) }
    ensures only { IfOk result (λ body. (other : Body) → IsBody bytes.now at other → other ≡ body) }
    ensures within { IfOk result (λ body. LiesIn (length bytes.now) body.code) }
    ensures fault { IfErr result (HasNoBody bytes.now at) }
{
    let Some(head) = read_head(bytes, at) else {
        return Err(IlFault::Bad { at });
    };
    let end = head.code.at + head.code.len;
    match read_clauses(alloc, bytes, head.has_sections, end) {
        Ok(Some(clauses)) => Ok(Body {
            max_stack: head.max_stack,
            init_locals: head.init_locals,
            locals: head.locals,
            code: head.code,
            clauses,
        }),
        Ok(None) => Err(IlFault::Bad { at }),
        Err(_) => Err(IlFault::OutOfMemory),
    }
}

/// A body without its clauses.
#[derive(Clone, Copy)]
struct Head {
    max_stack: u16,
    init_locals: bool,
    locals: u32,
    code: Span,
    /// Whether sections follow the code.
    has_sections: bool,
}

/// What a body says before its sections, where that and its code stand whole at a place.
fn read_head(bytes: &[u8], at: usize) -> Option<Head>
    ensures found { result ≡ head_at bytes.now at }
    ensures within { IfSome result (λ head. LiesIn (length bytes.now) head.code) }
{
    match bytes.get(at)? % FORMS {
        TINY => read_tiny(bytes, at),
        FAT => read_fat(bytes, at),
        _ => None,
    }
}

fn read_tiny(bytes: &[u8], at: usize) -> Option<Head>
    requires { at < length bytes.now }
    ensures { result ≡ (if nat_le (tiny_end bytes.now at) (length bytes.now)
        then Some (tiny_head bytes.now at) else None) }
{
    let len = usize::from(bytes[at] / FORMS);
    if bytes.len() < at + 1 + len {
        return None;
    }
    Some(Head {
        max_stack: TINY_STACK,
        init_locals: false,
        locals: 0,
        code: Span { at: at + 1, len },
        has_sections: false,
    })
}

#[tactic(auto, unfolding(crate::specs::Bodies::flags_at))]
fn read_fat(bytes: &[u8], at: usize) -> Option<Head>
    requires { at < length bytes.now }
    ensures { result ≡ (if has_fat_head bytes.now at then Some (fat_head bytes.now at) else None) }
{
    if bytes.len() < at + FAT_LEN {
        return None;
    }
    let flags = u16_at(bytes, at);
    let len = u32_at(bytes, at + 4) as usize;
    if flags / WORDS_UNIT != FAT_WORDS || bytes.len() < at + FAT_LEN + len {
        return None;
    }
    Some(Head {
        max_stack: u16_at(bytes, at + 2),
        init_locals: flags & INIT_LOCALS != 0,
        locals: u32_at(bytes, at + 8),
        code: Span {
            at: at + FAT_LEN,
            len,
        },
        has_sections: flags & MORE_SECTIONS != 0,
    })
}
