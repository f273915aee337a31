// Keys, read from the right, so that an array comes before its element and a class after its arguments.
// Nothing recurses, however deep a key is: what the type is part of that is read stands in a list.
ghost use Rattle.std.specs.Prelude.{◌≡◌, ◌<◌, ◌≤◌, ◌+◌, ◌-◌, [], ◌∷◌, Some, IfOk, IfSome, IfNone};
ghost use Rattle.std.specs.Prelude.{length, map, take, drop, reverse, get_or};
ghost use Rattle.std.specs.List.{list_all};
ghost use Rattle.signatures.specs.Keys.{is_proper, key_arity};
ghost use Rattle.signatures.specs.Types.{are_types};
ghost use Rattle.host_report.specs.KeyReading.{argument_counted, closed, counted, drafted, is_array_next};
ghost use Rattle.host_report.specs.KeyReading.{is_mark, key_read, marked, opened, parts_read};
ghost use Rattle.host_report.specs.KeyReading.{primitive_named, settled, stepped};
ghost use Rattle.host_report.specs.Reading.{Reads};

use crate::key_text::primitive_text;
use crate::unread::Unread;
use crate::words::{number_of, word};
use signatures::{Key, KeyPart, Prim, TypeKey};
use std::alloc::Global;

// Each primitive once.
const PRIMITIVES: [Prim; 14] = [
    Prim::Bool,
    Prim::Char,
    Prim::Int8,
    Prim::UInt8,
    Prim::Int16,
    Prim::UInt16,
    Prim::Int32,
    Prim::UInt32,
    Prim::Int64,
    Prim::UInt64,
    Prim::Native,
    Prim::UNative,
    Prim::Text,
    Prim::Object,
];

// What a type is part of.
#[derive(Clone, Copy)]
enum Outer {
    // The element of an array.
    Array,
    // An argument of a class, of which so many were read.
    Class { args: u32 },
}

// What was read of a key.
#[derive(Drop)]
struct Draft {
    // The number behind the brackets that are open.
    row: Option<u32>,
    // How many arguments the class has that comes next.
    args: u32,
    // What the next type is part of, the innermost last.
    outers: Vec<Outer>,
    // The parts, the first of the key last.
    parts: Vec<KeyPart>,
}

/// The key at the front, and what stands behind the space that follows it.
pub(crate) fn key(alloc: Global, rest: &[u8]) -> Result<(TypeKey, &[u8]), Unread>
    ensures { Reads (λ x. (x.0, x.1.now)) result (key_read rest.now) }
{
    let (text, rest) = word(rest);
    let parts = parts_of(alloc, text)?;
    if !(is_key(&parts) && are_proper(&parts)) {
        return Err(Unread::Differs);
    }
    Ok((TypeKey::of(alloc, Key::of(parts))?, rest))
}

// The parts that a text spells, if it spells a key.
fn parts_of(alloc: Global, text: &[u8]) -> Result<Vec<KeyPart>, Unread>
    ensures { Reads (λ parts. parts.items) result (parts_read text.now) }
{
    let mut draft = Draft {
        row: None,
        args: 0,
        outers: Vec::new(alloc),
        parts: Vec::new(alloc),
    };
    let mut at = text.len();
    let mut end = text.len();
    while at > 0 {
        at -= 1;
        end = match step(&mut draft, text, at, end) {
            Ok(after) => after,
            Err(unread) => return Err(unread),
        };
    }
    settle(&mut draft, &text[..end])?;
    let mut parts = draft.parts;
    parts.reverse();
    Ok(parts)
}

// Takes the byte at this place, before a word that ends there, and gives where the word ends that then
// stands in front.
fn step(draft: &mut Draft, text: &[u8], at: usize, end: usize) -> Result<usize, Unread>
    requires before { at < end }
    requires within { end ≤ length text.now }
    ensures taken { Reads (λ after. (take (after - at) (drop at text.now), drafted draft.new)) result
        (stepped (get_or text.now at 0) (take (end - (at + 1)) (drop (at + 1) text.now))
        (drafted draft.old)) }
    ensures within { IfOk result (λ after. after ≤ end) }
    ensures behind { IfOk result (λ after. at ≤ after) }
{
    if !is_mark(text[at]) {
        return Ok(end);
    }
    take_mark(draft, text[at], &text[at + 1..end])?;
    Ok(at)
}

fn is_mark(byte: u8) -> bool
    ensures { result ≡ is_mark byte }
{
    byte == b',' || byte == b'<' || byte == b'>' || byte == b'[' || byte == b']'
}

// Takes a mark, with the word behind it.
fn take_mark(draft: &mut Draft, mark: u8, word: &[u8]) -> Result<(), Unread>
    ensures { Reads (λ _. drafted draft.new) result (marked mark word.now (drafted draft.old)) }
{
    match mark {
        b',' => settle(draft, word),
        b'<' => begin_class(draft, word),
        b'>' => end_class(draft),
        b'[' => open_bracket(draft, word),
        _ => close_bracket(draft, word),
    }
}

// The primitive that a word names, if there is a word; behind a class there is none.
fn settle(draft: &mut Draft, word: &[u8]) -> Result<(), Unread>
    ensures { Reads (λ _. drafted draft.new) result (settled word.now (drafted draft.old)) }
{
    if word.is_empty() {
        return Ok(());
    }
    match named(word) {
        Some(primitive) => take_part(draft, KeyPart::Prim(primitive)),
        None => Err(Unread::Differs),
    }
}

// The arguments of a class begin here, so all were read, and its own part comes next.
fn begin_class(draft: &mut Draft, word: &[u8]) -> Result<(), Unread>
    ensures { Reads (λ _. drafted draft.new) result (marked 60 word.now (drafted draft.old)) }
{
    settle(draft, word)?;
    count(draft)
}

// All arguments of the innermost class were read.
fn count(draft: &mut Draft) -> Result<(), Unread>
    ensures { Reads (λ _. drafted draft.new) result
        (counted (drafted draft.old).outers (drafted draft.old).parts) }
{
    match pop(&mut draft.outers) {
        Some(Outer::Class { args }) => {
            draft.row = None;
            draft.args = args;
            Ok(())
        }
        _ => Err(Unread::Differs),
    }
}

// The arguments of a class end here, of which the last is read first.
fn end_class(draft: &mut Draft) -> Result<(), Unread>
    ensures { Reads (λ _. drafted draft.new) result (marked 62 [] (drafted draft.old)) }
{
    draft.row = None;
    draft.args = 0;
    push(&mut draft.outers, Outer::Class { args: 0 })
}

// A bracket closes, with a number behind it if it is that of a class.
fn close_bracket(draft: &mut Draft, word: &[u8]) -> Result<(), Unread>
    ensures { Reads (λ _. drafted draft.new) result (marked 93 word.now (drafted draft.old)) }
{
    draft.row = match number_of(word) {
        Ok(row) => Some(row),
        Err(Unread::Differs) => None,
        Err(Unread::OutOfMemory) => return Err(Unread::OutOfMemory),
    };
    Ok(())
}

// A bracket opens, with a word behind it: of an array, or of a class.
fn open_bracket(draft: &mut Draft, word: &[u8]) -> Result<(), Unread>
    ensures { Reads (λ _. drafted draft.new) result
        (opened (drafted draft.old).row word.now (drafted draft.old)) }
{
    match draft.row {
        None => {
            draft.args = 0;
            push(&mut draft.outers, Outer::Array)
        }
        Some(row) => {
            let assembly = number_of(word)?;
            let args = draft.args;
            take_part(
                draft,
                KeyPart::Class {
                    assembly,
                    row,
                    args,
                },
            )
        }
    }
}

// Takes a part with which a type begins, all of which was read.
fn take_part(draft: &mut Draft, part: KeyPart) -> Result<(), Unread>
    ensures { Reads (λ _. drafted draft.new) result
        (closed (drafted draft.old).outers (part ∷ (drafted draft.old).parts)) }
{
    push(&mut draft.parts, part)?;
    close(draft)
}

// After a type: the arrays begin of which it is the element, and it is one more argument of a class. Each
// array is taken off once, so the whole text takes linear time.
fn close(draft: &mut Draft) -> Result<(), Unread>
    ensures { Reads (λ _. drafted draft.new) result
        (closed (drafted draft.old).outers (drafted draft.old).parts) }
{
    while is_element(&draft.outers) {
        let _array = pop(&mut draft.outers);
        push(&mut draft.parts, KeyPart::Vector)?;
    }
    count_argument(draft)
}

// After a type that is the element of no array.
fn count_argument(draft: &mut Draft) -> Result<(), Unread>
    ensures { Reads (λ _. drafted draft.new) result
        (argument_counted (drafted draft.old).outers (drafted draft.old).parts) }
{
    draft.row = None;
    draft.args = 0;
    match pop(&mut draft.outers) {
        None => Ok(()),
        Some(Outer::Array) => Err(Unread::Differs),
        Some(Outer::Class { args }) => {
            let args = args.checked_add(1).ok_or(Unread::Differs)?;
            push(&mut draft.outers, Outer::Class { args })
        }
    }
}

fn push<T: Drop>(items: &mut Vec<T>, item: T) -> Result<(), Unread>
    ensures { Reads (λ _. reverse items.new.items) result (Some (item ∷ reverse items.old.items)) }
{
    Ok(items.push(item)?)
}

fn pop(outers: &mut Vec<Outer>) -> Option<Outer>
    ensures some { IfSome result (λ outer. reverse outers.old.items ≡ outer ∷ reverse outers.new.items) }
    ensures fewer { IfSome result (λ _. length outers.new.items + 1 ≡ length outers.old.items) }
    ensures none { IfNone result (reverse outers.old.items ≡ []) }
    ensures none_left { IfNone result (reverse outers.new.items ≡ []) }
{
    outers.pop()
}

fn is_element(outers: &[Outer]) -> bool
    ensures { result ≡ is_array_next (reverse outers.now) }
{
    match outers {
        [.., Outer::Array] => true,
        _ => false,
    }
}

#[tactic(auto, unfolding(crate::specs::KeyReading::primitive_named))]
fn named(name: &[u8]) -> Option<Prim>
    ensures { result ≡ primitive_named name.now }
{
    PRIMITIVES
        .iter()
        .copied()
        .find(|prim| primitive_text(*prim) == name)
}

fn is_key(parts: &[KeyPart]) -> bool
    ensures { result ≡ are_types 1 (map key_arity parts.now) }
{
    let mut due: u128 = 1;
    let mut rest = parts;
    while !rest.is_empty() {
        if due == 0 {
            return false;
        }
        due = due - 1 + rest[0].arity() as u128;
        rest = &rest[1..];
    }
    due == 0
}

fn are_proper(parts: &[KeyPart]) -> bool
    ensures { result ≡ list_all is_proper parts.now }
{
    parts.iter().all(|part| is_proper(*part))
}

fn is_proper(part: KeyPart) -> bool
    ensures { result ≡ is_proper part }
{
    match part {
        KeyPart::Class { assembly, row, .. } => !(assembly == 0 && (row == 1 || row == 2)),
        KeyPart::Prim(_) | KeyPart::Vector => true,
    }
}
