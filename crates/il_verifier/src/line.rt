//! A body as lines, one for each instruction.
ghost use Rattle.std.specs.Prelude.{◌≡◌, ◌+◌, ◌/◌, ◌*◌, ◌^◌, ◌-◌, ◌<◌, ◌≤◌, ◌++◌, ◌∷◌, [], ℕ, List, map, length, if◌then◌else◌, pos, ◌+ℤ◌, IfOk, OnOk};
ghost use Rattle.std.specs.Int.{w32, cast_signed};
ghost use Rattle.std.specs.List.{range_with_len};
ghost use Rattle.cli_words.specs.Number.{number_at};
ghost use Rattle.il_reader.specs.Instructions.{instruction_at};
ghost use Rattle.il_reader.specs.Offsets.{AreBoundaries};
ghost use Rattle.il_verifier.specs.Lines.{
  is_there,
  is_whole,
  is_used_well,
  is_proper,
  falls,
  number_in,
  place_number,
  distances,
  begun,
  leads_to,
  HasDistances,
  use_at,
  line_of,
  line_from,
  AreLines,
};
ghost use Rattle.il_verifier.specs.Search.{LeadsInside};

use crate::begins::Begins;
use crate::effect::Effect;
use crate::effects::{effect_of, places};
use crate::facts::{BodyFacts, MethodFacts, Use};
use crate::keys::is_reference;
use crate::kind::{Flow, Kind, Naming, run_of};
use cli_words::{Listed, Span, u32_at};
use il_reader::{Instr, Operand, boundaries_lie_in_the_code, distances_lie_in_the_code, next};
use std::alloc::{AllocError, Global};

/// An instruction, by what it does.
#[derive(Drop)]
pub(crate) struct Line {
    pub(crate) effect: Effect,
    /// The places to which control may pass; `None` for one at which no instruction begins.
    pub(crate) goes: Listed<Option<usize>>,
    /// The argument or local that it names is there.
    pub(crate) is_there: bool,
    /// Its member may be used as it uses it.
    pub(crate) is_proper: bool,
}

/// The argument or local that an instruction of a kind names is there.
fn is_there(facts: &BodyFacts, kind: Kind, n: usize) -> bool
    ensures { result ≡ is_there facts.now kind n }
{
    match kind {
        Kind::OfPlace(place) => n < places(facts, place).len(),
        _ => true,
    }
}

/// A method is static exactly where it is not called on an object.
fn is_whole(called: &MethodFacts) -> bool
    ensures { result ≡ is_whole called.now }
{
    called.is_static != called.has_this
}

fn is_called_well(member: Naming, called: &MethodFacts) -> bool
    ensures { result ≡ is_used_well member (Use.OfMethod called.now) }
{
    match member {
        Naming::Call => is_whole(called),
        Naming::VirtualCall => is_whole(called) && !called.is_static,
        Naming::Creation => is_whole(called) && !called.is_static && called.makes,
        _ => true,
    }
}

/// A member may be used as an instruction uses it.
fn is_used_well(member: Naming, named: &Use) -> bool
    ensures { result ≡ is_used_well member named.now }
{
    match (member, named) {
        (_, Use::OfMethod(called)) => is_called_well(member, called),
        (Naming::Field | Naming::FieldStore, Use::OfField(kept)) => {
            !kept.is_static && kept.in_class
        }
        (Naming::Static | Naming::StaticStore, Use::OfField(kept)) => kept.is_static,
        (Naming::Cast, Use::OfType(key)) => is_reference(key.key().parts()),
        _ => true,
    }
}

fn is_proper(kind: Kind, named: &Use) -> bool
    ensures { result ≡ is_proper kind named.now }
{
    match kind {
        Kind::OfMember(member) => is_used_well(member, named),
        _ => true,
    }
}

/// Control may pass to the instruction that follows.
fn falls(kind: Kind) -> bool
    ensures { result ≡ falls kind }
{
    !matches!(kind, Kind::OfFlow(Flow::Return | Flow::Jump | Flow::Throw))
}

/// The number of the argument or local in an operand, or in the opcode: the first of its run has 0.
fn place_number(first: u16, instr: Instr) -> usize
    ensures { result ≡ place_number first instr }
{
    match instr.operand {
        Operand::Nothing => usize::from(instr.code.saturating_sub(first)),
        Operand::Number(n) if n >= 0 => n as usize,
        _ => 0,
    }
}

/// The place at a distance from the end of an instruction, where an instruction begins there.
fn begun(begins: &Begins, end: usize, distance: i32) -> Option<usize>
    requires { end < 2 ^ 32 }
    ensures { result ≡ begun begins.now (pos end +ℤ distance) }
{
    let to = end as i64 + i64::from(distance);
    if to < 0 {
        return None;
    }
    let at = to as usize;
    begins.has(at).then_some(at)
}

/// Where an instruction falls to.
fn next_place(
    alloc: Global,
    begins: &Begins,
    kind: Kind,
    end: usize,
) -> Result<Vec<Option<usize>>, AllocError>
    requires { end < 2 ^ 32 }
    ensures { IfOk result (λ goes. goes.items
        ≡ map (λ distance. begun begins.now (pos end +ℤ distance)) (if falls kind then pos 0 ∷ [] else [])) }
{
    if !falls(kind) {
        return Ok(Vec::new(alloc));
    }
    Ok(vec![in alloc; begun(begins, end, 0)]?)
}

/// The place to which the distance leads that stands in the four bytes from byte `at` on.
fn target(code: &[u8], begins: &Begins, end: usize, at: usize) -> Option<usize>
    requires far { end < 2 ^ 32 }
    requires within { at + 4 ≤ length code.now }
    ensures { result
        ≡ begun begins.now (pos end +ℤ cast_signed w32 (number_at w32 code.now at)) }
{
    begun(begins, end, u32_at(code, at).cast_signed())
}

/// The places to which a switch may lead.
fn push_targets(
    code: &[u8],
    begins: &Begins,
    end: usize,
    span: Span,
    goes: &mut Vec<Option<usize>>,
) -> Result<(), AllocError>
    requires far { end < 2 ^ 32 }
    requires within { span.at + span.len ≤ length code.now }
    ensures { OnOk result (goes.new.items ≡ goes.old.items
        ++ map (λ distance. begun begins.now (pos end +ℤ distance)) (distances code.now (Operand.Switch span))) }
{
    for n in 0..span.len / 4 {
        goes.push(target(code, begins, end, span.at + 4 * n))?;
    }
    Ok(())
}

/// The places to which an operand may lead.
fn push_places(
    code: &[u8],
    begins: &Begins,
    end: usize,
    operand: Operand,
    goes: &mut Vec<Option<usize>>,
) -> Result<(), AllocError>
    requires far { end < 2 ^ 32 }
    requires within { HasDistances code.now operand }
    ensures { OnOk result (goes.new.items ≡ goes.old.items
        ++ map (λ distance. begun begins.now (pos end +ℤ distance)) (distances code.now operand)) }
{
    match operand {
        Operand::Switch(span) => push_targets(code, begins, end, span, goes),
        Operand::Branch(distance) => push_place(begun(begins, end, distance), goes),
        _ => Ok(()),
    }
}

fn push_place(place: Option<usize>, goes: &mut Vec<Option<usize>>) -> Result<(), AllocError>
    ensures { OnOk result (goes.new.items ≡ goes.old.items ++ place ∷ []) }
{
    goes.push(place)?;
    Ok(())
}

/// The places to which control may pass from an instruction that ends at a place.
fn leads_to(
    alloc: Global,
    code: &[u8],
    begins: &Begins,
    kind: Kind,
    operand: Operand,
    end: usize,
) -> Result<Listed<Option<usize>>, AllocError>
    requires far { end < 2 ^ 32 }
    requires within { HasDistances code.now operand }
    ensures { IfOk result (λ goes. goes ≡ leads_to code.now begins.now kind operand end) }
{
    let mut goes = next_place(alloc, begins, kind, end)?;
    push_places(code, begins, end, operand, &mut goes)?;
    Ok(Listed::of(goes))
}

/// The line of an instruction of a kind, with the first opcode of its run, the place after it, and
/// what its token names.
fn line_of(
    alloc: Global,
    facts: &BodyFacts,
    begins: &Begins,
    instr: Instr,
    end: usize,
    run: (u16, Kind),
    named: &Use,
) -> Result<Line, AllocError>
    requires far { end < 2 ^ 32 }
    requires within { HasDistances facts.now.code instr.operand }
    ensures { IfOk result (λ line. line ≡ line_of facts.now begins.now instr end run named.now) }
{
    let (first, kind) = run;
    let n = place_number(first, instr);
    let effect = effect_of(alloc, facts, kind, n, named)?;
    let goes = leads_to(alloc, facts.code.items(), begins, kind, instr.operand, end)?;
    Ok(Line {
        effect,
        goes,
        is_there: is_there(facts, kind, n),
        is_proper: is_proper(kind, named),
    })
}

/// The same, with what its token names at a place.
fn line_named(
    alloc: Global,
    facts: &BodyFacts,
    begins: &Begins,
    at: usize,
    instr: Instr,
    end: usize,
    run: (u16, Kind),
) -> Result<Line, AllocError>
    requires far { end < 2 ^ 32 }
    requires within { HasDistances facts.now.code instr.operand }
    ensures { IfOk result (λ line.
        line ≡ line_of facts.now begins.now instr end run (use_at facts.now at)) }
{
    match facts.uses.items().get(at) {
        Some(named) => line_of(alloc, facts, begins, instr, end, run, named),
        None => line_of(alloc, facts, begins, instr, end, run, &Use::Plain),
    }
}

/// The line of the instruction that begins at a place, where one of a kind begins there.
fn line_from(
    alloc: Global,
    facts: &BodyFacts,
    begins: &Begins,
    at: usize,
) -> Result<Option<Line>, AllocError>
    requires { length facts.now.code < 2 ^ 32 - 1 }
    ensures { IfOk result (λ line. line ≡ line_from facts.now begins.now at) }
{
    if !begins.has(at) {
        return Ok(None);
    }
    distances_lie_in_the_code();
    let Ok((instr, end)) = next(facts.code.items(), at) else {
        return Ok(None);
    };
    let Some((first, _, kind)) = run_of(instr.code) else {
        return Ok(None);
    };
    Ok(Some(line_named(alloc, facts, begins, at, instr, end, (first, kind))?))
}

/// The lines at the bytes of a code whose instructions begin at these places.
fn lines_from(
    alloc: Global,
    facts: &BodyFacts,
    begins: &Begins,
) -> Result<Vec<Option<Line>>, AllocError>
    requires { length facts.now.code < 2 ^ 32 - 1 }
    ensures { IfOk result (λ lines. lines.items
        ≡ map (line_from facts.now begins.now) (range_with_len 0 (length facts.now.code))) }
{
    let mut lines = Vec::new(alloc);
    for at in 0..facts.code.items().len() {
        lines.push(line_from(alloc, facts, begins, at)?)?;
    }
    Ok(lines)
}

/// The lines of a body, by the bytes of its code: the line of each instruction at its first byte.
pub(crate) fn lines(alloc: Global, facts: &BodyFacts) -> Result<Vec<Option<Line>>, AllocError>
    requires whole { (places : List ℕ) × AreBoundaries facts.now.code places }
    requires short { length facts.now.code < 2 ^ 32 - 1 }
    ensures lines { IfOk result (λ lines. AreLines facts.now lines.items) }
    ensures inside { IfOk result (λ lines. LeadsInside lines.items) }
{
    boundaries_lie_in_the_code();
    let begins = Begins::of(alloc, facts.code.items())?;
    lines_from(alloc, facts, &begins)
}
