//! The depth of the stack at each place of a body.
ghost use Rattle.std.specs.Prelude.{◌≡◌, ◌⊎◌, ◌↔◌, ◌+◌, ◌^◌, ◌<◌, ◌≤◌, ℕ, Bool, ◌&&◌, ◌∷◌, ◌++◌, [], if◌then◌else◌, IsTrue, is_some, is_none, not, length, option_map, option_copied, suc, min, slice_set, Contains, None, Some, IfOk, OnOk};
ghost use Rattle.std.specs.List.{All};
ghost use Rattle.il_verifier.specs.Effects.{takes, is_return, depth_after};
ghost use Rattle.il_verifier.specs.Lines.{line_at};
ghost use Rattle.il_verifier.specs.Depths.{lacks, overflows, is_stuck, is_place, start};
ghost use Rattle.il_verifier.specs.Search.{
  depth_at,
  found_at,
  handed,
  lesser,
  better,
  brings_by,
  is_among,
  LeadsInside,
  AreLow,
  AreClear,
  AreBest,
  AreFound,
  AreNoted,
  AreListed,
  AreBettered,
  AreDepths,
  HasSought,
  missing,
};

use crate::effect::{Effect, Operands};
use crate::filled::nothing_at;
use crate::line::Line;
use std::alloc::{AllocError, Global};

/// How many operands there are.
pub(crate) fn takes(operands: &Operands) -> usize
    ensures { result ≡ takes operands.now }
{
    match operands {
        Operands::Each(wants) => wants.items().len(),
        Operands::Agreeing(_) => 2,
        Operands::Returned(None) => 0,
        Operands::Returned(Some(_)) => 1,
    }
}

/// The depth after an instruction; that of a return is never below 0.
fn depth_after(effect: &Effect, depth: usize) -> usize
    requires { depth < 2 ^ 16 }
    ensures { result ≡ depth_after effect.now depth }
{
    depth.saturating_sub(takes(&effect.operands)) + effect.gives.items().len()
}

/// Fewer operands than needed.
pub(crate) fn lacks(line: &Line, depth: usize) -> bool
    ensures { result ≡ lacks line.now depth }
{
    let operands = &line.effect.operands;
    !matches!(operands, Operands::Returned(_)) && depth < takes(operands)
}

/// More values after the instruction than a body may have.
pub(crate) fn overflows(max: u16, line: &Line, depth: usize) -> bool
    requires { depth < 2 ^ 16 }
    ensures { result ≡ overflows max line.now depth }
{
    usize::from(max) < depth_after(&line.effect, depth)
}

/// An instruction that hands on nothing.
fn is_stuck(max: u16, line: &Line, depth: usize) -> bool
    requires { depth < 2 ^ 16 }
    ensures { result ≡ is_stuck max line.now depth }
{
    lacks(line, depth) || overflows(max, line, depth) || !line.is_there || !line.is_proper
}

/// The depth that an instruction hands on, where it does.
pub(crate) fn handed(max: u16, line: &Line, depth: usize) -> Option<usize>
    requires { depth < 2 ^ 16 }
    ensures { result ≡ handed max line.now depth }
{
    if is_stuck(max, line, depth) {
        return None;
    }
    Some(depth_after(&line.effect, depth))
}

/// The line at a place.
pub(crate) fn line_at(lines: &[Option<Line>], at: usize) -> Option<&Line>
    ensures { option_copied result ≡ line_at lines.now at }
{
    match lines.get(at) {
        Some(line) => line.as_ref(),
        None => None,
    }
}

/// Of two places that bring a depth the lesser one.
fn lesser(best: Option<(usize, usize)>, from: usize, depth: usize) -> Option<(usize, usize)>
    ensures { result ≡ lesser best from depth }
{
    match best {
        Some(best) if best.0 <= from => Some(best),
        _ => Some((from, depth)),
    }
}

/// One more place, where it is a new one.
fn push_new(next: &mut Vec<usize>, is_new: bool, to: usize) -> Result<(), AllocError>
    ensures { OnOk result (next.new.items
        ≡ (if is_new then next.old.items ++ to ∷ [] else next.old.items)) }
{
    if is_new {
        next.push(to)?;
    }
    Ok(())
}

/// Notes for a place, where it has no depth yet, that another brings a depth to it.
fn note(
    depths: &[Option<usize>],
    from: usize,
    depth: usize,
    to: usize,
    found: &mut Vec<Option<(usize, usize)>>,
    next: &mut Vec<usize>,
) -> Result<(), AllocError>
    requires within { to < length depths.now }
    requires sized { length found.old.items ≡ length depths.now }
    ensures kept { length found.new.items ≡ length found.old.items }
    ensures noted { OnOk result (AreNoted depths.now (λ place. is_place place (Some to)) from depth
        found.old.items found.new.items) }
    ensures listed { OnOk result (AreListed depths.now (λ place. is_place place (Some to))
        found.old.items next.old.items next.new.items) }
{
    if depths[to].is_some() {
        return Ok(());
    }
    let best = found[to];
    found[to] = lesser(best, from, depth);
    push_new(next, best.is_none(), to)
}

/// The same for a place to which an instruction leads, where one begins there.
fn note_place(
    depths: &[Option<usize>],
    from: usize,
    depth: usize,
    place: Option<usize>,
    found: &mut Vec<Option<(usize, usize)>>,
    next: &mut Vec<usize>,
) -> Result<(), AllocError>
    requires within { (to : ℕ) → IsTrue (is_place to place) → to < length depths.now }
    requires sized { length found.old.items ≡ length depths.now }
    ensures kept { length found.new.items ≡ length found.old.items }
    ensures noted { OnOk result (AreNoted depths.now (λ to. is_place to place) from depth
        found.old.items found.new.items) }
    ensures listed { OnOk result (AreListed depths.now (λ to. is_place to place)
        found.old.items next.old.items next.new.items) }
{
    match place {
        Some(to) => note(depths, from, depth, to, found, next),
        None => Ok(()),
    }
}

/// The same for each place to which an instruction leads.
fn note_line(
    depths: &[Option<usize>],
    from: usize,
    depth: usize,
    goes: &[Option<usize>],
    found: &mut Vec<Option<(usize, usize)>>,
    next: &mut Vec<usize>,
) -> Result<(), AllocError>
    requires within { (to : ℕ) → IsTrue (is_among goes.now to) → to < length depths.now }
    requires sized { length found.old.items ≡ length depths.now }
    ensures kept { length found.new.items ≡ length found.old.items }
    ensures noted { OnOk result (AreNoted depths.now (is_among goes.now) from depth
        found.old.items found.new.items) }
    ensures listed { OnOk result (AreListed depths.now (is_among goes.now)
        found.old.items next.old.items next.new.items) }
{
    for place in goes {
        note_place(depths, from, depth, *place, found, next)?;
    }
    Ok(())
}

/// The same for each place to which a place hands on.
fn survey_from(
    max: u16,
    lines: &[Option<Line>],
    depths: &[Option<usize>],
    from: usize,
    found: &mut Vec<Option<(usize, usize)>>,
    next: &mut Vec<usize>,
) -> Result<(), AllocError>
    requires inside { LeadsInside lines.now }
    requires long { length lines.now ≤ length depths.now }
    requires low { AreLow max depths.now }
    requires reached { from < length depths.now }
    requires sized { length found.old.items ≡ length depths.now }
    ensures kept { length found.new.items ≡ length found.old.items }
    ensures bettered { OnOk result (AreBettered depths.now from
        (λ to. brings_by max lines.now depths.now to from) found.old.items found.new.items) }
    ensures listed { OnOk result (AreListed depths.now
        (λ to. is_some (brings_by max lines.now depths.now to from))
        found.old.items next.old.items next.new.items) }
{
    let Some(line) = line_at(lines, from) else {
        return Ok(());
    };
    let Some(depth) = depths[from] else {
        return Ok(());
    };
    let Some(after) = handed(max, line, depth) else {
        return Ok(());
    };
    note_line(depths, from, after, line.goes.items(), found, next)
}

/// The places without a depth to which the newest places hand on, and for each of them the least
/// place that does, with the depth that it brings.
fn survey(
    alloc: Global,
    max: u16,
    lines: &[Option<Line>],
    depths: &[Option<usize>],
    newest: &[usize],
    found: &mut Vec<Option<(usize, usize)>>,
) -> Result<Vec<usize>, AllocError>
    requires inside { LeadsInside lines.now }
    requires long { length lines.now ≤ length depths.now }
    requires low { AreLow max depths.now }
    requires within { All (λ from. from < length depths.now) newest.now }
    requires sized { length found.old.items ≡ length depths.now }
    requires clear { AreClear depths.now found.old.items }
    ensures kept { length found.new.items ≡ length found.old.items }
    ensures best { OnOk result (AreBest max lines.now depths.now newest.now found.new.items) }
    ensures next { IfOk result (λ next. AreFound depths.now found.new.items next.items) }
{
    let mut next = Vec::new(alloc);
    for from in newest {
        survey_from(max, lines, depths, *from, found, &mut next)?;
    }
    Ok(next)
}

fn depth_found(best: Option<(usize, usize)>) -> Option<usize>
    ensures { result ≡ option_map (λ best. best.1) best }
{
    best.map(|best| best.1)
}

/// Gives each place its depth for which one was found.
fn settle(depths: &mut Vec<Option<usize>>, found: &[Option<(usize, usize)>], next: &[usize])
    requires within { All (λ to. to < length depths.old.items) next.now }
    requires sized { length found.now ≡ length depths.old.items }
    ensures kept { length depths.new.items ≡ length depths.old.items }
    ensures settled { (to : ℕ) → Contains next.now to →
        depth_at depths.new.items to ≡ option_map (λ best. best.1) (found_at found.now to) }
    ensures others { (to : ℕ) → (Contains next.now to → ⊥) →
        depth_at depths.new.items to ≡ depth_at depths.old.items to }
{
    for to in next {
        depths[*to] = depth_found(found[*to]);
    }
}

/// One round of the search: the places that are fresh in the next round get their depths.
fn advance(
    alloc: Global,
    max: u16,
    lines: &[Option<Line>],
    newest: &[usize],
    depths: &mut Vec<Option<usize>>,
    found: &mut Vec<Option<(usize, usize)>>,
) -> Result<Vec<usize>, AllocError>
    requires inside { LeadsInside lines.now }
    requires long { length lines.now ≤ length depths.old.items }
    requires low { AreLow max depths.old.items }
    requires within { All (λ from. from < length depths.old.items) newest.now }
    requires sized { length found.old.items ≡ length depths.old.items }
    requires clear { AreClear depths.old.items found.old.items }
    ensures kept { OnOk result (length depths.new.items ≡ length depths.old.items) }
    ensures sized { OnOk result (length found.new.items ≡ length depths.new.items) }
    ensures low { OnOk result (AreLow max depths.new.items) }
    ensures clear { OnOk result (AreClear depths.new.items found.new.items) }
    ensures within { IfOk result (λ next. All (λ to. to < length depths.new.items) next.items) }
    ensures fewer { IfOk result (λ next.
        missing depths.new.items + min 1 (length next.items) ≤ missing depths.old.items) }
    ensures sought { IfOk result (λ next. (k : ℕ) → HasSought max lines.now k depths.old.items newest.now →
        HasSought max lines.now (suc k) depths.new.items next.items) }
{
    let next = survey(alloc, max, lines, depths, newest, found)?;
    settle(depths, found, &next);
    Ok(next)
}

/// Where a search begins: 0 at the first of so many places, and nothing at the others.
pub(crate) fn start(alloc: Global, size: usize) -> Result<Vec<Option<usize>>, AllocError>
    requires { 0 < size }
    ensures len { IfOk result (λ depths. length depths.items ≡ size) }
    ensures start { IfOk result (λ depths. (at : ℕ) → depth_at depths.items at ≡ start at) }
{
    let mut depths = nothing_at(alloc, size)?;
    depths[0] = Some(0);
    Ok(depths)
}

/// The depth of the stack at each place of a body that is reached, by rounds.
pub(crate) fn depths(
    alloc: Global,
    max: u16,
    lines: &[Option<Line>],
) -> Result<Vec<Option<usize>>, AllocError>
    requires { LeadsInside lines.now }
    ensures depths { IfOk result (λ depths. AreDepths max lines.now depths.items) }
    ensures low { IfOk result (λ depths. AreLow max depths.items) }
    ensures long { IfOk result (λ depths. length lines.now ≤ length depths.items) }
{
    let size = lines.len().max(1);
    let mut depths = start(alloc, size)?;
    let mut found = nothing_at(alloc, size)?;
    let mut newest = vec![in alloc; 0]?;
    'rounds: while !newest.is_empty() {
        newest = advance(alloc, max, lines, &newest, &mut depths, &mut found)?;
    }
    Ok(depths)
}
