//! The first fault of a body.
ghost use Rattle.std.specs.Prelude.{◌≡◌, ◌<◌, ◌≤◌, ◌^◌, ◌||◌, ◌&&◌, ℕ, Bool, false, Some, IsTrue, length, slice_index_or, option_copied, IfOk};
ghost use Rattle.std.specs.Prelude.{is_none};
ghost use Rattle.std.specs.List.{list_any};
ghost use Rattle.std.specs.Option.{option_and_then};
ghost use Rattle.il_verifier.specs.Lines.{line_at};
ghost use Rattle.il_verifier.specs.Depths.{is_place};
ghost use Rattle.il_verifier.specs.Faults.{FailsDepths, depth_rules};
ghost use Rattle.il_verifier.specs.Search.{
  depth_at,
  differs,
  depth_rule,
  is_among,
  brings_by,
  LeadsInside,
  AreLow,
  AreDepths,
  AreMarked,
  IsFirstOrNone,
};

use crate::depth::{handed, lacks, line_at, overflows};
use crate::line::Line;
use host_events::VerifyRule;
use std::alloc::{AllocError, Global};

/// The first rule on depths that fails at a place of a depth, to which another depth is brought or
/// not.
fn depth_rule(max: u16, line: Option<&Line>, depth: usize, other: bool) -> Option<VerifyRule>
    requires { depth < 2 ^ 16 }
    ensures { result ≡ depth_rule max (option_copied line.entry) depth other }
{
    if other {
        return Some(VerifyRule::Depth);
    }
    let Some(line) = line else {
        return Some(VerifyRule::Target);
    };
    line_rule(max, line, depth)
}

fn line_rule(max: u16, line: &Line, depth: usize) -> Option<VerifyRule>
    requires { depth < 2 ^ 16 }
    ensures { result ≡ depth_rule max (Some line.now) depth false }
{
    if lacks(line, depth) {
        return Some(VerifyRule::Underflow);
    }
    if overflows(max, line, depth) {
        return Some(VerifyRule::MaxStack);
    }
    if !line.is_there {
        return Some(VerifyRule::Index);
    }
    if leads_astray(line) {
        return Some(VerifyRule::Target);
    }
    (!line.is_proper).then_some(VerifyRule::Member)
}

/// Control may pass to a place where no instruction begins.
fn leads_astray(line: &Line) -> bool
    ensures { result ≡ list_any is_none line.now.goes }
{
    line.goes.items().iter().any(|place| place.is_none())
}

/// A depth that is brought is another than that of a place.
fn differs(depth: usize, own: Option<usize>) -> bool
    ensures { result ≡ differs (Some depth) own }
{
    match own {
        Some(own) => depth != own,
        None => true,
    }
}

/// Marks a place that has another depth than the one that is brought to it.
fn mark_at(depths: &[Option<usize>], depth: usize, to: usize, marks: &mut Vec<bool>)
    requires within { to < length depths.now }
    requires sized { length marks.old.items ≡ length depths.now }
    ensures kept { length marks.new.items ≡ length marks.old.items }
    ensures marked { (at : ℕ) → slice_index_or marks.new.items at false
        ≡ (slice_index_or marks.old.items at false
        || (is_place at (Some to) && differs (Some depth) (depth_at depths.now at))) }
{
    if !differs(depth, depths[to]) {
        return;
    }
    marks[to] = true;
}

/// The same for a place to which an instruction leads, where one begins there.
fn mark_place(depths: &[Option<usize>], depth: usize, place: Option<usize>, marks: &mut Vec<bool>)
    requires within { (to : ℕ) → IsTrue (is_place to place) → to < length depths.now }
    requires sized { length marks.old.items ≡ length depths.now }
    ensures kept { length marks.new.items ≡ length marks.old.items }
    ensures marked { (at : ℕ) → slice_index_or marks.new.items at false
        ≡ (slice_index_or marks.old.items at false
        || (is_place at place && differs (Some depth) (depth_at depths.now at))) }
{
    match place {
        Some(to) => mark_at(depths, depth, to, marks),
        None => {}
    }
}

/// The same for each place to which an instruction leads.
fn mark_line(depths: &[Option<usize>], depth: usize, goes: &[Option<usize>], marks: &mut Vec<bool>)
    requires within { (to : ℕ) → IsTrue (is_among goes.now to) → to < length depths.now }
    requires sized { length marks.old.items ≡ length depths.now }
    ensures kept { length marks.new.items ≡ length marks.old.items }
    ensures marked { (at : ℕ) → slice_index_or marks.new.items at false
        ≡ (slice_index_or marks.old.items at false
        || (is_among goes.now at && differs (Some depth) (depth_at depths.now at))) }
{
    for place in goes {
        mark_place(depths, depth, *place, marks);
    }
}

/// The same for each place to which a place hands on.
fn mark_from(
    max: u16,
    lines: &[Option<Line>],
    depths: &[Option<usize>],
    from: usize,
    marks: &mut Vec<bool>,
)
    requires inside { LeadsInside lines.now }
    requires long { length lines.now ≤ length depths.now }
    requires low { AreLow max depths.now }
    requires reached { from < length depths.now }
    requires sized { length marks.old.items ≡ length depths.now }
    ensures kept { length marks.new.items ≡ length marks.old.items }
    ensures marked { (at : ℕ) → slice_index_or marks.new.items at false
        ≡ (slice_index_or marks.old.items at false
        || differs (brings_by max lines.now depths.now at from) (depth_at depths.now at)) }
{
    let Some(line) = line_at(lines, from) else {
        return;
    };
    let Some(depth) = depths[from] else {
        return;
    };
    let Some(after) = handed(max, line, depth) else {
        return;
    };
    mark_line(depths, after, line.goes.items(), marks);
}

/// Whether another depth than its own is brought to each place.
fn other_depths(
    alloc: Global,
    max: u16,
    lines: &[Option<Line>],
    depths: &[Option<usize>],
) -> Result<Vec<bool>, AllocError>
    requires inside { LeadsInside lines.now }
    requires long { length lines.now ≤ length depths.now }
    requires low { AreLow max depths.now }
    ensures kept { IfOk result (λ marks. length marks.items ≡ length depths.now) }
    ensures marked { IfOk result (λ marks.
        AreMarked max lines.now depths.now (length lines.now) marks.items) }
{
    let mut marks = vec![in alloc; false; depths.len()]?;
    for from in 0..lines.len() {
        mark_from(max, lines, depths, from, &mut marks);
    }
    Ok(marks)
}

/// The first rule on depths that fails at a place.
fn rule_at(
    max: u16,
    lines: &[Option<Line>],
    depths: &[Option<usize>],
    others: &[bool],
    at: usize,
) -> Option<VerifyRule>
    requires within { at < length depths.now }
    requires sized { length others.now ≡ length depths.now }
    requires low { AreLow max depths.now }
    ensures { result ≡ option_and_then
        (λ depth. depth_rule max (line_at lines.now at) depth (slice_index_or others.now at false))
        (depth_at depths.now at) }
{
    match depths[at] {
        Some(depth) => depth_rule(max, line_at(lines, at), depth, others[at]),
        None => None,
    }
}

/// The first place at which a rule on depths fails, by the places to which other depths are brought.
fn first_by_depths(
    max: u16,
    lines: &[Option<Line>],
    depths: &[Option<usize>],
    others: &[bool],
) -> Option<(usize, VerifyRule)>
    requires depths { AreDepths max lines.now depths.now }
    requires low { AreLow max depths.now }
    requires sized { length others.now ≡ length depths.now }
    requires marked { AreMarked max lines.now depths.now (length lines.now) others.now }
    ensures { IsFirstOrNone (FailsDepths max lines.now) depth_rules result }
{
    for at in 0..depths.len() {
        if let Some(rule) = rule_at(max, lines, depths, others, at) {
            return Some((at, rule));
        }
    }
    None
}

/// The first place at which a rule on depths fails, with the first of the rules that fail there.
pub(crate) fn depth_fault(
    alloc: Global,
    max: u16,
    lines: &[Option<Line>],
    depths: &[Option<usize>],
) -> Result<Option<(usize, VerifyRule)>, AllocError>
    requires inside { LeadsInside lines.now }
    requires depths { AreDepths max lines.now depths.now }
    requires low { AreLow max depths.now }
    requires long { length lines.now ≤ length depths.now }
    ensures { IfOk result (IsFirstOrNone (FailsDepths max lines.now) depth_rules) }
{
    let others = other_depths(alloc, max, lines, depths)?;
    Ok(first_by_depths(max, lines, depths, &others))
}
