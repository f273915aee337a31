//! An order in which a search goes over the places of a body. What it finds does not depend on it,
//! only the time that it takes.

use crate::depth::line_at;
use crate::line::Line;
use std::alloc::{AllocError, Global};

/// A place, and how many of those to which control passes from it were looked at.
#[derive(Clone, Copy)]
struct Branch {
    at: usize,
    looked: usize,
}

/// The next place to be looked at, where there is one more.
fn next_place(lines: &[Option<Line>], branch: Branch) -> Option<Option<usize>> {
    match line_at(lines, branch.at) {
        Some(line) => line.goes.items().get(branch.looked).copied(),
        None => None,
    }
}

/// Goes on to a place that was not seen yet.
fn enter(
    seen: &mut Vec<bool>,
    path: &mut Vec<Branch>,
    place: Option<usize>,
) -> Result<(), AllocError> {
    let Some(at) = place else {
        return Ok(());
    };
    if at < seen.len() && !seen[at] {
        seen[at] = true;
        path.push(Branch { at, looked: 0 })?;
    }
    Ok(())
}

/// How many steps lead over each place and each way from one to another.
fn step_count(lines: &[Option<Line>]) -> usize {
    let mut count = lines.len();
    for line in lines {
        count = count.saturating_add(ways(line));
    }
    count
}

fn ways(line: &Option<Line>) -> usize {
    match line {
        Some(line) => line.goes.items().len(),
        None => 0,
    }
}

/// A number for each place. Along a way that does not lead back the numbers fall.
pub(crate) fn falling_numbers(
    alloc: Global,
    lines: &[Option<Line>],
) -> Result<Vec<usize>, AllocError> {
    let mut numbers = vec![in alloc; 0; lines.len()]?;
    let mut seen = vec![in alloc; false; lines.len()]?;
    let mut path = Vec::new(alloc);
    enter(&mut seen, &mut path, Some(0))?;
    let mut left: usize = 0;
    for _ in 0..step_count(lines) {
        let Some(branch) = path.pop() else {
            break;
        };
        let at = branch.at;
        let Some(place) = next_place(lines, branch) else {
            if at < numbers.len() {
                numbers[at] = left;
            }
            left = left.saturating_add(1);
            continue;
        };
        let looked = branch.looked.saturating_add(1);
        path.push(Branch { at, looked })?;
        enter(&mut seen, &mut path, place)?;
    }
    Ok(numbers)
}
