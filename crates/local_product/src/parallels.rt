// Lines of runs by direction: parallel ones stand together and rise, so that through a point is found by bisection.

ghost use Rattle.std.specs.Prelude.{◌≤◌, ◌<◌, length, IfOk, IfSome};
ghost use Rattle.plane_geom.specs.Shown.{point_of};
ghost use Rattle.local_product.specs.RunLines.{AreRunLines, Rise, AreParallels, AreBefore, AreNotBefore, IsOnlyAt};

use crate::run_line::RunLine;
use plane_geom::Point;
use scatter_diagram::Diagram;
use std::alloc::{AllocError, Global};

/// The supporting lines of a diagram's runs.
pub fn lines_of(alloc: Global, e: &Diagram) -> Result<Vec<RunLine>, AllocError>
    ensures { IfOk result (λ r. AreRunLines e.now r.items) }
{
    let mut lines = Vec::with_capacity(alloc, e.run_count())?;
    for run in 0..e.run_count() {
        lines.push(RunLine::of_wall(&e.along(run)[0]))?;
    }
    Ok(lines)
}

/// Where each class of parallel lines ends. A class ends where the next line doesn't rise too, so that bisection
/// in a class is right whatever the order of the lines.
pub fn ends_of(alloc: Global, lines: &[RunLine]) -> Result<Vec<usize>, AllocError>
    ensures { IfOk result (λ r. AreParallels lines.now 0 r.items (length lines.now)) }
{
    let mut ends = Vec::new(alloc);
    let mut begin = 0;
    for i in 1..lines.len() {
        if !lines[i - 1].is_before(&lines[i]) {
            ends.push(i)?;
            begin = i;
        }
    }
    if begin < lines.len() {
        ends.push(lines.len())?;
    }
    Ok(ends)
}

/// The first of the lines from `begin` to `end` that isn't before the line, or `end`.
fn first_from(lines: &[RunLine], begin: usize, end: usize, line: &RunLine) -> usize
    requires end { end ≤ length lines.now }
    requires begin { begin ≤ end }
    requires rise { Rise begin end lines.now }
    ensures within { (begin ≤ result) × (result ≤ end) }
    ensures before { AreBefore begin result line.now lines.now }
    ensures others { AreNotBefore result end line.now lines.now }
{
    let mut low = begin;
    let mut high = end;
    'bisect: while low < high {
        let middle = low + (high - low) / 2;
        if lines[middle].compare(line).is_lt() {
            low = middle + 1;
        } else {
            high = middle;
        }
    }
    low
}

/// The one of the lines from `begin` to `end` that holds the point, if there is one.
pub fn line_through(lines: &[RunLine], begin: usize, end: usize, p: &Point) -> Option<usize>
    requires end { end ≤ length lines.now }
    requires begin { begin < end }
    requires rise { Rise begin end lines.now }
    ensures within { IfSome result (λ i. (begin ≤ i) × (i < end)) }
    ensures others { IsOnlyAt begin end (point_of p.now) lines.now result }
{
    let line = lines[begin].parallel(p);
    let at = first_from(lines, begin, end, &line);
    if at < end && lines[at].compare(&line).is_eq() {
        Some(at)
    } else {
        None
    }
}
