// Completions, order by order and at once.

ghost use Rattle.std.specs.Prelude.{◌<◌};
ghost use Rattle.limits.specs.Limits.{highest_order};

use crate::examples::{
    has_diagonal, has_plain_diagonal, has_rays_of_squares, has_three_rays, squares, three_lines,
    two_lines,
};
use plane_geom::Point;
use sample_walls::monomials::{ONE, T1T2_XXYY, T2_XXY, T2_XYY, T3_X, X, XY, Y};
use sample_walls::{axes, line};
use scatter_diagram::{Diagram, Initial, StopCause, WallKind};
use scatter_step::{Completed, complete_plain};
use std::alloc::Global;
use std::test::Fail;
use std::thread::Threads;

// ---- two lines

fn two_lines_have_one_ray(alloc: Global, order: bool) -> Result<bool, Fail> {
    let order = if order { 24 } else { 2 };
    let outcome = complete_plain(alloc, &two_lines(alloc)?, order)?;
    Ok(
        outcome.stop.is_none()
            && outcome.last.order() == order
            && has_plain_diagonal(outcome.last.diagram()),
    )
}

// The lines (1, 0) and (1, 2), of determinant 2.
fn slanted_lines_have_one_ray(alloc: Global) -> Result<bool, Fail> {
    let mut lines = Vec::new(alloc);
    lines.push(line(alloc, 0, 0, 1, 0, &[(ONE, 1), (X, 1)])?)?;
    lines.push(line(alloc, 0, 0, 1, 2, &[(ONE, 1), (T2_XYY, 1)])?)?;
    let outcome = complete_plain(alloc, &Initial::new(2, lines), 2)?;
    Ok(has_diagonal(outcome.last.diagram(), &[(ONE, 1), (T1T2_XXYY, 4)]))
}

fn negative_lines_have_one_ray(alloc: Global) -> Result<bool, Fail> {
    let lines = axes(alloc, 24, &[(ONE, 1), (X, -1)], &[(ONE, 1), (Y, 1)])?;
    let outcome = complete_plain(alloc, &Initial::new(2, lines), 4)?;
    Ok(has_diagonal(outcome.last.diagram(), &[(ONE, 1), (XY, -1)]))
}

fn parallel_lines_have_no_ray(alloc: Global) -> Result<bool, Fail> {
    let mut lines = Vec::new(alloc);
    lines.push(line(alloc, 0, 0, 1, 0, &[(ONE, 1), (X, 1)])?)?;
    lines.push(line(alloc, 0, 3, 1, 0, &[(ONE, 1), (T3_X, 1)])?)?;
    let outcome = complete_plain(alloc, &Initial::new(3, lines), 6)?;
    Ok(outcome.stop.is_none() && outcome.last.diagram().ray_count() == 0)
}

#[test]
fn pairs_of_lines(rt: HostRuntime) -> Result<(), Fail> {
    assert!(rt; two_lines_have_one_ray(rt.alloc(), false)?);
    assert!(rt; two_lines_have_one_ray(rt.alloc(), true)?);
    assert!(rt; slanted_lines_have_one_ray(rt.alloc())?);
    assert!(rt; negative_lines_have_one_ray(rt.alloc())?);
    assert!(rt; parallel_lines_have_no_ray(rt.alloc())?);
    Ok(())
}

// ---- more lines, and more terms

// Whether one wall alone lies along that supporting line: of this kind, along dir, at (x, y).
fn has_run(e: &Diagram, run: usize, kind: WallKind, dir: (i32, i32), at: (i64, i64)) -> bool {
    if run >= e.run_count() {
        return false;
    }
    match e.along(run) {
        [w] => {
            w.kind == kind
                && (w.dir.a, w.dir.b) == dir
                && (w.at.x, w.at.y, w.at.w) == (at.0, at.1, 1)
        }
        _ => false,
    }
}

fn has_six_runs(e: &Diagram) -> bool {
    e.run_count() == 6
        && has_run(e, 0, WallKind::Line, (0, 1), (0, 0))
        && has_run(e, 1, WallKind::Line, (1, 0), (0, 0))
        && has_run(e, 2, WallKind::Line, (1, 0), (0, 1))
        && has_run(e, 3, WallKind::Outgoing, (1, 1), (0, 0))
        && has_run(e, 4, WallKind::Outgoing, (1, 1), (0, 1))
        && has_run(e, 5, WallKind::Outgoing, (2, 1), (-1, 0))
}

fn three_lines_have_six_runs(alloc: Global) -> Result<bool, Fail> {
    let outcome = complete_plain(alloc, &three_lines(alloc)?, 3)?;
    Ok(outcome.stop.is_none() && has_six_runs(outcome.last.diagram()))
}

fn three_lines_have_a_ray_where_rays_cross(alloc: Global) -> Result<bool, Fail> {
    let outcome = complete_plain(alloc, &three_lines(alloc)?, 3)?;
    Ok(outcome.stop.is_none() && has_three_rays(outcome.last.diagram()))
}

fn squares_have_three_rays(alloc: Global) -> Result<bool, Fail> {
    let outcome = complete_plain(alloc, &squares(alloc)?, 4)?;
    let copy = outcome.copy()?;
    Ok(
        outcome.stop.is_none()
            && has_rays_of_squares(outcome.last.diagram())
            && has_rays_of_squares(copy.last.diagram()),
    )
}

// Whether the diagram, cut to order 2, has the one ray of order 2.
fn has_diagonal_when_cut(e: &Diagram) -> Result<bool, Fail> {
    if e.order() < 2 {
        return Ok(false);
    }
    let cut = e.truncate(2)?;
    Ok(has_diagonal(&cut, &[(ONE, 1), (XY, 4)]))
}

// Whether the completion at order 4 has that ray.
fn a_cut_completion_is_that_of_the_order(alloc: Global) -> Result<bool, Fail> {
    let outcome = complete_plain(alloc, &squares(alloc)?, 4)?;
    has_diagonal_when_cut(outcome.last.diagram())
}

#[test]
fn more_rays(rt: HostRuntime) -> Result<(), Fail> {
    assert!(rt; three_lines_have_a_ray_where_rays_cross(rt.alloc())?);
    assert!(rt; three_lines_have_six_runs(rt.alloc())?);
    assert!(rt; squares_have_three_rays(rt.alloc())?);
    assert!(rt; a_cut_completion_is_that_of_the_order(rt.alloc())?);
    Ok(())
}

// ---- one order at a time

// Whether order 0 has the lines alone, and a copy of it too.
fn order_zero_has_the_lines(alloc: Global) -> Result<bool, Fail> {
    let start = Completed::start(alloc, &two_lines(alloc)?)?;
    let copy = start.copy()?;
    Ok(
        start.order() == 0
            && start.initial().vars() == 2
            && copy.diagram().line_count() == 2
            && copy.diagram().ray_count() == 0,
    )
}

fn is_origin_alone(points: &[Point]) -> bool {
    match points {
        [p] => (p.x, p.y, p.w) == (0, 0, 1),
        _ => false,
    }
}

// Whether the origin is the one point of the next order.
fn has_origin_as_task<R: Threads + Sync>(rt: &R, last: &Completed) -> bool
    requires { last.now.order < highest_order }
{
    match last.tasks(rt) {
        Ok(points) => is_origin_alone(points.as_slice()),
        Err(_) => false,
    }
}

// Whether the origin is the one point of order 2.
fn order_two_has_a_task<R: Threads + Sync>(rt: &R, alloc: Global) -> Result<bool, Fail> {
    let start = Completed::start(alloc, &two_lines(alloc)?)?;
    match start.next_order() {
        Ok(first) => Ok(has_origin_as_task(rt, &first)),
        Err(_) => Ok(false),
    }
}

#[test]
fn orders(rt: HostRuntime) -> Result<(), Fail> {
    assert!(rt; order_zero_has_the_lines(rt.alloc())?);
    assert!(rt; order_two_has_a_task(&rt, rt.alloc())?);
    Ok(())
}

// ---- stops

fn a_heavy_point_stops_order_four(alloc: Global) -> Result<bool, Fail> {
    let x = [(ONE, 1), (X, 2147483647)];
    let y = [(ONE, 1), (Y, 2147483647)];
    let initial = Initial::new(2, axes(alloc, 24, &x, &y)?);
    let outcome = complete_plain(alloc, &initial, 24)?;
    let ray = [(ONE, 1), (XY, 4611686014132420609)];
    Ok(
        outcome.stop == Some((4, StopCause::WeightTooLarge))
            && outcome.last.order() == 3
            && has_diagonal(outcome.last.diagram(), &ray),
    )
}

fn a_far_point_stops_order_two(alloc: Global) -> Result<bool, Fail> {
    let mut lines = Vec::new(alloc);
    lines.push(line(alloc, 0, 1 << 40, 1, 0, &[(ONE, 1), (X, 1)])?)?;
    lines.push(line(alloc, 0, 0, 2, 1, &[(ONE, 1), (T2_XXY, 1)])?)?;
    let outcome = complete_plain(alloc, &Initial::new(2, lines), 24)?;
    Ok(outcome.stop == Some((2, StopCause::PointTooLarge)) && outcome.last.order() == 1)
}

#[test]
fn stops(rt: HostRuntime) -> Result<(), Fail> {
    assert!(rt; a_heavy_point_stops_order_four(rt.alloc())?);
    assert!(rt; a_far_point_stops_order_two(rt.alloc())?);
    Ok(())
}
