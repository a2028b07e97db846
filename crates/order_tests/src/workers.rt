// Completions order by order, by workers.

ghost use Rattle.std.specs.Prelude.{◌≡◌, ◌+◌, ◌<◌, ◌≤◌, IfOk};
ghost use Rattle.limits.specs.Limits.{highest_order, most_workers};

use crate::examples::{
    has_plain_diagonal, has_rays_of_squares, has_three_rays, squares, three_lines, two_lines,
};
use joint_workers::correct_all;
use outside_io::OpenGate;
use scatter_diagram::{Initial, Stop};
use scatter_step::Completed;
use std::alloc::Global;
use std::test::Fail;
use std::thread::Threads;

// The completion of the next order.
fn next<R: Threads + Sync>(
    rt: &R,
    alloc: Global,
    last: &Completed,
    workers: u32,
) -> Result<Completed, Stop>
    requires order { last.now.order < highest_order }
    requires some { 1 ≤ workers }
    requires few { workers ≤ most_workers }
    ensures { IfOk result (λ c. c.order ≡ last.now.order + 1) }
{
    let points = last.tasks(rt)?;
    let corrections = correct_all(rt, alloc, last, points.as_slice(), workers, &OpenGate)?;
    last.advance(corrections.as_slice())
}

// The completion of the order, from that of order 0.
fn completed<R: Threads + Sync>(
    rt: &R,
    alloc: Global,
    initial: &Initial,
    order: u32,
    workers: u32,
) -> Result<Completed, Fail>
    requires order { order ≤ highest_order }
    requires some { 1 ≤ workers }
    requires few { workers ≤ most_workers }
{
    let mut last = Completed::start(alloc, initial)?;
    for _ in 0..order {
        match next(rt, alloc, &last, workers) {
            Ok(after) => last = after,
            Err(_) => return Err(Fail::from("stopped")),
        }
    }
    Ok(last)
}

// Whether order 0 of no lines has no points, and 16 workers give no corrections.
fn no_points_have_no_corrections<R: Threads + Sync>(rt: &R, alloc: Global) -> Result<bool, Fail> {
    let start = Completed::start(alloc, &Initial::new(1, Vec::new(alloc)))?;
    let Ok(points) = start.tasks(rt) else {
        return Ok(false);
    };
    match correct_all(rt, alloc, &start, points.as_slice(), 16, &OpenGate) {
        Ok(corrections) => Ok(points.is_empty() && corrections.is_empty()),
        Err(_) => Ok(false),
    }
}

fn order_one_has_no_rays<R: Threads + Sync>(rt: &R, alloc: Global) -> Result<bool, Fail> {
    let last = completed(rt, alloc, &two_lines(alloc)?, 1, 1)?;
    Ok(last.order() == 1 && last.diagram().ray_count() == 0)
}

fn two_lines_have_one_ray<R: Threads + Sync>(rt: &R, alloc: Global) -> Result<bool, Fail> {
    let last = completed(rt, alloc, &two_lines(alloc)?, 2, 1)?;
    Ok(has_plain_diagonal(last.diagram()))
}

fn three_lines_have_three_rays<R: Threads + Sync>(rt: &R, alloc: Global) -> Result<bool, Fail> {
    let last = completed(rt, alloc, &three_lines(alloc)?, 3, 3)?;
    Ok(has_three_rays(last.diagram()))
}

fn squares_have_three_rays<R: Threads + Sync>(rt: &R, alloc: Global) -> Result<bool, Fail> {
    let last = completed(rt, alloc, &squares(alloc)?, 4, 16)?;
    Ok(has_rays_of_squares(last.diagram()))
}

#[test]
fn orders_by_workers(rt: HostRuntime) -> Result<(), Fail> {
    assert!(rt; no_points_have_no_corrections(&rt, rt.alloc())?);
    assert!(rt; order_one_has_no_rays(&rt, rt.alloc())?);
    assert!(rt; two_lines_have_one_ray(&rt, rt.alloc())?);
    assert!(rt; three_lines_have_three_rays(&rt, rt.alloc())?);
    assert!(rt; squares_have_three_rays(&rt, rt.alloc())?);
    Ok(())
}
