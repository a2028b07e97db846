// The active points of a diagram.

ghost use Rattle.std.specs.Prelude.{◌≡◌, ℕ, ◌+◌, ◌≤◌, IfOk, IfErr};
ghost use Rattle.limits.specs.Limits.{highest_order};
ghost use Rattle.scattering.specs.Wall.{walls};
ghost use Rattle.scattering.specs.Stops.{AllNear};
ghost use Rattle.joint_finder.specs.Joints.{points_of, AreJoints, AreJointsBefore, IsStoppedByFar};

use crate::crossings::crossings;
use crate::live::live_walls;
use crate::new_crossings::new_crossings;
use crate::order::{drop_repeats, sort, sort_by_workers};
use limits::MOST_WORKERS;
use plane_geom::Point;
use scatter_diagram::{Diagram, Stop};
use std::alloc::Global;
use std::thread::Threads;

/// The points that are active at `order`, sorted by x and then y, each once. The stop is
/// `PointTooLarge` at `order` where some active point has a number above 2^40 in lowest terms.
pub fn joints(alloc: Global, e: &Diagram, order: u32) -> Result<Vec<Point>, Stop>
    requires { order ≤ highest_order }
    ensures joints { IfOk result (λ ps. AreJoints order (walls e.now.diagram) (points_of ps.items)) }
    ensures near { IfOk result (λ _. AllNear order (walls e.now.diagram)) }
    ensures stop { IfErr result (IsStoppedByFar order (walls e.now.diagram)) }
{
    let live = live_walls(alloc, e)?;
    let mut points = crossings(alloc, order, live.as_slice())?;
    sort(&mut points);
    drop_repeats(&mut points);
    Ok(points)
}

/// All active points at `order`, as `joints` gives them, from `known`, those at the order before. Only walls whose
/// least degrees sum to `order` exactly are met; the work is split among threads.
pub fn joints_from<R: Threads + Sync>(
    rt: &R,
    alloc: Global,
    e: &Diagram,
    known: &[Point],
    order: u32,
) -> Result<Vec<Point>, Stop>
    requires least { 1 ≤ order }
    requires order { order ≤ highest_order }
    requires known { (n : ℕ) → n + 1 ≡ order →
        AreJoints n (walls e.now.diagram) (points_of known.now) }
    ensures joints { IfOk result (λ ps. AreJoints order (walls e.now.diagram) (points_of ps.items)) }
    ensures near { IfOk result (λ _. AllNear order (walls e.now.diagram)) }
    ensures stop { IfErr result (IsStoppedByFar order (walls e.now.diagram)) }
{
    joints_by_workers(rt, MOST_WORKERS, alloc, e, known, order)
}

/// What `joints_from` gives, where the work is split among at most so many workers.
pub fn joints_by_workers<R: Threads + Sync>(
    rt: &R,
    workers: u32,
    alloc: Global,
    e: &Diagram,
    known: &[Point],
    order: u32,
) -> Result<Vec<Point>, Stop>
    requires some { 1 ≤ workers }
    requires least { 1 ≤ order }
    requires order { order ≤ highest_order }
    requires known { AreJointsBefore order (walls e.now.diagram) (points_of known.now) }
    ensures joints { IfOk result (λ ps. AreJoints order (walls e.now.diagram) (points_of ps.items)) }
    ensures near { IfOk result (λ _. AllNear order (walls e.now.diagram)) }
    ensures stop { IfErr result (IsStoppedByFar order (walls e.now.diagram)) }
{
    let live = live_walls(alloc, e)?;
    let mut points = new_crossings(rt, workers, alloc, order, live.as_slice())?;
    points.extend_from_slice(known)?;
    sort_by_workers(rt, workers, &mut points);
    drop_repeats(&mut points);
    Ok(points)
}
