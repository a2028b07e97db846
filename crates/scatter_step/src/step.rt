// One order more.

ghost use Rattle.std.specs.Prelude.{◌≡◌, ℕ, ◌+◌, ◌<◌, ◌≤◌, None, IfOk, IfErr, map};
ghost use Rattle.limits.specs.Limits.{highest_order};
ghost use Rattle.scattering.specs.Wall.{walls};
ghost use Rattle.scattering.specs.Completion.{IsConsistent};
ghost use Rattle.scattering.specs.Stops.{AllNear, IsStopAt};
ghost use Rattle.joint_finder.specs.Joints.{IsStoppedByFar};
ghost use Rattle.scatter_step.specs.Completed.{IsCompleted};
ghost use Rattle.scatter_step.specs.Orders.{IsNextCompletion, AreTasks, AreNextCorrections, AreAtLightPoints, IsStoppedByWalls, IsStoppedAfter, AreCorrectionsAt, IsStoppedByPoint};

use crate::Completed;
use joint_finder::{joints, joints_by_workers};
use limits::MOST_WORKERS;
use local_product::{Workspace, obstruction_with, tables_of};
use plane_geom::Point;
use ray_merge::merged;
use scatter_diagram::{Diagram, Stop};
use std::alloc::{AllocError, Global};
use std::thread::Threads;
use vertex_lie::LieElement;

impl Completed {
    /// The active points of the next order, sorted by x and then y, each once. The stop is `PointTooLarge`
    /// where one of them has a number above 2^40 in lowest terms. They are found from those of its own
    /// order, by threads where they can be started.
    pub fn tasks<R: Threads + Sync>(&self, rt: &R) -> Result<Vec<Point>, Stop>
        requires { self.now.order < highest_order }
        ensures points { IfOk result (λ ps. AreTasks self.now ps.items) }
        ensures near { IfOk result (λ ps. AllNear (self.now.order + 1) (walls self.now.diagram)) }
        ensures stop { IfErr result (IsStoppedByFar (self.now.order + 1) (walls self.now.diagram)) }
    {
        self.tasks_by_workers(rt, MOST_WORKERS)
    }

    /// The active points of the next order, as `tasks` gives them, found by at most so many workers.
    pub fn tasks_by_workers<R: Threads + Sync>(
        &self,
        rt: &R,
        workers: u32,
    ) -> Result<Vec<Point>, Stop>
        requires order { self.now.order < highest_order }
        requires some { 1 ≤ workers }
        ensures points { IfOk result (λ ps. AreTasks self.now ps.items) }
        ensures near { IfOk result (λ ps. AllNear (self.now.order + 1) (walls self.now.diagram)) }
        ensures stop { IfErr result (IsStoppedByFar (self.now.order + 1) (walls self.now.diagram)) }
    {
        joints_by_workers(
            rt,
            workers,
            self.allocator(),
            self.diagram(),
            self.own_joints(),
            self.order() + 1,
        )
    }

    /// The completion of the next order, from the corrections at all active points, sorted by their points.
    /// The weight of each is at most 2^126. The stop is `TooManyWalls` where the completion has more than
    /// 8192 walls.
    pub fn advance(&self, corrections: &[(Point, LieElement)]) -> Result<Completed, Stop>
        requires order { self.now.order < highest_order }
        requires corrections { AreNextCorrections self.now corrections.now }
        requires light { AreAtLightPoints self.now corrections.now }
        ensures next { IfOk result (λ c. IsNextCompletion self.now c × IsCompleted c) }
        ensures stop { IfErr result (IsStoppedByWalls self.now) }
    {
        let e = self.diagram();
        let order = self.order() + 1;
        let next = merged(self.allocator(), self.initial(), e, corrections, order)?;
        let points = corrected_points(self.allocator(), corrections)?;
        Ok(self.with_diagram(next, points)?)
    }

    /// The completion of the next order, made on one thread, or the first cause that stops it: an active
    /// point with a number above 2^40, then one of a weight above 2^126, then more than 8192 walls.
    pub fn next_order(&self) -> Result<Completed, Stop>
        requires { self.now.order < highest_order }
        ensures next { IfOk result (λ c. IsNextCompletion self.now c × IsCompleted c) }
        ensures free { IfOk result (λ c. IsStopAt self.now.initial.lines (self.now.order + 1) None) }
        ensures stop { IfErr result (IsStoppedAfter self.now) }
    {
        let alloc = self.allocator();
        let e = self.diagram();
        let order = self.order() + 1;
        let points = joints(alloc, e, order)?;
        let corrections = corrections_at(alloc, e, points.as_slice(), order)?;
        self.advance(corrections.as_slice())
    }
}

/// The points of the corrections, in their order.
fn corrected_points(
    alloc: Global,
    corrections: &[(Point, LieElement)],
) -> Result<Vec<Point>, AllocError>
    ensures { IfOk result (λ ps. ps.items ≡ map (λ c. c.0) corrections.now) }
{
    corrections.iter().map(|c| c.0).collect(alloc)
}

/// Each point with its correction of the order, or a stop where one of them is too heavy. The tables of the
/// walls' powers are made once, and lent to all points.
fn corrections_at(
    alloc: Global,
    e: &Diagram,
    points: &[Point],
    order: u32,
) -> Result<Vec<(Point, LieElement)>, Stop>
    requires least { 1 ≤ order }
    requires order { order ≤ highest_order }
    requires consistent { (n : ℕ) → n + 1 ≡ order → IsConsistent n (walls e.now.diagram) }
    ensures corrections { IfOk result (λ cs. AreCorrectionsAt e.now order points.now cs.items) }
    ensures stop { IfErr result (IsStoppedByPoint e.now order points.now) }
{
    let tables = tables_of(alloc, e, order)?;
    let mut workspace = Workspace::new(alloc, order)?;
    let mut out = Vec::new(alloc);
    for p in points {
        let h = obstruction_with(alloc, &tables, p, &mut workspace)?;
        out.push((*p, h))?;
    }
    Ok(out)
}
