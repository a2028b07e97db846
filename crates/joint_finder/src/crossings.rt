// Where live walls meet.

ghost use Rattle.std.specs.Prelude.{◌≡◌, ◌≤◌, ◌+◌, IfOk, OnOk, IfErr, [], ◌∷◌, ◌++◌};
ghost use Rattle.std.specs.List.Sorted.{IsNonDecreasingBy};
ghost use Rattle.joint_finder.specs.Crossings.{Meets, MeetsOne, AreMeeting, Adds, StopsFar};

use crate::live::{LiveWall, fits};
use plane_geom::{Meeting, Point, meet};
use scatter_diagram::{Stop, StopCause};
use std::alloc::{AllocFailed, Global};

/// The points where two of the walls meet, in whatever order, with repetitions.
pub(crate) fn crossings(alloc: Global, order: u32, live: &[LiveWall]) -> Result<Vec<Point>, Stop>
    requires { IsNonDecreasingBy (λ l. l.degree) live.now }
    ensures points { IfOk result (λ r. Adds (AreMeeting order live.now) [] r.items) }
    ensures far { IfErr result (StopsFar order (AreMeeting order live.now)) }
{
    let mut points = Vec::new(alloc);
    for i in 0..live.len() {
        add_crossings(&mut points, order, &live[i], &live[i + 1..])?;
    }
    Ok(points)
}

/// Appends the points where a wall meets others, which are sorted by least degree.
pub(crate) fn add_crossings(
    points: &mut Vec<Point>,
    order: u32,
    wall: &LiveWall,
    later: &[LiveWall],
) -> Result<(), Stop>
    requires { IsNonDecreasingBy (λ l. l.degree) later.now }
    ensures points { OnOk result
        (Adds (MeetsOne order wall.now later.now) points.old.items points.new.items) }
    ensures far { IfErr result (StopsFar order (MeetsOne order wall.now later.now)) }
{
    for other in later {
        if !fits(wall, other, order) {
            break;
        }
        add_crossing(points, order, wall, other)?;
    }
    Ok(())
}

/// Appends the point where two walls meet, if they do.
fn add_crossing(
    points: &mut Vec<Point>,
    order: u32,
    wall: &LiveWall,
    other: &LiveWall,
) -> Result<(), Stop>
    requires { wall.now.degree + other.now.degree ≤ order }
    ensures points { OnOk result
        (Adds (Meets order wall.now other.now) points.old.items points.new.items) }
    ensures far { IfErr result (StopsFar order (Meets order wall.now other.now)) }
{
    match meet(&wall.support, &other.support) {
        Meeting::At(p) => push(points, p),
        Meeting::TooFar => Err(too_far(order)),
        Meeting::Parallel | Meeting::Outside => Ok(()),
    }
}

fn too_far(order: u32) -> Stop
    ensures { result ≡ Stop.At order StopCause.PointTooLarge }
{
    Stop::At {
        order,
        cause: StopCause::PointTooLarge,
    }
}

pub(crate) fn push(points: &mut Vec<Point>, p: Point) -> Result<(), Stop>
    ensures points { OnOk result (points.new.items ≡ points.old.items ++ p ∷ []) }
    ensures memory { IfErr result (λ s. s ≡ Stop.Memory) }
{
    points.push(p)?;
    Ok(())
}
