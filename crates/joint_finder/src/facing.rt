// Where the walls of a strand meet those of others.

ghost use Rattle.std.specs.Prelude.{◌↔◌, IsTrue, OnOk, IfErr};
ghost use Rattle.scattering.specs.Collections.{Every};
ghost use Rattle.plane_geom.specs.Shown.{point_of};
ghost use Rattle.joint_finder.specs.Crossings.{Adds, StopsFar};
ghost use Rattle.joint_finder.specs.Strands.{IsHeld, AreFacing, IsFacing, MeetsAny, IsRow};

use crate::crossings::{add_crossings, push};
use crate::live::LiveWall;
use crate::strands::Strand;
use plane_geom::{Meeting, Point, meet, on};
use scatter_diagram::Stop;
use std::alloc::Global;

/// The points where a strand meets others, whose least degrees and its own sum to the order.
pub(crate) fn row(
    alloc: Global,
    order: u32,
    s: &Strand<'_>,
    others: &[Strand<'_>],
) -> Result<Vec<Point>, Stop>
    requires { Every (IsFacing order s.now) others.now }
    ensures { IsRow order s.now others.now result }
{
    let mut points = Vec::new(alloc);
    for t in others {
        add_meeting(&mut points, order, s, t)?;
    }
    Ok(points)
}

/// Appends the point where walls of two strands meet, if they do.
fn add_meeting(
    points: &mut Vec<Point>,
    order: u32,
    s: &Strand<'_>,
    t: &Strand<'_>,
) -> Result<(), Stop>
    requires { IsFacing order s.now t.now }
    ensures points { OnOk result
        (Adds (MeetsAny order s.now.walls.now t.now.walls.now) points.old.items points.new.items) }
    ensures far { IfErr result (StopsFar order (MeetsAny order s.now.walls.now t.now.walls.now)) }
{
    match meet(&s.hull, &t.hull) {
        Meeting::At(p) => {
            if some_holds(s.walls, &p) && some_holds(t.walls, &p) {
                push(points, p)
            } else {
                Ok(())
            }
        }
        Meeting::TooFar => add_pairs(points, order, s.walls, t.walls),
        Meeting::Parallel | Meeting::Outside => Ok(()),
    }
}

/// Whether one of the walls holds the point.
fn some_holds(walls: &[LiveWall], p: &Point) -> bool
    ensures { IsTrue result ↔ IsHeld (point_of p.now) walls.now }
{
    for wall in walls {
        if on(&wall.support, p) {
            return true;
        }
    }
    false
}

/// Appends the points where a wall of a list meets one of another, whose least degrees sum to the order: wall by
/// wall, since where whole lines meet too far away their walls need not.
fn add_pairs(
    points: &mut Vec<Point>,
    order: u32,
    first: &[LiveWall],
    second: &[LiveWall],
) -> Result<(), Stop>
    requires { AreFacing order first.now second.now }
    ensures points { OnOk result
        (Adds (MeetsAny order first.now second.now) points.old.items points.new.items) }
    ensures far { IfErr result (StopsFar order (MeetsAny order first.now second.now)) }
{
    for wall in first {
        add_crossings(points, order, wall, second)?;
    }
    Ok(())
}
