// Active points: three lines, and their completion at order 2.

ghost use Rattle.std.specs.Prelude.{◌≤◌, IfOk, IsTrue};
ghost use Rattle.limits.specs.Limits.{highest_order};
ghost use Rattle.scattering.specs.Plane.{point_before};
ghost use Rattle.plane_geom.specs.Shown.{point_of};
ghost use Rattle.scatter_diagram.specs.Listed.{AreLines};

use joint_finder::{joints, joints_from};
use plane_geom::Point;
use sample_walls::monomials::{ONE, T2_XXY, T2T3_XY, T3_X, X, XY, Y};
use sample_walls::{place, wall};
use scatter_diagram::{Diagram, Stop, StopCause, Wall, WallKind};
use std::alloc::Global;
use std::cmp::Ordering;
use std::test::Fail;
use std::thread::Threads;

// Two lines through the origin, and one through (0, 1).
fn three_lines(alloc: Global, origin: Point, above: Point) -> Result<Vec<Wall>, Fail>
    ensures { IfOk result (λ ws. AreLines 2 ws.items) }
{
    let mut lines = Vec::new(alloc);
    let x = [(ONE, 1), (X, 1)];
    lines.push(wall(alloc, WallKind::Line, origin, 1, 0, 2, &x)?)?;
    let y = [(ONE, 1), (Y, 1)];
    lines.push(wall(alloc, WallKind::Line, origin, 0, 1, 2, &y)?)?;
    let z = [(ONE, 1), (T3_X, 1)];
    lines.push(wall(alloc, WallKind::Line, above, 1, 0, 2, &z)?)?;
    Ok(lines)
}

fn is_before(p: &Point, q: &Point) -> bool
    ensures { IsTrue result → IsTrue (point_before (point_of p.now) (point_of q.now)) }
{
    matches!(p.compare(q), Ordering::Less)
}

// The completion of the three lines at order 2.
fn completion(alloc: Global, origin: Point, above: Point) -> Result<Diagram, Fail>
    requires { IsTrue (point_before (point_of origin) (point_of above)) }
{
    let lines = three_lines(alloc, origin, above)?;
    let mut rays = Vec::new(alloc);
    let low = [(ONE, 1), (XY, 1)];
    rays.push(wall(alloc, WallKind::Outgoing, origin, 1, 1, 2, &low)?)?;
    let high = [(ONE, 1), (T2T3_XY, 1)];
    rays.push(wall(alloc, WallKind::Outgoing, above, 1, 1, 2, &high)?)?;
    Ok(Diagram::from_walls(alloc, 2, lines, rays)?)
}

// Whether the lines cross at the origin and at (0, 1) at order 2, and nowhere before.
fn lines_cross(alloc: Global) -> Result<bool, Fail> {
    let (origin, above) = (place(0, 0)?, place(0, 1)?);
    let lines = three_lines(alloc, origin, above)?;
    let e = Diagram::from_walls(alloc, 2, lines, Vec::new(alloc))?;
    Ok(
        joints(alloc, &e, 1)?.is_empty()
            && joints(alloc, &e, 2)?.as_slice() == [origin, above].as_slice(),
    )
}

// Whether rays cross lines at order 3, to the left of the origin.
fn rays_cross(alloc: Global) -> Result<bool, Fail> {
    let (origin, above) = (place(0, 0)?, place(0, 1)?);
    if !is_before(&origin, &above) {
        return Ok(false);
    }
    let e = completion(alloc, origin, above)?;
    let left = place(-1, 0)?;
    Ok(
        joints(alloc, &e, 2)?.as_slice() == [origin, above].as_slice()
            && joints(alloc, &e, 3)?.as_slice() == [left, origin, above].as_slice(),
    )
}

#[test]
fn walls_cross_where_their_degrees_fit(rt: HostRuntime) -> Result<(), Fail> {
    assert!(rt; lines_cross(rt.alloc())?);
    assert!(rt; rays_cross(rt.alloc())?);
    Ok(())
}

// The points at `order`, from those at the order before.
fn found_from<R: Threads + Sync>(
    rt: &R,
    alloc: Global,
    e: &Diagram,
    order: u32,
) -> Result<Vec<Point>, Stop>
    requires least { 1 ≤ order }
    requires order { order ≤ highest_order }
{
    let known = joints(alloc, e, order - 1)?;
    joints_from(rt, alloc, e, known.as_slice(), order)
}

// Whether the lines cross newly at order 2.
fn lines_cross_newly<R: Threads + Sync>(rt: &R, alloc: Global) -> Result<bool, Fail> {
    let (origin, above) = (place(0, 0)?, place(0, 1)?);
    let lines = three_lines(alloc, origin, above)?;
    let e = Diagram::from_walls(alloc, 2, lines, Vec::new(alloc))?;
    Ok(found_from(rt, alloc, &e, 2)?.as_slice() == [origin, above].as_slice())
}

// Whether rays cross lines newly at order 3.
fn rays_cross_newly<R: Threads + Sync>(rt: &R, alloc: Global) -> Result<bool, Fail> {
    let (origin, above) = (place(0, 0)?, place(0, 1)?);
    if !is_before(&origin, &above) {
        return Ok(false);
    }
    let e = completion(alloc, origin, above)?;
    let left = place(-1, 0)?;
    Ok(found_from(rt, alloc, &e, 3)?.as_slice() == [left, origin, above].as_slice())
}

#[test]
fn new_crossings_are_added(rt: HostRuntime) -> Result<(), Fail> {
    assert!(rt; lines_cross_newly(&rt, rt.alloc())?);
    assert!(rt; rays_cross_newly(&rt, rt.alloc())?);
    Ok(())
}

fn parallel_lines_cross(alloc: Global) -> Result<bool, Fail> {
    let mut lines = Vec::new(alloc);
    let x = [(ONE, 1), (X, 1)];
    lines.push(wall(alloc, WallKind::Line, place(0, 0)?, 1, 0, 2, &x)?)?;
    let z = [(ONE, 1), (T3_X, 1)];
    lines.push(wall(alloc, WallKind::Line, place(0, 1)?, 1, 0, 2, &z)?)?;
    let e = Diagram::from_walls(alloc, 2, lines, Vec::new(alloc))?;
    Ok(!joints(alloc, &e, 24)?.is_empty())
}

#[test]
fn parallel_lines_do_not_cross(rt: HostRuntime) -> Result<(), Fail> {
    assert!(rt; !parallel_lines_cross(rt.alloc())?);
    Ok(())
}

// Lines that cross at (2^41, 2^40).
fn far_lines(alloc: Global) -> Result<Diagram, Fail> {
    let mut lines = Vec::new(alloc);
    let x = [(ONE, 1), (X, 1)];
    lines.push(wall(alloc, WallKind::Line, place(0, 1 << 40)?, 1, 0, 2, &x)?)?;
    let z = [(ONE, 1), (T2_XXY, 1)];
    lines.push(wall(alloc, WallKind::Line, place(0, 0)?, 2, 1, 2, &z)?)?;
    Ok(Diagram::from_walls(alloc, 2, lines, Vec::new(alloc))?)
}

// Whether they stop order 2, and not order 1.
fn far_lines_stop(alloc: Global) -> Result<bool, Fail> {
    let e = far_lines(alloc)?;
    let far = Stop::At {
        order: 2,
        cause: StopCause::PointTooLarge,
    };
    Ok(joints(alloc, &e, 1)?.is_empty() && joints(alloc, &e, 2).err() == Some(far))
}

// Whether they stop order 2, from the points at order 1, of which there is none.
fn far_lines_stop_newly<R: Threads + Sync>(rt: &R, alloc: Global) -> Result<bool, Fail> {
    let e = far_lines(alloc)?;
    let far = Stop::At {
        order: 2,
        cause: StopCause::PointTooLarge,
    };
    Ok(found_from(rt, alloc, &e, 2).err() == Some(far))
}

#[test]
fn a_far_crossing_stops(rt: HostRuntime) -> Result<(), Fail> {
    assert!(rt; far_lines_stop(rt.alloc())?);
    assert!(rt; far_lines_stop_newly(&rt, rt.alloc())?);
    Ok(())
}
