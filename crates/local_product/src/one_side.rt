// Points at which one image tells the correction.

ghost use Rattle.std.specs.Prelude.{◌≡◌, IsTrue, IfSome};
ghost use Rattle.scattering.specs.Collections.{Every};
ghost use Rattle.scattering.specs.Series.{det};
ghost use Rattle.plane_geom.specs.Shown.{point_of, vector_of};
ghost use Rattle.scatter_diagram.specs.Shown.{wall_of};
ghost use Rattle.wall_auto.specs.Sign.{sign};
ghost use Rattle.vertex_lie.specs.Leading.{axis_of};
ghost use Rattle.local_product.specs.OneSide.{Turns, IsEdge};

use crate::half_walls::HalfWall;
use plane_geom::{Direction, Point};
use scatter_diagram::Wall;
use vertex_lie::Axis;
use wall_auto::Side;

/// det(u, dir), where u is the axis.
fn turn(axis: Axis, dir: &Direction) -> i32
    ensures { result ≡ det (axis_of axis) (vector_of dir.now) }
{
    match axis {
        Axis::X => dir.b,
        Axis::Y => -dir.a,
    }
}

/// Whether a wall turns to this side of an axis, or goes through the point along it.
fn turns(w: &Wall, p: &Point, axis: Axis, side: Side) -> bool
    ensures { IsTrue result → Turns (point_of p.now) (sign side) (axis_of axis) (wall_of w.now) }
{
    let turn = turn(axis, &w.dir);
    if turn == 0 {
        return !w.starts_at(p);
    }
    match side {
        Side::Plus => turn > 0,
        Side::Minus => turn < 0,
    }
}

/// Whether the walls of all half-walls do.
fn all_turn(halves: &[HalfWall], p: &Point, axis: Axis, side: Side) -> bool
    ensures { IsTrue result → Every
        (λ h. Turns (point_of p.now) (sign side) (axis_of axis) (wall_of h.wall.now)) halves.now }
{
    for h in halves {
        if !turns(h.wall, p, axis, side) {
            return false;
        }
    }
    true
}

/// Whether all walls on the point turn to one side of the axis, and none along it starts there.
fn is_edge(halves: &[HalfWall], p: &Point, axis: Axis) -> bool
    ensures { IsTrue result → IsEdge p.now axis halves.now }
{
    if all_turn(halves, p, axis, Side::Plus) {
        return true;
    }
    all_turn(halves, p, axis, Side::Minus)
}

/// An axis to one side of which all walls on the point turn, if there is one. A wall may go through the
/// point along the axis, but none along it starts there.
pub(crate) fn edge_axis(halves: &[HalfWall], p: &Point) -> Option<Axis>
    ensures { IfSome result (λ axis. IsEdge p.now axis halves.now) }
{
    if is_edge(halves, p, Axis::X) {
        return Some(Axis::X);
    }
    if is_edge(halves, p, Axis::Y) {
        return Some(Axis::Y);
    }
    None
}
