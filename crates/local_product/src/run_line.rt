// The supporting lines of runs, by numbers of their own.

ghost use Rattle.std.specs.Prelude.{◌≡◌, ◌≤◌, ◌≤ℤ◌, ◌^◌, pos, nat_abs, IsTrue};
ghost use Rattle.limits.specs.Limits.{largest_coordinate};
ghost use Rattle.scattering.specs.SupportingLine.{offset};
ghost use Rattle.plane_geom.specs.Shown.{point_of, vector_of};

use plane_geom::{Direction, Point, minor};
use scatter_diagram::{Wall, line_direction};
use std::cmp::Ordering;

/// A line of the plane: its points p are those with det(dir, p) = over / under, where `over` is at most 2^81.
///
/// It holds what a wall's point and direction tell of its line, so a walk over the lines of all runs reads no
/// wall. The numbers stand in an order that leaves no gaps: 32 bytes.
#[derive(Clone, Copy)]
pub struct RunLine {
    over: i128,
    under: i64,
    dir: Direction,
    pub ghost over_bound: { nat_abs over ≤ 2 ^ 81 },
    pub ghost under_bound: { nat_abs under ≤ largest_coordinate },
    pub ghost positive: { pos 1 ≤ℤ under },
}

impl RunLine {
    ghost use Rattle.scattering.specs.SupportingLine.{supporting_line};
    ghost use Rattle.scatter_diagram.specs.Shown.{wall_of};
    ghost use Rattle.local_product.specs.RunLines.{seen_line, place_order, IsThrough, IsBefore};

    /// The line through a point along a direction.
    pub fn through(p: &Point, dir: &Direction) -> RunLine
        ensures point { IsThrough (point_of p.now) result }
        ensures direction { result.dir ≡ dir.now }
    {
        RunLine {
            over: offset(dir, p),
            under: p.w,
            dir: *dir,
        }
    }

    /// The supporting line of a wall.
    pub fn of_wall(wall: &Wall) -> RunLine
        ensures { seen_line result ≡ supporting_line (wall_of wall.now) }
    {
        RunLine::through(&wall.at, &line_direction(&wall.dir))
    }

    /// The line through a point that is parallel to this one.
    pub fn parallel(&self, p: &Point) -> RunLine
        ensures point { IsThrough (point_of p.now) result }
        ensures direction { result.dir ≡ self.now.dir }
    {
        RunLine::through(p, &self.dir)
    }

    /// How two parallel lines stand: by their places.
    pub fn compare(&self, other: &RunLine) -> Ordering
        ensures { result ≡ place_order (seen_line self.now) (seen_line other.now) }
    {
        let first = self.over * i128::from(other.under);
        first.cmp(&(other.over * i128::from(self.under)))
    }

    /// Whether a line stands before another one that is parallel to it.
    pub fn is_before(&self, other: &RunLine) -> bool
        ensures { IsTrue result → IsBefore self.now other.now }
    {
        are_equal(&self.dir, &other.dir) && self.compare(other).is_lt()
    }
}

fn are_equal(d: &Direction, e: &Direction) -> bool
    ensures { IsTrue result → vector_of d.now ≡ vector_of e.now }
{
    d.a == e.a && d.b == e.b
}

/// det(dir, p), times p.w.
fn offset(dir: &Direction, p: &Point) -> i128
    ensures value { result ≡ offset (vector_of dir.now) (point_of p.now) }
    ensures bound { nat_abs result ≤ 2 ^ 81 }
{
    minor(i64::from(dir.a), p.y, i64::from(dir.b), p.x)
}
