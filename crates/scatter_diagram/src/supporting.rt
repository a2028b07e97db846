// Walls in the order of their supporting lines.

ghost use Rattle.std.specs.Prelude.{◌≡◌, ◌≤◌, ◌^◌, ◌*ℤ◌, nat_abs};
ghost use Rattle.limits.specs.Limits.{largest_coordinate, largest_direction};
ghost use Rattle.plane_geom.specs.Shown.{point_of, vector_of};
ghost use Rattle.scattering.specs.Series.{exp_before, origin};
ghost use Rattle.scattering.specs.SupportingLine.{line_direction, offset, supporting_line, same_line};
ghost use Rattle.scatter_diagram.specs.Shown.{wall_of};
ghost use Rattle.scatter_diagram.specs.Ordered.{exp_order, line_order};

use crate::Wall;
use crate::wall::opposite;
use plane_geom::{Direction, Point};
use std::cmp::Ordering;

fn leads(d: &Direction) -> bool
    ensures { result ≡ exp_before origin (vector_of d.now) }
{
    d.a > 0 || (d.a == 0 && d.b > 0)
}

/// Of d and -d the one whose first number is positive, or 0 with a positive second one.
pub fn line_direction(d: &Direction) -> Direction
    ensures { vector_of result ≡ line_direction (vector_of d.now) }
{
    if leads(d) { *d } else { opposite(d) }
}

/// A direction's number times a point's.
fn product(a: i32, x: i64) -> i128
    requires a { nat_abs a ≤ largest_direction }
    requires x { nat_abs x ≤ largest_coordinate }
    ensures value { result ≡ a *ℤ x }
    ensures bound { nat_abs result ≤ 2 ^ 52 }
{
    (a as i128) * (x as i128)
}

/// det(d, p), times p.w.
fn offset(d: &Direction, p: &Point) -> i128
    ensures value { result ≡ offset (vector_of d.now) (point_of p.now) }
    ensures bound { nat_abs result ≤ 2 ^ 53 }
{
    product(d.a, p.y) - product(d.b, p.x)
}

/// Such a number times a denominator of a point.
fn raised(over: i128, under: i64) -> i128
    requires over { nat_abs over ≤ 2 ^ 53 }
    requires under { nat_abs under ≤ largest_coordinate }
    ensures value { result ≡ over *ℤ under }
    ensures bound { nat_abs result ≤ 2 ^ 93 }
{
    over * (under as i128)
}

/// How two directions stand: by the first number, then by the second.
pub fn compare_directions(d: &Direction, e: &Direction) -> Ordering
    ensures { result ≡ exp_order (vector_of d.now) (vector_of e.now) }
{
    match d.a.cmp(&e.a) {
        Ordering::Equal => d.b.cmp(&e.b),
        unequal => unequal,
    }
}

/// The supporting lines of two walls, by direction and then by place.
pub(crate) fn compare_lines(u: &Wall, v: &Wall) -> Ordering
    ensures { result ≡ line_order (supporting_line (wall_of u.now)) (supporting_line (wall_of v.now)) }
{
    let d = line_direction(&u.dir);
    let e = line_direction(&v.dir);
    match compare_directions(&d, &e) {
        Ordering::Equal => {
            let first = raised(offset(&d, &u.at), v.at.w);
            let second = raised(offset(&e, &v.at), u.at.w);
            first.cmp(&second)
        }
        unequal => unequal,
    }
}

/// Whether two walls have one supporting line.
pub(crate) fn have_one_line(u: &Wall, v: &Wall) -> bool
    ensures { result ≡ same_line (supporting_line (wall_of u.now)) (supporting_line (wall_of v.now)) }
{
    matches!(compare_lines(u, v), Ordering::Equal)
}
