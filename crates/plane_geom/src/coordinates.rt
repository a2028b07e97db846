//! Points and directions from their numbers, and the order of points.

ghost use Rattle.std.specs.Prelude.{◌≡◌, ◌≤◌, ◌≤ℤ◌, ◌↔◌, pos, IsTrue, IsSome, IfSome, MatchOption};
ghost use Rattle.std.specs.Cmp.{IsTotalOrder};
ghost use Rattle.scattering.specs.Plane.{IsNear, IsDirection};
ghost use Rattle.plane_geom.specs.Places.{pair, IsSmall};
ghost use Rattle.plane_geom.specs.Shown.{over, IsFarOver, IsNearOver, point_of, vector_of, IsQuotient, IsFar, point_order, position_order};

use crate::products::product;
use crate::{Direction, Point};
use frac_128::gcd;
use limits::{LARGEST_COORDINATE, LARGEST_DIRECTION};
use std::cmp::Ordering;

impl Point {
    /// (x/w, y/w) in lowest terms, or None where that has a number above 2^40 in absolute value.
    pub fn new(x: i128, y: i128, w: i128) -> Option<Point>
        requires { pos 1 ≤ℤ w }
        ensures point { IfSome result (λ p. IsQuotient x y w (point_of p)) }
        ensures far { MatchOption result (IsFar x y w) (λ p. IsNear (point_of p)) }
    {
        let both = gcd(x.unsigned_abs(), y.unsigned_abs());
        let g = gcd(both, w.unsigned_abs());
        let small_x = shrunk(x, g)?;
        let small_y = shrunk(y, g)?;
        let small_w = shrunk(w, g)?;
        Some(Point {
            x: small_x,
            y: small_y,
            w: small_w,
        })
    }

    /// By x, then y, as rational numbers. This is a total order of points, in which only equal
    /// ones tie.
    pub fn compare(&self, other: &Point) -> Ordering
        ensures value { result ≡ point_order (point_of self.now) (point_of other.now) }
        ensures equal { (result ≡ Ordering.Equal) ↔ (point_of self.now ≡ point_of other.now) }
        ensures total { IsTotalOrder position_order }
    {
        match product(self.x, other.w).cmp(&product(other.x, self.w)) {
            Ordering::Equal => product(self.y, other.w).cmp(&product(other.y, self.w)),
            unequal => unequal,
        }
    }
}

impl Direction {
    /// (a, b), or None where the numbers have a common divisor above 1, are both 0, or one of them
    /// exceeds 4096 in absolute value.
    pub fn new(a: i32, b: i32) -> Option<Direction>
        ensures numbers { IfSome result (λ d. vector_of d ≡ pair a b) }
        ensures direction { IsSome result ↔ (IsDirection (pair a b) × IsSmall a b) }
    {
        if is_direction(a, b) {
            Some(Direction { a, b })
        } else {
            None
        }
    }
}

fn is_direction(a: i32, b: i32) -> bool
    ensures { IsTrue result ↔ (IsDirection (pair a b) × IsSmall a b) }
{
    let (x, y) = (a.unsigned_abs(), b.unsigned_abs());
    if x > LARGEST_DIRECTION || y > LARGEST_DIRECTION {
        return false;
    }
    gcd(x as u128, y as u128) == 1
}

/// x / g, or None where that exceeds 2^40 in absolute value.
fn shrunk(x: i128, g: u128) -> Option<i64>
    requires { 1 ≤ g }
    ensures value { IfSome result (λ v. v ≡ over g x) }
    ensures near { MatchOption result (IsFarOver g x) (λ v. IsNearOver g x) }
{
    let size = x.unsigned_abs() / g;
    if size > LARGEST_COORDINATE as u128 {
        return None;
    }
    let size = size as i64;
    if x < 0 { Some(-size) } else { Some(size) }
}
