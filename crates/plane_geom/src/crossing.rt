//! Where two supports meet.

ghost use Rattle.std.specs.Prelude.{◌≡◌, ◌≢◌, ◌↔◌, ◌≤◌, ◌^◌, ◌≤ℤ◌, ◌*ℤ◌, pos, nat_abs, IsTrue};
ghost use Rattle.scattering.specs.Series.{det};
ghost use Rattle.scattering.specs.Plane.{difference};
ghost use Rattle.plane_geom.specs.Shown.{vector_of, point_of, support_at, support_dir, HoldsAt, IsCommon, IsMeeting, DoMeet};

use crate::angle::det;
use crate::products::{grown, minor, product, scaled, shifted};
use crate::{Direction, Meeting, Point, Support};

/// Where the supports meet, tested in the order of the variants.
pub fn meet(s: &Support, t: &Support) -> Meeting
    ensures { IsMeeting s.now t.now result }
{
    let (p, d) = whole_line(s);
    let (r, e) = whole_line(t);
    let turn = det(d, e);
    if turn == 0 {
        return Meeting::Parallel;
    }
    let along = numerator(p, r, e);
    if !holds(s, along, turn) || !holds(t, numerator(r, p, d), -turn) {
        return Meeting::Outside;
    }
    match common_point(p, d, r, along, turn) {
        Some(q) => Meeting::At(q),
        None => Meeting::TooFar,
    }
}

/// Whether `meet` answers a point, near or too far: by signs alone.
pub fn do_meet(s: &Support, t: &Support) -> bool
    ensures { IsTrue result ↔ DoMeet s.now t.now }
{
    let (p, d) = whole_line(s);
    let (r, e) = whole_line(t);
    let turn = det(d, e);
    if turn == 0 {
        return false;
    }
    holds(s, numerator(p, r, e), turn) && holds(t, numerator(r, p, d), -turn)
}

/// A point and the direction of the support's whole line.
pub fn whole_line(s: &Support) -> (&Point, &Direction)
    ensures at { point_of result.0.now ≡ support_at s.now }
    ensures dir { vector_of result.1.now ≡ support_dir s.now }
{
    match s {
        Support::Line { at, dir } => (at, dir),
        Support::Half { start, along } => (start, along),
    }
}

/// det(r - p, e), times the positive number p.w * r.w. The lines through p along d and through r
/// along e meet at p + n / (p.w * r.w * det(d, e)) * d, where n is this number.
fn numerator(p: &Point, r: &Point, e: &Direction) -> i128
    ensures value { result ≡ det (difference (point_of p.now) (point_of r.now)) (vector_of e.now) }
    ensures bound { nat_abs result ≤ 2 ^ 94 }
{
    scaled(e.b, minor(r.x, p.w, p.x, r.w)) - scaled(e.a, minor(r.y, p.w, p.y, r.w))
}

/// Whether the support holds the point of its whole line that lies at n / turn, up to a positive
/// factor. The product of the two numbers has 2^119 at most; their signs suffice.
fn holds(s: &Support, n: i128, turn: i64) -> bool
    ensures { IsTrue result ↔ HoldsAt s.now n turn }
{
    match s {
        Support::Line { .. } => true,
        Support::Half { .. } => same_sign(n, turn),
    }
}

/// Whether n * turn is at least 0.
fn same_sign(n: i128, turn: i64) -> bool
    ensures { IsTrue result ↔ (pos 0 ≤ℤ (n *ℤ turn)) }
{
    (n <= 0 || turn >= 0) && (n >= 0 || turn <= 0)
}

/// The point p + n / (p.w * r.w * turn) * d, or None where it has a number above 2^40. Its
/// denominator before reduction is at most 2^105, and its numerators at most 2^107.
fn common_point(p: &Point, d: &Direction, r: &Point, n: i128, turn: i64) -> Option<Point>
    requires n { nat_abs n ≤ 2 ^ 94 }
    requires turn { nat_abs turn ≤ 2 ^ 25 }
    requires crossing { turn ≢ pos 0 }
    ensures { IsCommon (point_of p.now) (vector_of d.now) (point_of r.now) n turn result }
{
    let w = grown(product(p.w, r.w), turn);
    let x = shifted(product(p.x, r.w), turn, n, d.a);
    let y = shifted(product(p.y, r.w), turn, n, d.b);
    if w > 0 {
        Point::new(x, y, w)
    } else {
        Point::new(-x, -y, -w)
    }
}
