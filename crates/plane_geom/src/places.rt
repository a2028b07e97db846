//! Places of points: on which side of a line, and whether on a line or half-line.

ghost use Rattle.std.specs.Prelude.{◌≡◌, ◌↔◌, IsTrue};
ghost use Rattle.scattering.specs.Plane.{difference, FromOn};
ghost use Rattle.scattering.specs.Series.{det, dot};
ghost use Rattle.plane_geom.specs.Shown.{point_of, vector_of, OnWhole, OnSupport, signum};

use crate::products::{minor, scaled};
use crate::{Direction, Point, Support};

/// det(dir, p - at), times the positive number at.w * p.w: at most 2^94.
fn turn(at: &Point, dir: &Direction, p: &Point) -> i128
    ensures { result ≡ det (vector_of dir.now) (difference (point_of at.now) (point_of p.now)) }
{
    scaled(dir.a, minor(p.y, at.w, at.y, p.w)) - scaled(dir.b, minor(p.x, at.w, at.x, p.w))
}

/// dot(dir, p - at), times the same number.
fn ahead(at: &Point, dir: &Direction, p: &Point) -> i128
    ensures { result ≡ dot (vector_of dir.now) (difference (point_of at.now) (point_of p.now)) }
{
    scaled(dir.a, minor(p.x, at.w, at.x, p.w)) + scaled(dir.b, minor(p.y, at.w, at.y, p.w))
}

/// The sign of det(dir, p - at): 1 where the point lies to the left of the line through `at` along
/// `dir`, 0 on it, -1 to its right.
pub fn side(at: &Point, dir: &Direction, p: &Point) -> i32
    ensures { result ≡ signum
        (det (vector_of dir.now) (difference (point_of at.now) (point_of p.now))) }
{
    let turn = turn(at, dir, p);
    if turn < 0 {
        -1
    } else if turn > 0 {
        1
    } else {
        0
    }
}

/// Whether the point lies on the line through `at` along `dir`.
fn is_along(at: &Point, dir: &Direction, p: &Point) -> bool
    ensures { IsTrue result ↔ OnWhole (point_of at.now) (vector_of dir.now) (point_of p.now) }
{
    turn(at, dir, p) == 0
}

/// Whether the point lies on the half-line from `start` along `along`.
fn is_ahead(start: &Point, along: &Direction, p: &Point) -> bool
    ensures { IsTrue result ↔ FromOn (point_of start.now) (vector_of along.now) (point_of p.now) }
{
    let turn = turn(start, along, p);
    let ahead = ahead(start, along, p);
    turn == 0 && ahead >= 0
}

/// Whether the support holds the point; a half-line holds its start.
pub fn on(s: &Support, p: &Point) -> bool
    ensures { IsTrue result ↔ OnSupport s.now (point_of p.now) }
{
    match s {
        Support::Line { at, dir } => is_along(at, dir, p),
        Support::Half { start, along } => is_ahead(start, along, p),
    }
}
