//! Points of the plane with rational numbers, directions, lines and half-lines.
//!
//! Points have numbers of at most 2^40 and directions of at most 2^12, in absolute value, so all
//! places and meetings are exact in 128 bits: each product says its own bound.
#![tactic(auto)]

ghost use Rattle.scattering.specs.Plane.{IsPoint, IsNear, IsDirection};
ghost use Rattle.plane_geom.specs.Places.{point, pair, IsSmall};

mod angle;
mod coordinates;
mod crossing;
mod places;
mod products;

pub use angle::{angle_cmp, det};
pub use crossing::{do_meet, meet, whole_line};
pub use places::{on, side};
pub use products::{minor, small_product};

/// The point (x/w, y/w), in lowest terms with w at least 1, each number at most 2^40 in absolute
/// value.
#[derive(Clone, Copy, Debug, PartialEq, Eq)]
pub struct Point {
    pub x: i64,
    pub y: i64,
    pub w: i64,
    pub ghost reduced: { IsPoint (point x y w) },
    pub ghost near: { IsNear (point x y w) },
}

/// A pair of whole numbers with no common divisor but 1, each at most 4096 in absolute value.
#[derive(Clone, Copy, Debug, PartialEq, Eq)]
pub struct Direction {
    pub a: i32,
    pub b: i32,
    pub ghost primitive: { IsDirection (pair a b) },
    pub ghost small: { IsSmall a b },
}

/// A whole line, or the half-line of all points `start + s * along` with s at least 0.
#[derive(Clone, Copy, Debug, PartialEq, Eq)]
pub enum Support {
    Line { at: Point, dir: Direction },
    Half { start: Point, along: Direction },
}

/// Where two supports meet.
#[derive(Clone, Copy, Debug, PartialEq, Eq)]
pub enum Meeting {
    /// Their directions are parallel.
    Parallel,
    /// The common point of their whole lines isn't on both.
    Outside,
    /// The common point is on both, but one of its numbers in lowest terms exceeds 2^40.
    TooFar,
    At(Point),
}
