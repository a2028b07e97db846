//! The order of directions by angle.

ghost use Rattle.std.specs.Prelude.{◌≡◌, ◌↔◌, ◌≤◌, ◌^◌, nat_abs};
ghost use Rattle.std.specs.Cmp.{IsTotalOrder};
ghost use Rattle.scattering.specs.Plane.{is_upper};
ghost use Rattle.scattering.specs.Series.{det};
ghost use Rattle.plane_geom.specs.Shown.{vector_of, turn_order, angle_order, order_of};

use crate::Direction;
use crate::products::small_product;
use std::cmp::Ordering;

/// The determinant of two directions.
pub fn det(d: &Direction, e: &Direction) -> i64
    ensures value { result ≡ det (vector_of d.now) (vector_of e.now) }
    ensures bound { nat_abs result ≤ 2 ^ 25 }
{
    small_product(d.a, e.b) - small_product(d.b, e.a)
}

/// Whether the angle from (1, 0) is below the half turn.
fn upper(d: &Direction) -> bool
    ensures { result ≡ is_upper (vector_of d.now) }
{
    d.b > 0 || (d.b == 0 && d.a > 0)
}

fn by_turn(turn: i64) -> Ordering
    ensures { result ≡ order_of turn }
{
    if turn > 0 {
        Ordering::Less
    } else if turn < 0 {
        Ordering::Greater
    } else {
        Ordering::Equal
    }
}

fn compare_angles(d: &Direction, e: &Direction) -> Ordering
    ensures { result ≡ turn_order (vector_of d.now) (vector_of e.now) }
{
    if upper(d) {
        if upper(e) {
            by_turn(det(d, e))
        } else {
            Ordering::Less
        }
    } else if upper(e) {
        Ordering::Greater
    } else {
        by_turn(det(d, e))
    }
}

/// By angle, counter-clockwise from (1, 0) itself. This is a total order of directions, in which
/// only equal ones tie.
pub fn angle_cmp(d: &Direction, e: &Direction) -> Ordering
    ensures value { result ≡ turn_order (vector_of d.now) (vector_of e.now) }
    ensures equal { (result ≡ Ordering.Equal) ↔ (vector_of d.now ≡ vector_of e.now) }
    ensures total { IsTotalOrder angle_order }
{
    compare_angles(d, e)
}
