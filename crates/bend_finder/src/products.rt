// Determinants of directions and exponents.

ghost use Rattle.std.specs.Prelude.{◌≡◌, ◌*ℤ◌, ◌≤◌, ◌^◌, nat_abs};
ghost use Rattle.limits.specs.Limits.{largest_direction};
ghost use Rattle.scattering.specs.Series.{det};
ghost use Rattle.plane_geom.specs.Places.{IsSmall};
ghost use Rattle.plane_geom.specs.Shown.{vector_of};
ghost use Rattle.trunc_series.specs.Shown.{exp_of};

use plane_geom::Direction;
use trunc_series::Exp;

/// The determinant of a direction and an exponent.
pub(crate) fn det(d: &Direction, e: Exp) -> i64
    requires { IsSmall e.a e.b }
    ensures value { result ≡ det (vector_of d.now) (exp_of e) }
    ensures bound { nat_abs result ≤ 2 ^ 25 }
{
    product(d.a, e.b) - product(d.b, e.a)
}

fn product(a: i32, b: i32) -> i64
    requires a { nat_abs a ≤ largest_direction }
    requires b { nat_abs b ≤ largest_direction }
    ensures value { result ≡ a *ℤ b }
    ensures bound { nat_abs result ≤ 2 ^ 24 }
{
    (a as i64) * (b as i64)
}
