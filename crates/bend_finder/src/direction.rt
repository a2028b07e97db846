// The direction of a stretch.

ghost use Rattle.scattering.specs.Series.{IsMultiple};
ghost use Rattle.plane_geom.specs.Shown.{vector_of};
ghost use Rattle.trunc_series.specs.Shown.{exp_of};
ghost use Rattle.bend_finder.specs.Ahead.{IsNonzero, IsTraceable};

use frac_128::gcd;
use plane_geom::Direction;
use trunc_series::Exp;

/// The exponent, divided by the greatest common divisor of its numbers.
pub(crate) fn direction_of(x: Exp) -> Direction
    requires moves { IsNonzero x }
    requires small { IsTraceable x }
    ensures { IsMultiple (vector_of result) (exp_of x) }
{
    let g = gcd(x.a.unsigned_abs() as u128, x.b.unsigned_abs() as u128) as i32;
    Direction {
        a: x.a / g,
        b: x.b / g,
    }
}
