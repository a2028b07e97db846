// Which way a wall is crossed, and the exponent that a term's crossing gives its function.

ghost use Rattle.std.specs.Prelude.{◌≡◌, ◌≤◌, ◌^◌, ◌*ℤ◌, nat_abs};
ghost use Rattle.limits.specs.Limits.{largest_exponent};
ghost use Rattle.scattering.specs.Series.{det};
ghost use Rattle.plane_geom.specs.Shown.{vector_of as direction_of};
ghost use Rattle.trunc_series.specs.Shown.{exp_of};
ghost use Rattle.wall_auto.specs.Sign.{sign};

use plane_geom::Direction;
use trunc_series::Exp;

/// Which way a wall is crossed: z^m gets the function's power with the exponent det(dir, m), or its
/// opposite.
#[derive(Clone, Copy, Debug, PartialEq, Eq)]
pub enum Side {
    Plus,
    Minus,
}

/// A product of a direction's number and an exponent's.
fn product(a: i32, b: i32) -> i64
    requires left { nat_abs a ≤ 2 ^ 12 }
    requires right { nat_abs b ≤ largest_exponent }
    ensures value { result ≡ a *ℤ b }
    ensures bound { nat_abs result ≤ 2 ^ 28 }
{
    (a as i64) * (b as i64)
}

/// det(dir, m)
fn determinant(dir: &Direction, m: &Exp) -> i64
    requires a { nat_abs m.now.a ≤ largest_exponent }
    requires b { nat_abs m.now.b ≤ largest_exponent }
    ensures value { result ≡ det (direction_of dir.now) (exp_of m.now) }
    ensures bound { nat_abs result ≤ 2 ^ 29 }
{
    product(dir.a, m.b) - product(dir.b, m.a)
}

/// det(dir, m), or its opposite on the side of Minus.
pub fn exponent(dir: &Direction, side: Side, m: &Exp) -> i64
    requires a { nat_abs m.now.a ≤ largest_exponent }
    requires b { nat_abs m.now.b ≤ largest_exponent }
    ensures value { result ≡ sign side *ℤ det (direction_of dir.now) (exp_of m.now) }
    ensures bound { nat_abs result ≤ 2 ^ 29 }
{
    let n = determinant(dir, m);
    match side {
        Side::Plus => n,
        Side::Minus => -n,
    }
}
