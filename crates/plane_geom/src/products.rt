//! Products that fit, each with its bound: 2^40 for a point's number, 2^12 for a direction's.

ghost use Rattle.std.specs.Prelude.{◌≡◌, ◌+ℤ◌, ◌-ℤ◌, ◌*ℤ◌, ◌≤◌, ◌^◌, nat_abs};
ghost use Rattle.limits.specs.Limits.{largest_coordinate, largest_direction};

pub(crate) fn product(a: i64, b: i64) -> i128
    requires a { nat_abs a ≤ largest_coordinate }
    requires b { nat_abs b ≤ largest_coordinate }
    ensures value { result ≡ a *ℤ b }
    ensures bound { nat_abs result ≤ 2 ^ 80 }
{
    (a as i128) * (b as i128)
}

/// a * b - c * d
pub fn minor(a: i64, b: i64, c: i64, d: i64) -> i128
    requires a { nat_abs a ≤ largest_coordinate }
    requires b { nat_abs b ≤ largest_coordinate }
    requires c { nat_abs c ≤ largest_coordinate }
    requires d { nat_abs d ≤ largest_coordinate }
    ensures value { result ≡ (a *ℤ b) -ℤ (c *ℤ d) }
    ensures bound { nat_abs result ≤ 2 ^ 81 }
{
    product(a, b) - product(c, d)
}

/// A minor, times a direction's number.
pub(crate) fn scaled(a: i32, r: i128) -> i128
    requires a { nat_abs a ≤ largest_direction }
    requires r { nat_abs r ≤ 2 ^ 81 }
    ensures value { result ≡ a *ℤ r }
    ensures bound { nat_abs result ≤ 2 ^ 93 }
{
    (a as i128) * r
}

/// A product of two numbers of points, times a determinant of two directions.
pub(crate) fn grown(a: i128, t: i64) -> i128
    requires a { nat_abs a ≤ 2 ^ 80 }
    requires t { nat_abs t ≤ 2 ^ 25 }
    ensures value { result ≡ a *ℤ t }
    ensures bound { nat_abs result ≤ 2 ^ 105 }
{
    a * (t as i128)
}

fn moved(n: i128, d: i32) -> i128
    requires n { nat_abs n ≤ 2 ^ 94 }
    requires d { nat_abs d ≤ largest_direction }
    ensures value { result ≡ n *ℤ d }
    ensures bound { nat_abs result ≤ 2 ^ 106 }
{
    n * (d as i128)
}

/// a * t + n * d
pub(crate) fn shifted(a: i128, t: i64, n: i128, d: i32) -> i128
    requires a { nat_abs a ≤ 2 ^ 80 }
    requires t { nat_abs t ≤ 2 ^ 25 }
    requires n { nat_abs n ≤ 2 ^ 94 }
    requires d { nat_abs d ≤ largest_direction }
    ensures value { result ≡ (a *ℤ t) +ℤ (n *ℤ d) }
    ensures bound { nat_abs result ≤ 2 ^ 107 }
{
    grown(a, t) + moved(n, d)
}

/// A product of two numbers of directions.
pub fn small_product(a: i32, b: i32) -> i64
    requires a { nat_abs a ≤ largest_direction }
    requires b { nat_abs b ≤ largest_direction }
    ensures value { result ≡ a *ℤ b }
    ensures bound { nat_abs result ≤ 2 ^ 24 }
{
    (a as i64) * (b as i64)
}
