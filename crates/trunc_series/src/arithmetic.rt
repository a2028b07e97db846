// How coefficients are added and multiplied: modulo 2^128, where a bound on the masses makes the result
// exact, or saturating at 2^126 + 1, where none is below 0.

ghost use Rattle.std.specs.Prelude.{◌≡◌, ◌+ℤ◌, ◌*ℤ◌, ◌≤ℤ◌, neg_ℤ, ◌<◌, ◌+◌, ◌^◌, pos, min, nat_abs, ℤ};
ghost use Rattle.limits.specs.Limits.{largest_weight};
ghost use Rattle.trunc_series.specs.Arithmetic.{kept, IsKeepable};

use limits::LARGEST_WEIGHT;

#[derive(Clone, Copy)]
pub enum Arithmetic {
    Wrapping,
    Saturating,
}

/// 2^126 + 1.
pub const LIMIT: i128 = LARGEST_WEIGHT as i128 + 1;

pub fn sum(rule: Arithmetic, x: &i128, y: &i128) -> i128
    requires x { IsKeepable rule x.now }
    requires y { IsKeepable rule y.now }
    ensures { result ≡ kept rule (x.now +ℤ y.now) }
{
    match rule {
        Arithmetic::Wrapping => x.wrapping_add(*y),
        Arithmetic::Saturating => x.saturating_add(*y).min(LIMIT),
    }
}

pub fn product(rule: Arithmetic, x: &i128, y: &i128) -> i128
    requires x { IsKeepable rule x.now }
    requires y { IsKeepable rule y.now }
    ensures { result ≡ kept rule (x.now *ℤ y.now) }
{
    match rule {
        Arithmetic::Wrapping => x.wrapping_mul(*y),
        Arithmetic::Saturating => x.saturating_mul(*y).min(LIMIT),
    }
}

/// The absolute value as it is kept.
pub fn absolute(x: &i128) -> i128
    ensures { result ≡ kept Arithmetic.Saturating (pos (nat_abs x.now)) }
{
    x.unsigned_abs().min(LIMIT as u128) as i128
}

/// A sum of masses as it is kept.
pub fn total(mass: u128, x: &i128) -> u128
    requires { pos 0 ≤ℤ x.now }
    ensures { result ≡ min (mass + nat_abs x.now) (largest_weight + 1) }
{
    mass.saturating_add(*x as u128).min(LIMIT as u128)
}

pub fn opposite(x: &i128) -> i128
    requires { nat_abs x.now < 2 ^ 127 }
    ensures { result ≡ neg_ℤ x.now }
{
    -*x
}
