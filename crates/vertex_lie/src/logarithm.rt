// Logarithms of wall functions.

ghost use Rattle.std.specs.Prelude.{◌≡◌, ◌≢◌, ◌/◌, ◌≤◌, ◌<◌, ◌^◌, ◌↔◌, ◌≤ℤ◌, pos, nat_abs, IsTrue, IfOk, MatchResult};
ghost use Rattle.limits.specs.Limits.{highest_order};
ghost use Rattle.scattering.specs.Collections.{Every};
ghost use Rattle.scattering.specs.Series.{degree, rest, IsMultiple, IsWallFunction};
ghost use Rattle.plane_geom.specs.Shown.{vector_of as direction_of};
ghost use Rattle.trunc_series.specs.declared.arithmetic.Arithmetic.TheVariants.{Wrapping};
ghost use Rattle.trunc_series.specs.Shown.{exp_of, sum_of, HasNearTerms};
ghost use Rattle.trunc_series.specs.Reduced.{IsKeptAs, GrowsSlowly};
ghost use Rattle.vertex_lie.specs.Shown.{lie_of};
ghost use Rattle.vertex_lie.specs.Leading.{AreQuotients};
ghost use Rattle.vertex_lie.specs.RationalBracket.{IsFaultOf};
ghost use Rattle.vertex_lie.specs.Logarithm.{log_factor, scaled_log, multiple_of, log_divisor, IsLogarithm, LogFits};

use crate::element::LieElement;
use crate::fault::LieFault;
use frac_128::Fraction;
use plane_geom::Direction;
use std::alloc::{AllocError, Global};
use trunc_series::sorted_terms::{Arithmetic, merged, multiplied, without_constant};
use trunc_series::{Key, Majorant, Series};

/// The least common multiple of 1 to 24, so that each 1/i times it is whole.
const MULTIPLE: i128 = 5354228880;

/// 2^126 divided by the multiple.
const LARGEST_MASS: u128 = 15888486210965754580488470238;

/// The logarithm of a wall function, the sum over i of (-1)^(i + 1)/i*(f - 1)^i, as a Lie element: its
/// term c*z^(j*d) is c/j at that key. `Range` comes exactly where 5354228880 times the mass of the sum of
/// all (|f| - 1)^i exceeds 2^126.
pub fn wall_log(alloc: Global, function: &Series, dir: &Direction) -> Result<LieElement, LieFault>
    requires function { IsWallFunction function.now.order (direction_of dir.now) function.now.terms }
    requires near { HasNearTerms function.now.terms }
    ensures logarithm { IfOk result
        (λ h. IsLogarithm function.now.order (direction_of dir.now) function.now.terms h) }
    ensures range { MatchResult result (λ _. LogFits function.now.order function.now.terms)
        (IsFaultOf (LogFits function.now.order function.now.terms)) }
{
    if !is_within(function)? {
        return Err(LieFault::Range);
    }
    let others = without_constant(alloc, function.terms())?;
    let sum = scaled_sum(alloc, function.order(), others.as_slice())?;
    let terms = shares(alloc, sum.as_slice(), dir)?;
    Ok(LieElement::sorted(alloc, terms))
}

/// Whether the masses are small enough.
fn is_within(function: &Series) -> Result<bool, AllocError>
    requires others { Every (λ t. 1 ≤ degree t.0) (rest function.now.terms) }
    requires near { HasNearTerms function.now.terms }
    ensures { IfOk result (λ b. IsTrue b ↔ LogFits function.now.order function.now.terms) }
{
    let majorant = Majorant::geometric_of(function)?;
    Ok(majorant.mass() <= LARGEST_MASS + 1)
}

/// The multiple times the sum over i from 1 to the order of (-1)^(i + 1)/i*g^i.
fn scaled_sum(alloc: Global, order: u32, g: &[(Key, i128)]) -> Result<Vec<(Key, i128)>, AllocError>
    requires order { order ≤ highest_order }
    requires reduced { IsKeptAs Wrapping order (sum_of g.now) (sum_of g.now) }
    requires tame { Every (λ t. GrowsSlowly t.0) (sum_of g.now) }
    ensures { IfOk result
        (λ r. IsKeptAs Wrapping order (sum_of r.items) (scaled_log order (sum_of g.now) order)) }
{
    let rule = Arithmetic::Wrapping;
    let mut power = Vec::from_slice(alloc, &[(Key::ONE, 1)])?;
    let mut total = Vec::new(alloc);
    for i in 0..order {
        power = multiplied(alloc, rule, order, g, power.as_slice())?;
        let scale = [(Key::ONE, factor(i + 1))];
        let part = multiplied(alloc, rule, order, &scale, power.as_slice())?;
        total = merged(alloc, rule, total.as_slice(), part.as_slice())?;
    }
    Ok(total)
}

/// (-1)^(i + 1)/i, times the multiple.
fn factor(i: u32) -> i128
    requires positive { 1 ≤ i }
    requires small { i ≤ highest_order }
    ensures value { result ≡ log_factor i }
    ensures nonzero { result ≢ pos 0 }
    ensures small { nat_abs result < 2 ^ 127 }
{
    let c = MULTIPLE / i as i128;
    if i % 2 == 0 { -c } else { c }
}

/// Each coefficient divided by the multiple and by the multiple of the direction that the exponent is.
fn shares(
    alloc: Global,
    terms: &[(Key, i128)],
    dir: &Direction,
) -> Result<Vec<(Key, Fraction)>, AllocError>
    requires multiples { Every (λ t. IsMultiple (direction_of dir.now) t.0.exp) (sum_of terms.now) }
    requires small { Every (λ t. nat_abs t.1 < 2 ^ 127) (sum_of terms.now) }
    ensures { IfOk result
        (λ r. AreQuotients (log_divisor (direction_of dir.now)) (sum_of terms.now) (lie_of r.items)) }
{
    let mut out = Vec::with_capacity(alloc, terms.len())?;
    for t in terms {
        out.push((t.0, Fraction::new(t.1, divisor(&t.0, dir))))?;
    }
    Ok(out)
}

/// The multiple, times that of the direction that the exponent is.
fn divisor(key: &Key, dir: &Direction) -> i128
    requires { IsMultiple (direction_of dir.now) (exp_of key.now.exp) }
    ensures value { result ≡ log_divisor (direction_of dir.now) (exp_of key.now.exp) }
    ensures positive { pos 1 ≤ℤ result }
    ensures small { nat_abs result < 2 ^ 127 }
{
    multiple(key, dir) as i128 * MULTIPLE
}

/// The multiple of the direction that the exponent is.
fn multiple(key: &Key, dir: &Direction) -> u32
    requires { IsMultiple (direction_of dir.now) (exp_of key.now.exp) }
    ensures value { result ≡ multiple_of (direction_of dir.now) (exp_of key.now.exp) }
    ensures positive { 1 ≤ result }
{
    if dir.a != 0 {
        quotient(key.exp.a, dir.a)
    } else {
        quotient(key.exp.b, dir.b)
    }
}

/// The quotient of the absolute values.
fn quotient(x: i32, y: i32) -> u32
    requires { 1 ≤ nat_abs y }
    ensures { result ≡ nat_abs x / nat_abs y }
{
    x.unsigned_abs() / y.unsigned_abs()
}
