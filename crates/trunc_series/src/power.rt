// Powers of sorted lists of terms, by squaring, and sums of all powers.

ghost use Rattle.std.specs.Prelude.{◌≡◌, ◌≤◌, ◌<◌, ◌^◌, IfOk, filter, not, nat_abs};
ghost use Rattle.limits.specs.Limits.{highest_order};
ghost use Rattle.scattering.specs.Collections.{Every};
ghost use Rattle.scattering.specs.Series.{one, pow, key_eq, unit, minus, degree, rest};
ghost use Rattle.trunc_series.specs.Shown.{key_of, sum_of, HasNearTerms, IsValid};
ghost use Rattle.trunc_series.specs.Reduced.{IsKeptAs, IsNearKey, GrowsSlowly, ArePowersNear, SumsPowers, IsInversePower};

use crate::arithmetic::{Arithmetic, opposite};
use crate::key::{Key, is_constant};
use crate::merge::merged;
use crate::product::multiplied;
use std::alloc::{AllocError, Global};

/// 1, the term at the constant key.
pub fn one_term(alloc: Global) -> Result<Vec<(Key, i128)>, AllocError>
    ensures { IfOk result (λ r. sum_of r.items ≡ one) }
{
    let mut out = Vec::new(alloc);
    out.push((Key::ONE, 1))?;
    Ok(out)
}

/// The power without terms of degree above `order`.
pub fn powered(
    alloc: Global,
    rule: Arithmetic,
    order: u32,
    f: &[(Key, i128)],
    n: u32,
) -> Result<Vec<(Key, i128)>, AllocError>
    requires order { order ≤ highest_order }
    requires reduced { IsKeptAs rule order (sum_of f.now) (sum_of f.now) }
    requires near { Every (λ t. IsNearKey t.0) (sum_of f.now) }
    requires powers { ArePowersNear order (sum_of f.now) n }
    ensures { IfOk result (λ r. IsKeptAs rule order (sum_of r.items) (pow order (sum_of f.now) n)) }
{
    if n == 0 {
        return one_term(alloc);
    }
    let half = powered(alloc, rule, order, f, n / 2)?;
    let square = multiplied(alloc, rule, order, half.as_slice(), half.as_slice())?;
    if n % 2 == 0 {
        return Ok(square);
    }
    multiplied(alloc, rule, order, f, square.as_slice())
}

/// 1 + g + .. + g^order, without terms of degree above `order`.
pub fn powers_summed(
    alloc: Global,
    rule: Arithmetic,
    order: u32,
    g: &[(Key, i128)],
) -> Result<Vec<(Key, i128)>, AllocError>
    requires order { order ≤ highest_order }
    requires reduced { IsKeptAs rule order (sum_of g.now) (sum_of g.now) }
    requires tame { Every (λ t. GrowsSlowly t.0) (sum_of g.now) }
    ensures { IfOk result (λ r. SumsPowers rule order g.now r.items) }
{
    let mut power = one_term(alloc)?;
    let mut total = one_term(alloc)?;
    for i in 0..order {
        power = multiplied(alloc, rule, order, g, power.as_slice())?;
        total = merged(alloc, rule, total.as_slice(), power.as_slice())?;
    }
    Ok(total)
}

/// The terms other than that of the constant key.
pub fn without_constant(
    alloc: Global,
    terms: &[(Key, i128)],
) -> Result<Vec<(Key, i128)>, AllocError>
    ensures { IfOk result (λ r. r.items ≡ filter (λ t. not (key_eq (key_of t.0) unit)) terms.now) }
{
    let others = terms.iter().filter(|t| !is_constant(&t.0));
    others.copied().collect(alloc)
}

/// The terms with the opposite coefficients.
fn negated(alloc: Global, terms: &[(Key, i128)]) -> Result<Vec<(Key, i128)>, AllocError>
    requires { Every (λ t. nat_abs t.1 < 2 ^ 127) (sum_of terms.now) }
    ensures { IfOk result (λ r. sum_of r.items ≡ minus (sum_of terms.now)) }
{
    let mut out = Vec::with_capacity(alloc, terms.len())?;
    for t in terms {
        out.push((t.0, opposite(&t.1)))?;
    }
    Ok(out)
}

/// The inverse's power 1/f^n without terms of degree above `order`.
pub fn inverse_powered(
    alloc: Global,
    order: u32,
    f: &[(Key, i128)],
    n: u32,
) -> Result<Vec<(Key, i128)>, AllocError>
    requires valid { IsValid order (sum_of f.now) }
    requires near { HasNearTerms (sum_of f.now) }
    requires others { Every (λ t. 1 ≤ degree t.0) (rest (sum_of f.now)) }
    ensures { IfOk result (λ r. IsInversePower order f.now n r.items) }
{
    let others = without_constant(alloc, f)?;
    let others = negated(alloc, others.as_slice())?;
    let inverse = powers_summed(alloc, Arithmetic::Wrapping, order, others.as_slice())?;
    powered(alloc, Arithmetic::Wrapping, order, inverse.as_slice(), n)
}
