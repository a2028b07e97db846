// The bracket of Lie elements.

ghost use Rattle.std.specs.Prelude.{◌≡◌, ◌≤◌, ◌↔◌, [], ◌∷◌, ◌++◌, ◌<◌, ◌^◌, pos, nat_abs, map, filter, false, not, IsTrue, IsSome, IfSome, IfOk, MatchResult};
ghost use Rattle.limits.specs.Limits.{highest_order};
ghost use Rattle.scattering.specs.Collections.{Every, EveryPair};
ghost use Rattle.scattering.specs.Series.{Key as PlaneKey, det, int_eq, key_before};
ghost use Rattle.scattering.specs.Correction.{Lie, ratio_at};
ghost use Rattle.frac_128.specs.Quotient.{AreEqual};
ghost use Rattle.trunc_series.specs.Shown.{key_of, exp_of};
ghost use Rattle.trunc_series.specs.Reduced.{IsNearKey};
ghost use Rattle.vertex_lie.specs.Shown.{ratio_of, coefficient_of, lie_of, Ascends};
ghost use Rattle.vertex_lie.specs.RationalBracket.{term_product, row, products, kept_product, is_kept, ProductFits, PairFits, RowProductsFit, Appends, IsBracketOf, BracketFits, AreValues, IsSummed, IsSumWith, AddFits, SumsFit, IsFaultOf, zero_ratio, values_at};

use crate::element::{LieElement, arrange};
use crate::fault::LieFault;
use frac_128::Fraction;
use plane_geom::minor;
use std::alloc::{AllocError, Global};
use trunc_series::{Key, compare, times};

impl LieElement {
    /// The bracket with {z^a, z^b} = det(a, b)*z^(a + b), without terms of degree above `order`.
    ///
    /// Each pair of terms is multiplied, the coefficients first and then the determinant, but for pairs
    /// of determinant 0 or degree above the order; the products of one key are added in the order of the
    /// pairs. `Range` comes where one of these numbers, as fractions are multiplied and added, leaves 128
    /// bits.
    pub fn bracket(&self, other: &LieElement, order: u32) -> Result<LieElement, LieFault>
        requires order { order ≤ highest_order }
        requires near { Every (λ t. IsNearKey t.0) self.now }
        requires near_too { Every (λ t. IsNearKey t.0) other.now }
        ensures bracket { IfOk result (λ h. IsBracketOf order self.now other.now h) }
        ensures range { MatchResult result (λ _. BracketFits order self.now other.now)
            (IsFaultOf (BracketFits order self.now other.now)) }
    {
        let alloc = self.allocator();
        let mut terms = multiplied(alloc, order, self.terms(), other.terms())?;
        arrange(&mut terms)?;
        let sums = summed(alloc, terms.as_slice())?;
        let terms = without_zeros(alloc, sums.as_slice())?;
        Ok(LieElement::sorted(alloc, terms))
    }
}

/// The products of all pairs of terms that count.
fn multiplied(
    alloc: Global,
    order: u32,
    a: &[(Key, Fraction)],
    b: &[(Key, Fraction)],
) -> Result<Vec<(Key, Fraction)>, LieFault>
    requires order { order ≤ highest_order }
    requires left { Every (λ t. IsNearKey t.0) (lie_of a.now) }
    requires right { Every (λ t. IsNearKey t.0) (lie_of b.now) }
    ensures products { IfOk result
        (λ r. AreValues (products order (lie_of a.now) (lie_of b.now)) (lie_of r.items)) }
    ensures range { MatchResult result
        (λ _. Every (λ t. RowProductsFit order t (lie_of b.now)) (lie_of a.now))
        (IsFaultOf (Every (λ t. RowProductsFit order t (lie_of b.now)) (lie_of a.now))) }
{
    let mut out = Vec::new(alloc);
    for t in a {
        push_row(&mut out, order, t, b)?;
    }
    Ok(out)
}

/// Appends the products of one term that count.
fn push_row(
    out: &mut Vec<(Key, Fraction)>,
    order: u32,
    t: &(Key, Fraction),
    b: &[(Key, Fraction)],
) -> Result<(), LieFault>
    requires order { order ≤ highest_order }
    requires left { IsNearKey (key_of t.now.0) }
    requires right { Every (λ t. IsNearKey t.0) (lie_of b.now) }
    ensures products { IfOk result
        (λ _. Appends (lie_of out.old.items) (row order (coefficient_of t.now) (lie_of b.now))
        (lie_of out.new.items)) }
    ensures range { MatchResult result (λ _. RowProductsFit order (coefficient_of t.now) (lie_of b.now))
        (IsFaultOf (RowProductsFit order (coefficient_of t.now) (lie_of b.now))) }
{
    for u in b {
        push_product(out, order, t, u)?;
    }
    Ok(())
}

/// Appends the product of two terms, if it counts.
fn push_product(
    out: &mut Vec<(Key, Fraction)>,
    order: u32,
    t: &(Key, Fraction),
    u: &(Key, Fraction),
) -> Result<(), LieFault>
    requires order { order ≤ highest_order }
    requires left { IsNearKey (key_of t.now.0) }
    requires right { IsNearKey (key_of u.now.0) }
    ensures products { IfOk result
        (λ _. Appends (lie_of out.old.items)
        (kept_product order (coefficient_of t.now) (coefficient_of u.now)) (lie_of out.new.items)) }
    ensures range { MatchResult result
        (λ _. PairFits order (coefficient_of t.now) (coefficient_of u.now))
        (IsFaultOf (PairFits order (coefficient_of t.now) (coefficient_of u.now))) }
{
    if !counts(order, &t.0, &u.0) {
        return Ok(());
    }
    let c = term_product(t, u).ok_or(LieFault::Range)?;
    out.push((times(&t.0, &u.0), c))?;
    Ok(())
}

/// Whether the product of two terms counts.
fn counts(order: u32, k: &Key, l: &Key) -> bool
    requires left { IsNearKey (key_of k.now) }
    requires right { IsNearKey (key_of l.now) }
    ensures { result ≡ is_kept order (key_of k.now) (key_of l.now) }
{
    determinant(k, l) != 0 && k.degree() + l.degree() <= order
}

/// The determinant of two exponents.
fn determinant(k: &Key, l: &Key) -> i128
    requires left { IsNearKey (key_of k.now) }
    requires right { IsNearKey (key_of l.now) }
    ensures value { result ≡ det (exp_of k.now.exp) (exp_of l.now.exp) }
    ensures small { nat_abs result ≤ 2 ^ 81 }
{
    let (a, b) = (k.exp.a as i64, k.exp.b as i64);
    minor(a, l.exp.b as i64, b, l.exp.a as i64)
}

/// The coefficient of a product, or None where that of the coefficients, or that times the determinant,
/// leaves 128 bits.
fn term_product(t: &(Key, Fraction), u: &(Key, Fraction)) -> Option<Fraction>
    requires left { IsNearKey (key_of t.now.0) }
    requires right { IsNearKey (key_of u.now.0) }
    ensures value { IfSome result
        (λ c. AreEqual c.num c.den (term_product (coefficient_of t.now) (coefficient_of u.now)).1.num
        (term_product (coefficient_of t.now) (coefficient_of u.now)).1.den) }
    ensures fits { IsSome result ↔ ProductFits (coefficient_of t.now) (coefficient_of u.now) }
{
    let c = t.1.checked_mul(u.1)?;
    c.checked_mul(Fraction::new(determinant(&t.0, &u.0), 1))
}

/// The terms of one key added, of terms that stand sorted.
fn summed(alloc: Global, terms: &[(Key, Fraction)]) -> Result<Vec<(Key, Fraction)>, LieFault>
    requires { Ascends (lie_of terms.now) }
    ensures sums { IfOk result (λ r. IsSummed (lie_of terms.now) (lie_of r.items)) }
    ensures range { MatchResult result (λ _. Unit {0})
        (IsFaultOf ((k : PlaneKey) → SumsFit zero_ratio (values_at k (lie_of terms.now)))) }
{
    let mut out = Vec::new(alloc);
    if terms.is_empty() {
        return Ok(out);
    }
    let mut sum = (terms[0].0, Fraction::new(0, 1));
    for i in 0..terms.len() {
        sum = added(&mut out, sum, terms[i])?;
    }
    out.push(sum)?;
    Ok(out)
}

/// Adds a term to the last sum, or begins the next one.
fn added(
    out: &mut Vec<(Key, Fraction)>,
    sum: (Key, Fraction),
    t: (Key, Fraction),
) -> Result<(Key, Fraction), LieFault>
    requires rises { EveryPair (λ t u. IsTrue (key_before t.0 u.0))
        (lie_of (out.old.items ++ sum ∷ [])) }
    requires later { key_before (key_of t.0) (key_of sum.0) ≡ false }
    ensures added { IfOk result
        (λ s. IsSumWith (coefficient_of t) (lie_of (out.old.items ++ sum ∷ []))
        (lie_of (out.new.items ++ s ∷ []))) }
    ensures key { IfOk result (λ s. key_of s.0 ≡ key_of t.0) }
    ensures range { MatchResult result
        (λ _. AddFits (ratio_at (lie_of (out.old.items ++ sum ∷ [])) (key_of t.0)) (ratio_of t.1))
        (IsFaultOf (AddFits (ratio_at (lie_of (out.old.items ++ sum ∷ [])) (key_of t.0))
        (ratio_of t.1))) }
{
    if compare(&sum.0, &t.0).is_lt() {
        out.push(sum)?;
        return Ok(t);
    }
    let total = sum.1.checked_add(t.1).ok_or(LieFault::Range)?;
    Ok((sum.0, total))
}

/// The terms other than those that are 0.
fn without_zeros(
    alloc: Global,
    terms: &[(Key, Fraction)],
) -> Result<Vec<(Key, Fraction)>, AllocError>
    ensures { IfOk result (λ r. r.items ≡ filter (λ t. not (int_eq t.1.num (pos 0))) terms.now) }
{
    let others = terms.iter().filter(|t| t.1.num != 0);
    others.copied().collect(alloc)
}
