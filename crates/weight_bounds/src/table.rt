// Masses and exponents of a wall's function by degree.

ghost use Rattle.std.specs.Prelude.{◌≡◌, ◌≤◌, ◌<◌, ◌*◌, ◌^◌, ℕ, suc, nat_abs, slice_index, IfOk};
ghost use Rattle.limits.specs.Limits.{highest_order};
ghost use Rattle.scattering.specs.Collections.{Every};
ghost use Rattle.scattering.specs.Series.{IsWallFunction, degree, rest};
ghost use Rattle.plane_geom.specs.Shown.{vector_of};
ghost use Rattle.trunc_series.specs.Shown.{sum_of, HasNearTerms};
ghost use Rattle.degree_theory.specs.Parts.{multichoose};
ghost use Rattle.weight_bounds.specs.Masses.{IsBound, BoundsByDegree, IsReached};
ghost use Rattle.weight_bounds.specs.Rows.{IsSlow, HasOthers, AreMassesOf, ArePowerMasses, ArePowersOf, AreMultipliers, sum_below, convolved};
ghost use Rattle.weight_bounds.specs.Tables.{IsMassTable};

use crate::numbers::{Exponents, Masses, add_times, next_choice, product, sum};
use plane_geom::Direction;
use std::alloc::{AllocError, Global};
use std::cmp;
use std::marker::Model;
use trunc_series::{Exp, Key, Series};

/// What a wall's function f and direction give to bounds of weights: the masses by degree of the powers of
/// |f| - 1, the largest exponents by degree, and the size of the direction. It is made once for a wall and
/// an order, and lent to all points.
#[derive(Drop)]
pub struct MassTable {
    order: u32,
    least: u32,
    size: u64,
    reach: Exponents,
    powers: Vec<Masses>,
}

impl Model for MassTable {
    ghost use Rattle.std.specs.Prelude.{◌≤◌, ◌^◌};
    ghost use Rattle.limits.specs.Limits.{highest_order};
    ghost use Rattle.weight_bounds.specs.Tables.{SeenMassTable};
    ghost use Rattle.weight_bounds.specs.Rows.{IsSlow};

    ghost Value = { SeenMassTable };

    ghost view = { λ t. record { order = t.order; least = t.least; size = t.size; reach = t.reach; powers = t.powers.items } };

    ghost invariant = { λ t. (t.order ≤ highest_order) × (1 ≤ t.least) × (t.size ≤ 2 ^ 20) × IsSlow t.reach };
}

impl MassTable {
    /// The table of a wall's function to an order, which may be above or below that of the function.
    pub fn new(
        alloc: Global,
        order: u32,
        dir: &Direction,
        function: &Series,
    ) -> Result<MassTable, AllocError>
        requires order { order ≤ highest_order }
        requires wall { IsWallFunction function.now.order (vector_of dir.now) function.now.terms }
        ensures { IfOk result (IsMassTable order (vector_of dir.now) function.now.terms) }
    {
        let least = least_degree(order, function.terms());
        let masses = masses_of(order, function.terms());
        Ok(MassTable {
            order,
            least,
            size: u64::from(dir.a.unsigned_abs()) + u64::from(dir.b.unsigned_abs()),
            reach: reach_of(order, function.terms()),
            powers: powers_of(alloc, order, least, &masses)?,
        })
    }

    pub(crate) fn least(&self) -> u32
        ensures value { result ≡ self.now.least }
        ensures positive { 1 ≤ result }
    {
        self.least
    }

    pub(crate) fn reach(&self) -> &Exponents
        ensures value { result.now ≡ self.now.reach }
        ensures slow { IsSlow result.now }
    {
        &self.reach
    }

    pub(crate) fn size(&self) -> u64
        ensures value { result ≡ self.now.size }
        ensures small { result ≤ 2 ^ 20 }
    {
        self.size
    }

    /// The masses by degree, to that of `top`, of the n-th power of 1/(2 - |f|), but that of degree 0.
    pub(crate) fn multipliers(&self, n: u64, top: usize) -> Masses
        requires small { n < 2 ^ 60 }
        requires top { top ≤ self.now.order }
        ensures low { (i : ℕ) → i < self.now.least → slice_index result i ≡ 0 }
        ensures masses { AreMultipliers self.now n top result }
    {
        weighted(self.least as usize, self.powers.as_slice(), n, top)
    }
}

/// The masses by degree of the powers of u from the first on, each times a multiset coefficient of n.
fn weighted(least: usize, powers: &[Masses], n: u64, top: usize) -> Masses
    requires small { n < 2 ^ 60 }
    requires least { least < 2 ^ 32 }
    requires top { top ≤ highest_order }
    ensures low { (i : ℕ) → i < least → slice_index result i ≡ 0 }
    ensures masses { (m : ℕ → ℕ → ℕ) (i : ℕ) → ArePowersOf top least powers.now m → i ≤ top
        → IsBound (slice_index result i) (sum_below i (λ r. multichoose n (suc r) * m (suc r) i)) }
{
    let mut row = [0; 25];
    let mut c = 1;
    let mut r = 0;
    let mut from = least;
    'powers: while r < powers.len() && from <= top {
        c = next_choice(c, n, r);
        add_times(&mut row, 0, from, top + 1, c, &powers[r]);
        from += least;
        r += 1;
    }
    row
}

/// The larger of both numbers of an exponent, in absolute value.
fn larger(e: &Exp) -> u64
    ensures a { nat_abs e.now.a ≤ result }
    ensures b { nat_abs e.now.b ≤ result }
    ensures small { result ≤ 2 ^ 31 }
{
    u64::from(cmp::max(e.a.unsigned_abs(), e.b.unsigned_abs()))
}

/// The least degree of a term but 1, at most that above the order.
fn least_degree(order: u32, terms: &[(Key, i128)]) -> u32
    requires order { order ≤ highest_order }
    requires others { HasOthers (sum_of terms.now) }
    ensures positive { 1 ≤ result }
    ensures least { Every (λ t. result ≤ degree t.0) (rest (sum_of terms.now)) }
{
    let mut least = order + 1;
    for t in terms {
        let d = t.0.degree();
        if 0 < d {
            least = cmp::min(least, d);
        }
    }
    least
}

/// The masses by degree of f - 1, of the terms of f.
fn masses_of(order: u32, terms: &[(Key, i128)]) -> Masses
    requires order { order ≤ highest_order }
    requires others { HasOthers (sum_of terms.now) }
    ensures { AreMassesOf order result (sum_of terms.now) }
{
    let mut masses = [0; 25];
    for t in terms {
        let d = t.0.degree();
        if 0 < d && d <= order {
            masses[d as usize] = sum(masses[d as usize], t.1.unsigned_abs());
        }
    }
    masses
}

/// The largest exponents by degree of f - 1, of the terms of f.
fn reach_of(order: u32, terms: &[(Key, i128)]) -> Exponents
    requires order { order ≤ highest_order }
    requires others { HasOthers (sum_of terms.now) }
    ensures slow { IsSlow result }
    ensures reach { IsReached order result (sum_of terms.now) }
{
    let mut reach = [0; 25];
    for t in terms {
        let d = t.0.degree();
        if 0 < d && d <= order {
            reach[d as usize] = cmp::max(reach[d as usize], larger(&t.0.exp));
        }
    }
    reach
}

/// The masses by degree of u, u^2 and so on, of those of u, as far as they have terms of degree at most
/// the order, where u has none of degree below `least`.
fn powers_of(
    alloc: Global,
    order: u32,
    least: u32,
    masses: &Masses,
) -> Result<Vec<Masses>, AllocError>
    requires order { order ≤ highest_order }
    requires least { 1 ≤ least }
    ensures { IfOk result (λ r. ArePowerMasses order least masses.now r.items) }
{
    let mut powers = Vec::new(alloc);
    let mut power = *masses;
    let mut from = least;
    while from <= order {
        powers.push(power)?;
        power = multiplied(order as usize, masses, &power);
        from += least;
    }
    Ok(powers)
}

/// The masses by degree of a product, of those of its factors.
fn multiplied(order: usize, masses: &Masses, others: &Masses) -> Masses
    requires { order ≤ highest_order }
    ensures { (v w : ℕ → ℕ) → BoundsByDegree order masses.now v → BoundsByDegree order others.now w
        → BoundsByDegree order result (convolved v w) }
{
    let mut product = [0; 25];
    for i in 0..order + 1 {
        product[i] = mass_of_product(masses, others, i);
    }
    product
}

/// The mass of degree i of a product.
fn mass_of_product(masses: &Masses, others: &Masses, i: usize) -> u128
    requires { i ≤ highest_order }
    ensures { (v w : ℕ → ℕ) → BoundsByDegree i masses.now v → BoundsByDegree i others.now w
        → IsBound result (convolved v w i) }
{
    let mut total = 0;
    for j in 0..i + 1 {
        total = sum(total, product(masses[i - j], others[j]));
    }
    total
}
