// Sums by degree, and crossings of them in place.

ghost use Rattle.std.specs.Prelude.{◌≡◌, ◌≤◌, ◌+◌, ◌<◌, ℕ, length, min, nat_abs, pos, ◌≤ℤ◌, replicate, suc, [], ◌∷◌, IfOk, OnOk};
ghost use Rattle.limits.specs.Limits.{highest_order, largest_weight};
ghost use Rattle.scattering.specs.Collections.{Every};
ghost use Rattle.scattering.specs.Series.{degree};
ghost use Rattle.plane_geom.specs.Shown.{vector_of};
ghost use Rattle.trunc_series.specs.Shown.{exp_of, key_of, term_of, sum_of, HasNearTerms};
ghost use Rattle.trunc_series.specs.Arithmetic.{IsKeepable};
ghost use Rattle.trunc_series.specs.Sums.{AreKeptValues};
ghost use Rattle.power_tables.specs.Tables.{first_factor};
ghost use Rattle.power_tables.specs.Values.{AreOf};
ghost use Rattle.wall_auto.specs.Sign.{sign};
ghost use Rattle.wall_auto.specs.ByDegree.{part, AreNear, AreKept, IsTable, CrossesParts, CrossesWithin, StartsAt, StartsWithin, TakesTerms, TakesWithin, IsSortedPart, IsSortedWhole, IsMass};
ghost use Rattle.wall_auto.specs.Gains.{FitsBelow, AreNumbersTo, row_numbers, GetsRows, LowPartsStay, GainsTerm, GainsTerms, KeepsGrowth, TakesParts, size};

use crate::Side;
use crate::side::exponent;
use limits::LARGEST_WEIGHT;
use plane_geom::Direction;
use power_tables::{PowerTable, PowerValues};
use std::alloc::{AllocError, Global};
use std::marker::Model;
use trunc_series::sorted_terms::{Arithmetic, TermSum, merged, product};
use trunc_series::{Exp, Key};

/// 2^126 + 1: a mass above 2^126 is kept as this.
const LIMIT: u128 = LARGEST_WEIGHT + 1;

/// A sum to an order as its parts: that of each degree is a sum under construction.
#[derive(Drop)]
pub struct SumByDegree {
    alloc: Global,
    parts: Vec<TermSum>,
}

impl Model for SumByDegree {
    ghost use Rattle.std.specs.Prelude.{List};
    ghost use Rattle.scattering.specs.Series.{Sum};

    ghost Value = { List Sum };

    ghost view = { λ s. s.parts.items };
}

impl SumByDegree {
    /// The sum of no terms, to an order.
    pub fn new(alloc: Global, order: u32) -> Result<SumByDegree, AllocError>
        requires { order ≤ highest_order }
        ensures { IfOk result (λ s. s ≡ replicate (suc order) []) }
    {
        let mut parts = Vec::with_capacity(alloc, order as usize + 1)?;
        for _ in 0..order + 1 {
            parts.push(TermSum::new(alloc))?;
        }
        Ok(SumByDegree { alloc, parts })
    }

    /// Takes all terms out, and keeps the memory; then the sum is z^m.
    pub fn start(&mut self, rule: Arithmetic, m: &Exp) -> Result<(), AllocError>
        requires { 1 ≤ length self.old }
        ensures order { length self.new ≡ length self.old }
        ensures stands { OnOk result (StartsAt rule (exp_of m.now) self.new) }
        ensures within { OnOk result (StartsWithin (exp_of m.now) self.new) }
        ensures kept { OnOk result (AreKept rule self.new) }
    {
        let key = Key {
            exp: *m,
            powers: [0; 8],
        };
        self.start_with(rule, &[(key, 1)])
    }

    /// Takes all terms out, and keeps the memory; then the sum is that of these terms.
    pub fn start_with(&mut self, rule: Arithmetic, terms: &[(Key, i128)]) -> Result<(), AllocError>
        requires kept { AreKeptValues rule (sum_of terms.now) }
        requires low { Every (λ t. degree t.0 < length self.old) (sum_of terms.now) }
        ensures order { length self.new ≡ length self.old }
        ensures stands { OnOk result (TakesTerms rule (sum_of terms.now) self.new) }
        ensures within { OnOk result (TakesWithin (sum_of terms.now) self.new) }
        ensures kept { OnOk result (AreKept rule self.new) }
    {
        begin_with(&mut self.parts, rule, terms)
    }

    /// Crosses a wall with the table of its function, in place: z^m becomes z^m·f^(s·det(dir, m)), or where numbers
    /// saturate z^m·G^|det(dir, m)| with G = 1/(2 - |f|).
    ///
    /// The table has the sum's order, and exponents of the sum are at most 2^16 in absolute value.
    pub fn cross(
        &mut self,
        table: &PowerTable,
        dir: &Direction,
        side: Side,
        values: &mut PowerValues,
    ) -> Result<(), AllocError>
        requires order { length self.old ≡ suc table.now.order }
        requires table { IsTable table.now }
        requires near { AreNear self.old }
        requires kept { AreKept table.now.rule self.old }
        ensures order { length self.new ≡ length self.old }
        ensures crosses { OnOk result
            (CrossesParts table.now (vector_of dir.now) (sign side) self.old self.new) }
        ensures within { OnOk result (CrossesWithin table.now self.old self.new) }
        ensures kept { OnOk result (AreKept table.now.rule self.new) }
    {
        values.begin();
        cross_parts(&mut self.parts, table, dir, side, values)
    }
    /// The terms of one degree: keys rise, like terms are added, and no coefficient is 0.
    pub fn sorted_part(&self, rule: Arithmetic, degree: u32) -> Result<Vec<(Key, i128)>, AllocError>
        requires degree { degree < length self.now }
        requires kept { AreKept rule self.now }
        ensures { IfOk result (λ r. IsSortedPart rule degree self.now (sum_of r.items)) }
    {
        self.parts[degree as usize].sorted(self.alloc, rule)
    }

    /// All terms: keys rise, like terms are added, and no coefficient is 0.
    pub fn sorted(&self, rule: Arithmetic) -> Result<Vec<(Key, i128)>, AllocError>
        requires { AreKept rule self.now }
        ensures { IfOk result (λ r. IsSortedWhole rule self.now (sum_of r.items)) }
    {
        let mut out = Vec::new(self.alloc);
        for part in &self.parts {
            let some = part.sorted(self.alloc, rule)?;
            out = merged(self.alloc, rule, out.as_slice(), some.as_slice())?;
        }
        Ok(out)
    }

    /// The sum of all coefficients where numbers saturate, or 2^126 + 1 where it is above that.
    pub fn mass(&self) -> u128
        requires { AreKept Arithmetic.Saturating self.now }
        ensures { IsMass self.now result }
    {
        let mut mass = 0;
        for part in &self.parts {
            mass = mass_with(mass, part.terms());
        }
        mass
    }
}

/// Crosses the parts, sources by falling degree, so that each is still the old one when it is read.
fn cross_parts(
    parts: &mut [TermSum],
    table: &PowerTable,
    dir: &Direction,
    side: Side,
    values: &mut PowerValues,
) -> Result<(), AllocError>
    requires order { length parts.old ≡ suc table.now.order }
    requires table { IsTable table.now }
    requires near { AreNear parts.old }
    requires kept { AreKept table.now.rule parts.old }
    requires values { AreOf table.now values.old }
    ensures order { length parts.new ≡ length parts.old }
    ensures crosses { OnOk result
        (CrossesParts table.now (vector_of dir.now) (sign side) parts.old parts.new) }
    ensures within { OnOk result (CrossesWithin table.now parts.old parts.new) }
    ensures kept { OnOk result (AreKept table.now.rule parts.new) }
{
    let mut source = (table.order() + 1).saturating_sub(table.least()) as usize;
    while source > 0 {
        source -= 1;
        let (low, above) = parts.split_at_mut(source + 1);
        cross_terms(above, low[source].terms(), table, dir, side, values)?;
    }
    Ok(())
}

/// Adds what the terms of one degree add to the parts of the degrees above it.
fn cross_terms(
    above: &mut [TermSum],
    terms: &[(Key, i128)],
    table: &PowerTable,
    dir: &Direction,
    side: Side,
    values: &mut PowerValues,
) -> Result<(), AllocError>
    requires table { IsTable table.now }
    requires order { length above.old ≤ table.now.order }
    requires near { HasNearTerms (sum_of terms.now) }
    requires degrees { Every (λ t. degree t.0 + length above.old ≤ highest_order) (sum_of terms.now) }
    requires terms { AreKeptValues table.now.rule (sum_of terms.now) }
    requires kept { AreKept table.now.rule above.old }
    requires values { AreOf table.now values.old }
    ensures order { length above.new ≡ length above.old }
    ensures low { OnOk result (LowPartsStay table.now above.old above.new) }
    ensures gains { OnOk result
        (GainsTerms table.now (vector_of dir.now) (sign side) (sum_of terms.now) above.old above.new) }
    ensures within { OnOk result (KeepsGrowth table.now (sum_of terms.now) above.old above.new) }
    ensures kept { OnOk result (AreKept table.now.rule above.new) }
    ensures values { OnOk result (AreOf table.now values.new) }
{
    for t in terms {
        let n = exponent(dir, side, &t.0.exp);
        cross_term(above, t, n, table, values)?;
    }
    Ok(())
}

/// Adds what one term adds, whose crossing gives the function's power with the exponent `n`.
fn cross_term(
    above: &mut [TermSum],
    t: &(Key, i128),
    n: i64,
    table: &PowerTable,
    values: &mut PowerValues,
) -> Result<(), AllocError>
    requires fits { FitsBelow table.now t.now above.old }
    requires values { AreOf table.now values.old }
    ensures order { length above.new ≡ length above.old }
    ensures low { OnOk result (LowPartsStay table.now above.old above.new) }
    ensures gains { OnOk result (GainsTerm table.now n (term_of t.now) above.old above.new) }
    ensures within { OnOk result (KeepsGrowth table.now (term_of t.now ∷ []) above.old above.new) }
    ensures kept { OnOk result (AreKept table.now.rule above.new) }
    ensures values { OnOk result (AreOf table.now values.new) }
{
    let c = t.1;
    if n == 0 || c == 0 {
        return Ok(());
    }
    if table.is_linear() {
        let c = product(table.rule(), &factor_of(table.rule(), n), &c);
        return add_rows(above, &(t.0, c), table, values, None);
    }
    let place = values.reach(table, n, above.len() as u32)?;
    add_rows(above, t, table, values, Some(place))
}

/// What multiplies the numbers of a table without higher powers, for the exponent `n`.
fn factor_of(rule: Arithmetic, n: i64) -> i128
    ensures { result ≡ first_factor rule n }
{
    match rule {
        Arithmetic::Wrapping => i128::from(n),
        Arithmetic::Saturating => i128::from(n.unsigned_abs()),
    }
}

/// The numbers of a row: those of u, or those of the power whose values are kept at the place.
fn row_numbers<'a>(
    table: &'a PowerTable,
    values: &'a PowerValues,
    place: Option<usize>,
    degree: u32,
) -> &'a [i128]
    requires { table.now.least ≤ degree }
    ensures { result.now ≡ row_numbers table.now values.now place degree }
{
    match place {
        Some(place) => values.part(table, place, degree),
        None => table.numbers(degree),
    }
}

/// Adds the term times the rows of u, or of the power whose values are kept at the place.
fn add_rows(
    above: &mut [TermSum],
    t: &(Key, i128),
    table: &PowerTable,
    values: &PowerValues,
    place: Option<usize>,
) -> Result<(), AllocError>
    requires fits { FitsBelow table.now t.now above.old }
    requires rows { AreNumbersTo table.now (length above.old)
        (row_numbers table.now values.now place) }
    ensures order { length above.new ≡ length above.old }
    ensures low { OnOk result (LowPartsStay table.now above.old above.new) }
    ensures rows { OnOk result
        (GetsRows table.now (row_numbers table.now values.now place) t.now above.old above.new) }
{
    for degree in table.least()..above.len() as u32 + 1 {
        let keys = table.keys(degree);
        let numbers = row_numbers(table, values, place, degree);
        above[degree as usize - 1].add_row(table.rule(), t, keys, numbers)?;
    }
    Ok(())
}

/// A mass and one coefficient more.
fn added(mass: u128, c: &i128) -> u128
    requires { pos 0 ≤ℤ c.now }
    ensures { result ≡ min (mass + nat_abs c.now) (largest_weight + 1) }
{
    mass.saturating_add(*c as u128).min(LIMIT)
}

/// A mass and that of some terms, or 2^126 + 1 where their sum is above that.
fn mass_with(mass: u128, terms: &[(Key, i128)]) -> u128
    requires mass { mass ≤ largest_weight + 1 }
    requires terms { AreKeptValues Arithmetic.Saturating (sum_of terms.now) }
    ensures { result ≡ min (mass + size (sum_of terms.now)) (largest_weight + 1) }
{
    let mut mass = mass;
    for t in terms {
        mass = added(mass, &t.1);
    }
    mass
}

/// Takes all terms out of each part.
fn clear_parts(parts: &mut [TermSum])
    ensures order { length parts.new ≡ length parts.old }
    ensures none { (e : ℕ) → part parts.new e ≡ [] }
{
    for at in 0..parts.len() {
        parts[at].clear();
    }
}

/// Has the parts stand for these terms alone: each is added to the part of its degree.
fn begin_with(
    parts: &mut [TermSum],
    rule: Arithmetic,
    terms: &[(Key, i128)],
) -> Result<(), AllocError>
    requires kept { AreKeptValues rule (sum_of terms.now) }
    requires low { Every (λ t. degree t.0 < length parts.old) (sum_of terms.now) }
    ensures order { length parts.new ≡ length parts.old }
    ensures parts { OnOk result (TakesParts rule (sum_of terms.now) parts.new) }
    ensures within { OnOk result (TakesWithin (sum_of terms.now) parts.new) }
{
    clear_parts(parts);
    for t in terms {
        parts[t.0.degree() as usize].add(rule, &t.0, t.1)?;
    }
    Ok(())
}
