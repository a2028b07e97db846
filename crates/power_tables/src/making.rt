// The powers of u, and parts by degree that are made of them.

ghost use Rattle.std.specs.Prelude.{◌≡◌, ◌≤◌, ◌<◌, ◌+◌, ◌-◌, ◌*◌, ◌/◌, [], map, length, IfOk, OnOk};
ghost use Rattle.limits.specs.Limits.{highest_order};
ghost use Rattle.scattering.specs.Collections.{Every};
ghost use Rattle.scattering.specs.Series.{Sum, degree, cut, mul};
ghost use Rattle.scattering.specs.ThetaProduct.{of_degree};
ghost use Rattle.trunc_series.specs.Shown.{sum_of};
ghost use Rattle.trunc_series.specs.Sums.{AreKeptValues, StandsFor};
ghost use Rattle.trunc_series.specs.Reduced.{IsNearKey};
ghost use Rattle.power_tables.specs.Made.{code_others, IsOthers, ArePowersFrom, AreLevels, AreListed, AreMadeOf, IsLinearPart, AreLinearParts};

use crate::columns::part_of;
use crate::table::Part;
use std::alloc::{AllocError, Global};
use trunc_series::Key;
use trunc_series::sorted_terms::{
    Arithmetic, LowRows, TermSum, absolutes, level, multiply_into, one_term, without_constant,
};

/// The terms of f - 1, or of |f| - 1 where numbers saturate.
pub fn others_of(
    alloc: Global,
    rule: Arithmetic,
    terms: &[(Key, i128)],
) -> Result<Vec<(Key, i128)>, AllocError>
    ensures { IfOk result (λ r. sum_of r.items ≡ code_others rule (sum_of terms.now)) }
{
    let others = without_constant(alloc, terms)?;
    match rule {
        Arithmetic::Wrapping => Ok(others),
        Arithmetic::Saturating => absolutes(alloc, others.as_slice()),
    }
}

/// The least degree of the terms, or `most` where none is lower.
pub fn least_degree(terms: &[(Key, i128)], most: u32) -> u32
    requires positive { Every (λ t. 1 ≤ degree t.0) (sum_of terms.now) }
    requires most { 1 ≤ most }
    ensures positive { 1 ≤ result }
    ensures within { result ≤ most }
    ensures least { Every (λ t. result ≤ degree t.0) (sum_of terms.now) }
{
    let mut least = most;
    for i in 0..terms.len() {
        least = least.min(terms[i].0.degree());
    }
    least
}

/// The part of u alone.
fn linear_part(alloc: Global, degree: u32, u: &[(Key, i128)]) -> Result<Part, AllocError>
    ensures { IfOk result (IsLinearPart (of_degree degree (sum_of u.now))) }
{
    let mut keys = Vec::new(alloc);
    let mut first = Vec::new(alloc);
    for i in 0..u.len() {
        if u[i].0.degree() == degree {
            keys.push(u[i].0)?;
            first.push(u[i].1)?;
        }
    }
    keys.shrink_to_fit();
    first.shrink_to_fit();
    let higher = Vec::new(alloc);
    Ok(Part {
        keys,
        first,
        higher,
    })
}

/// The parts of u alone, of the degrees from `least` to `order`.
fn linear_parts(
    alloc: Global,
    least: u32,
    order: u32,
    u: &[(Key, i128)],
) -> Result<Vec<Part>, AllocError>
    requires order { order ≤ highest_order }
    requires least { least ≤ order + 1 }
    ensures parts { IfOk result (λ r. AreLinearParts (sum_of u.now) least r.items) }
    ensures count { IfOk result (λ r. length r.items ≡ order + 1 - least) }
{
    let mut parts = Vec::with_capacity(alloc, (order + 1 - least) as usize)?;
    for degree in least..order + 1 {
        parts.push(linear_part(alloc, degree, u)?)?;
    }
    Ok(parts)
}

/// The first `count` powers u, u^2 and so on, without terms of degree above `order`. `m` is the order of u.
fn powers_of(
    alloc: Global,
    rule: Arithmetic,
    order: u32,
    count: usize,
    m: u32,
    u: &[(Key, i128)],
) -> Result<Vec<Vec<(Key, i128)>>, AllocError>
    requires order { order ≤ highest_order }
    requires others { IsOthers rule m (sum_of u.now) }
    ensures powers { IfOk result (λ r. ArePowersFrom rule order (sum_of u.now) 1 r.items) }
    ensures count { IfOk result (λ r. length r.items ≡ count) }
{
    let lows = LowRows::new(alloc, order, u)?;
    let mut next = TermSum::new(alloc);
    let mut powers = Vec::new(alloc);
    let mut last = one_term(alloc)?;
    for i in 0..count {
        multiply_into(&mut next, rule, last.as_slice(), &lows)?;
        last = Vec::from_slice(alloc, next.terms())?;
        powers.push(Vec::from_slice(alloc, next.terms())?)?;
    }
    Ok(powers)
}

/// The terms of one degree of each list.
fn levels_of(
    alloc: Global,
    degree: u32,
    lists: &[Vec<(Key, i128)>],
) -> Result<Vec<Vec<(Key, i128)>>, AllocError>
    ensures { IfOk result (λ r. AreLevels degree lists.now r.items) }
{
    let mut levels = Vec::new(alloc);
    for r in 0..lists.len() {
        levels.push(level(alloc, degree, lists[r].as_slice())?)?;
    }
    Ok(levels)
}

/// The parts of the degrees from `least` to `order`, by the powers of u that have terms there.
fn parts_of(
    alloc: Global,
    rule: Arithmetic,
    least: u32,
    order: u32,
    powers: &[Vec<(Key, i128)>],
) -> Result<Vec<Part>, AllocError>
    requires positive { 1 ≤ least }
    requires order { order ≤ highest_order }
    requires least { least ≤ order + 1 }
    requires count { length powers.now ≡ order / least }
    requires values { Every (λ p. AreKeptValues rule (sum_of p.items)) powers.now }
    ensures parts { IfOk result (λ r. AreListed rule powers.now least least r.items) }
    ensures count { IfOk result (λ r. length r.items ≡ order + 1 - least) }
{
    let mut found = TermSum::new(alloc);
    let mut parts = Vec::with_capacity(alloc, (order + 1 - least) as usize)?;
    for degree in least..order + 1 {
        let count = (degree / least) as usize;
        let lists = levels_of(alloc, degree, &powers[..count])?;
        let part = part_of(alloc, rule, lists.as_slice(), &mut found)?;
        parts.push(part)?;
    }
    Ok(parts)
}

/// The parts of the degrees from `least` to `order`. `m` is the order of u.
pub fn made_parts(
    alloc: Global,
    rule: Arithmetic,
    order: u32,
    least: u32,
    m: u32,
    u: &[(Key, i128)],
) -> Result<Vec<Part>, AllocError>
    requires order { order ≤ highest_order }
    requires positive { 1 ≤ least }
    requires least { least ≤ order + 1 }
    requires others { IsOthers rule m (sum_of u.now) }
    ensures parts { IfOk result (λ r. AreMadeOf rule m (sum_of u.now) least r.items) }
    ensures count { IfOk result (λ r. length r.items ≡ order + 1 - least) }
{
    if 2 * least > order {
        return linear_parts(alloc, least, order, u);
    }
    let count = (order / least) as usize;
    let powers = powers_of(alloc, rule, order, count, m, u)?;
    parts_of(alloc, rule, least, order, powers.as_slice())
}
