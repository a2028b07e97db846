// Sorted lists of terms, merged, tested and told apart: no coefficient is 0 and no key stands twice.

ghost use Rattle.std.specs.Prelude.{◌++◌, IfOk, OnOk, IsTrue, filter, nat_le, ◌≡◌, ◌==◌, ◌↔◌};
ghost use Rattle.scattering.specs.Collections.{Every, EveryPair};
ghost use Rattle.scattering.specs.Series.{key_before, degree};
ghost use Rattle.trunc_series.specs.Shown.{key_of, term_of, sum_of};
ghost use Rattle.trunc_series.specs.Arithmetic.{IsKeepable};
ghost use Rattle.trunc_series.specs.Reduced.{AddsUp, absolute_sum, first_terms, key_order, unless_zero};

use crate::Key;
use crate::arithmetic::{Arithmetic, absolute, sum};
use crate::key::compare;
use crate::rests::Rests;
use std::alloc::{AllocError, Global};
use std::cmp::Ordering;

/// Appends a term, unless its coefficient is 0.
fn push_nonzero(out: &mut Vec<(Key, i128)>, key: Key, c: i128) -> Result<(), AllocError>
    ensures { OnOk result (out.new.items ≡ out.old.items ++ unless_zero (key, c)) }
{
    if c != 0 {
        out.push((key, c))?;
    }
    Ok(())
}

/// Appends the first of two terms, or their sum where they have one key, and tells how their keys stand.
fn push_first(
    rule: Arithmetic,
    out: &mut Vec<(Key, i128)>,
    x: &(Key, i128),
    y: &(Key, i128),
) -> Result<Ordering, AllocError>
    requires x { IsKeepable rule x.now.1 }
    requires y { IsKeepable rule y.now.1 }
    ensures order { IfOk result (λ o. o ≡ key_order (key_of x.now.0) (key_of y.now.0)) }
    ensures pushed { IfOk result
        (λ o. out.new.items ≡ out.old.items ++ first_terms rule o x.now y.now) }
{
    let order = compare(&x.0, &y.0);
    match order {
        Ordering::Less => out.push(*x)?,
        Ordering::Greater => out.push(*y)?,
        Ordering::Equal => push_nonzero(out, x.0, sum(rule, &x.1, &y.1))?,
    }
    Ok(order)
}

/// The terms of two sorted lists as one.
pub fn merged(
    alloc: Global,
    rule: Arithmetic,
    a: &[(Key, i128)],
    b: &[(Key, i128)],
) -> Result<Vec<(Key, i128)>, AllocError>
    requires left { Every (λ t. IsKeepable rule t.1) (sum_of a.now) }
    requires right { Every (λ t. IsKeepable rule t.1) (sum_of b.now) }
    ensures { IfOk result (λ r. AddsUp rule a.now b.now r.items) }
{
    let mut out = Vec::with_capacity(alloc, a.len() + b.len())?;
    let mut rests = Rests::new(a, b);
    while let Some((x, y)) = rests.fronts() {
        let order = push_first(rule, &mut out, x, y)?;
        rests.advance(order);
    }
    out.extend_from_slice(rests.first)?;
    out.extend_from_slice(rests.second)?;
    Ok(out)
}

/// Whether the keys rise.
pub fn rises(terms: &[(Key, i128)]) -> bool
    ensures { IsTrue result → EveryPair (λ t u. IsTrue (key_before t.0 u.0)) (sum_of terms.now) }
{
    for i in 1..terms.len() {
        if compare(&terms[i - 1].0, &terms[i].0) != Ordering::Less {
            return false;
        }
    }
    true
}

/// The terms of degree at most `order`.
pub fn low_terms(
    alloc: Global,
    order: u32,
    terms: &[(Key, i128)],
) -> Result<Vec<(Key, i128)>, AllocError>
    ensures { IfOk result (λ r. r.items ≡ filter (λ t. nat_le (degree (key_of t.0)) order) terms.now) }
{
    let low = terms.iter().filter(|t| t.0.degree() <= order);
    low.copied().collect(alloc)
}

/// The terms of one degree.
pub fn level(alloc: Global, d: u32, terms: &[(Key, i128)]) -> Result<Vec<(Key, i128)>, AllocError>
    ensures { IfOk result (λ r. r.items ≡ filter (λ t. degree (key_of t.0) == d) terms.now) }
{
    let level = terms.iter().filter(|t| t.0.degree() == d);
    level.copied().collect(alloc)
}

/// The terms with the absolute values of their coefficients, as they are kept.
pub fn absolutes(alloc: Global, terms: &[(Key, i128)]) -> Result<Vec<(Key, i128)>, AllocError>
    ensures { IfOk result (λ r. sum_of r.items ≡ absolute_sum (sum_of terms.now)) }
{
    let mut out = Vec::with_capacity(alloc, terms.len())?;
    for t in terms {
        out.push((t.0, absolute(&t.1)))?;
    }
    Ok(out)
}

fn same_number(c: &i128, d: &i128) -> bool
    ensures { IsTrue result ↔ (c.now ≡ d.now) }
{
    *c == *d
}

/// Whether two terms have the same key and coefficient.
fn same_term(t: &(Key, i128), u: &(Key, i128)) -> bool
    ensures { IsTrue result ↔ (term_of t.now ≡ term_of u.now) }
{
    match compare(&t.0, &u.0) {
        Ordering::Equal => same_number(&t.1, &u.1),
        _ => false,
    }
}

/// Whether two lists have the same terms in the same order.
pub fn same_terms(a: &[(Key, i128)], b: &[(Key, i128)]) -> bool
    ensures { IsTrue result ↔ (sum_of a.now ≡ sum_of b.now) }
{
    if a.len() != b.len() {
        return false;
    }
    for i in 0..a.len() {
        if !same_term(&a[i], &b[i]) {
            return false;
        }
    }
    true
}
