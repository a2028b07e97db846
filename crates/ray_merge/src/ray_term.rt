// The terms of one correction in the order of their rays.

ghost use Rattle.std.specs.Prelude.{◌≡◌, ◌≢◌, ◌≤◌, ℤ, IfOk, drop, length, take};
ghost use Rattle.limits.specs.Limits.{highest_order};
ghost use Rattle.scattering.specs.Collections.{Every, EveryPair, in_order};
ghost use Rattle.scattering.specs.Series.{Exp, Key as SeriesKey, coef};
ghost use Rattle.plane_geom.specs.Shown.{vector_of};
ghost use Rattle.trunc_series.specs.Fronts.{IsFirst};
ghost use Rattle.trunc_series.specs.Shown.{sum_of};
ghost use Rattle.ray_merge.specs.Additions.{IsRayTerm};
ghost use Rattle.ray_merge.specs.Rays.{mass_along};
ghost use Rattle.ray_merge.specs.RayTerms.{AreRayTerms, IsAlong, code_terms, term_before, terms_of};
ghost use Rattle.ray_merge.specs.declared.ray_term.RayTerm.{RayTerm as CodeTerm};

use crate::ray::primitive;
use plane_geom::Direction;
use scatter_diagram::compare_directions;
use std::alloc::{AllocError, Global};
use std::cmp::Ordering;
use trunc_series::Key;

/// A term of a ray, and the ray's direction.
#[derive(Clone, Copy)]
pub(crate) struct RayTerm {
    pub(crate) dir: Direction,
    pub(crate) key: Key,
    pub(crate) value: i128,
}

/// The terms, each with the direction of its exponent.
fn with_directions(
    alloc: Global,
    order: u32,
    terms: &[(Key, i128)],
) -> Result<Vec<RayTerm>, AllocError>
    requires order { order ≤ highest_order }
    requires each { Every (IsRayTerm order) (sum_of terms.now) }
    ensures terms { IfOk result (λ r. terms_of r.items ≡ sum_of terms.now) }
    ensures along { IfOk result (λ r. Every IsAlong r.items) }
{
    let mut out = Vec::with_capacity(alloc, terms.len())?;
    for t in terms {
        out.push(RayTerm {
            dir: primitive(&t.0),
            key: t.0,
            value: t.1,
        })?;
    }
    Ok(out)
}

fn by_direction(terms: Vec<RayTerm>) -> Result<Vec<RayTerm>, AllocError>
    ensures { IfOk result (λ r. r.items ≡ in_order term_before terms.items) }
{
    let mut sorted = terms;
    sorted.sort_by(|t, u| compare_directions(&t.dir, &u.dir))?;
    Ok(sorted)
}

/// The terms in the order of their directions.
pub(crate) fn ray_terms(
    alloc: Global,
    order: u32,
    terms: &[(Key, i128)],
) -> Result<Vec<RayTerm>, AllocError>
    requires order { order ≤ highest_order }
    requires each { Every (IsRayTerm order) (sum_of terms.now) }
    requires distinct { EveryPair (λ t u. t.0 ≢ u.0) (sum_of terms.now) }
    ensures terms { IfOk result (λ r. AreRayTerms order r.items) }
    ensures values { IfOk result
        (λ r. (k : SeriesKey) → coef (terms_of r.items) k ≡ coef (sum_of terms.now) k) }
    ensures masses { IfOk result
        (λ r. (d : Exp) → mass_along order (terms_of r.items) d ≡
        mass_along order (sum_of terms.now) d) }
{
    by_direction(with_directions(alloc, order, terms)?)
}

/// How many terms at the head of the list are along the direction.
pub(crate) fn run_length(dir: &Direction, terms: &[RayTerm]) -> usize
    ensures within { result ≤ length terms.now }
    ensures along { Every (λ t. vector_of t.dir ≡ vector_of dir.now) (take result terms.now) }
    ensures next { (t : CodeTerm) → IsFirst t (drop result terms.now) →
        vector_of t.dir ≢ vector_of dir.now }
{
    for i in 0..terms.len() {
        if compare_directions(&terms[i].dir, dir) != Ordering::Equal {
            return i;
        }
    }
    terms.len()
}

/// The terms without their directions.
pub(crate) fn plain(alloc: Global, terms: &[RayTerm]) -> Result<Vec<(Key, i128)>, AllocError>
    ensures { IfOk result (λ r. r.items ≡ code_terms terms.now) }
{
    terms.iter().map(|t| (t.key, t.value)).collect(alloc)
}
