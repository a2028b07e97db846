// Single rays: read at a higher order, joined with another, or made of one term.

ghost use Rattle.std.specs.Prelude.{◌≡◌, ◌≢◌, ◌≤◌, ◌<◌, IfOk, filter, length, not};
ghost use Rattle.limits.specs.Limits.{highest_order};
ghost use Rattle.scattering.specs.Collections.{Every, EveryPair};
ghost use Rattle.scattering.specs.Series.{IsMultiple, key_eq, origin, unit};
ghost use Rattle.plane_geom.specs.Shown.{vector_of, point_of};
ghost use Rattle.trunc_series.specs.Shown.{key_of, sum_of};
ghost use Rattle.scatter_diagram.specs.Shown.{wall_of};
ghost use Rattle.ray_merge.specs.Additions.{IsTameKey, IsRayTerm, IsLightAlong, IsWithOne};
ghost use Rattle.ray_merge.specs.Rays.{IsJoinable, IsJoined, IsRayOf};

use frac_128::gcd;
use plane_geom::{Direction, Point};
use scatter_diagram::{Wall, WallKind};
use std::alloc::{AllocError, Global};
use trunc_series::sorted_terms::{Arithmetic, merged};
use trunc_series::{Key, Series, is_constant};

/// The ray with its function read at a higher order.
pub(crate) fn raised(alloc: Global, order: u32, ray: &Wall) -> Result<Wall, AllocError>
    requires order { order ≤ highest_order }
    requires lower { ray.now.function.order ≤ order }
    ensures wall { IfOk result (λ w. wall_of w ≡ wall_of ray.now) }
    ensures order { IfOk result (λ w. w.function.order ≡ order) }
{
    let copied = Vec::from_slice(alloc, ray.function.terms())?;
    let function = Series::from_sorted(alloc, order, copied);
    Ok(Wall {
        kind: ray.kind,
        at: ray.at,
        dir: ray.dir,
        function,
    })
}

/// The terms but the constant one.
fn others(alloc: Global, terms: &[(Key, i128)]) -> Result<Vec<(Key, i128)>, AllocError>
    ensures { IfOk result (λ r. r.items ≡ filter (λ t. not (key_eq (key_of t.0) unit)) terms.now) }
{
    let others = terms.iter().filter(|t| !is_constant(&t.0));
    others.copied().collect(alloc)
}

/// The first ray with the terms of the second, which has the same direction.
pub(crate) fn joined(alloc: Global, order: u32, r: &Wall, s: &Wall) -> Result<Wall, AllocError>
    requires order { order ≤ highest_order }
    requires left { r.now.function.order ≤ order }
    requires right { s.now.function.order ≤ order }
    requires dir { (wall_of r.now).dir ≡ (wall_of s.now).dir }
    requires joinable { IsJoinable order (wall_of r.now) (wall_of s.now) }
    ensures wall { IfOk result (λ w. IsJoined order (wall_of r.now) (wall_of s.now) (wall_of w)) }
    ensures order { IfOk result (λ w. w.function.order ≡ order) }
{
    let more = others(alloc, s.function.terms())?;
    let rule = Arithmetic::Wrapping;
    let terms = merged(alloc, rule, r.function.terms(), more.as_slice())?;
    let function = Series::from_sorted(alloc, order, terms);
    Ok(Wall {
        kind: r.kind,
        at: r.at,
        dir: r.dir,
        function,
    })
}

/// m/gcd(m), for the exponent m of the key.
pub(crate) fn primitive(key: &Key) -> Direction
    requires exponent { (key_of key.now).exp ≢ origin }
    requires tame { IsTameKey highest_order (key_of key.now) }
    ensures { IsMultiple (vector_of result) (key_of key.now).exp }
{
    let (a, b) = (key.exp.a, key.exp.b);
    let g = gcd(a.unsigned_abs() as u128, b.unsigned_abs() as u128) as i32;
    Direction { a: a / g, b: b / g }
}

/// Whether multiples of the direction stand after 0 in the order of keys.
fn leads(dir: &Direction) -> bool {
    dir.a > 0 || (dir.a == 0 && dir.b > 0)
}

/// The terms, which are along the direction, with 1 where it stands by the order of keys.
fn with_one(
    alloc: Global,
    dir: &Direction,
    terms: &[(Key, i128)],
) -> Result<Vec<(Key, i128)>, AllocError>
    ensures { IfOk result (λ r. IsWithOne (sum_of terms.now) (sum_of r.items)) }
{
    let mut out = Vec::with_capacity(alloc, terms.len() + 1)?;
    if leads(dir) {
        out.push((Key::ONE, 1))?;
        out.extend_from_slice(terms)?;
    } else {
        out.extend_from_slice(terms)?;
        out.push((Key::ONE, 1))?;
    }
    Ok(out)
}

/// The ray from the point along the direction whose function is 1 and these terms.
pub(crate) fn ray_of(
    alloc: Global,
    order: u32,
    at: &Point,
    dir: &Direction,
    terms: &[(Key, i128)],
) -> Result<Wall, AllocError>
    requires some { 1 ≤ order }
    requires order { order ≤ highest_order }
    requires any { 0 < length terms.now }
    requires each { Every (IsRayTerm order) (sum_of terms.now) }
    requires along { Every (λ t. IsMultiple (vector_of dir.now) t.0.exp) (sum_of terms.now) }
    requires distinct { EveryPair (λ t u. t.0 ≢ u.0) (sum_of terms.now) }
    requires light { IsLightAlong order (sum_of terms.now) }
    ensures wall { IfOk result (λ w. IsRayOf order (point_of at.now) (sum_of terms.now) (wall_of w)) }
    ensures dir { IfOk result (λ w. (wall_of w).dir ≡ vector_of dir.now) }
    ensures order { IfOk result (λ w. w.function.order ≡ order) }
{
    let all = with_one(alloc, dir, terms)?;
    Ok(Wall {
        kind: WallKind::Outgoing,
        at: *at,
        dir: *dir,
        function: Series::from_terms(alloc, order, all.as_slice())?,
    })
}
