// Lists of rays, merged, and the diagram of the next order.

ghost use Rattle.std.specs.Prelude.{◌≡◌, ◌≢◌, ◌⊎◌, ◌+◌, ◌<◌, ◌≤◌, ◌^◌, List, [], ◌∷◌, ◌++◌, cond, drop, length, pos, ◌+ℤ◌, None, IfOk, IfSome, OnOk, MatchResult};
ghost use Rattle.limits.specs.Limits.{highest_order};
ghost use Rattle.scattering.specs.Collections.{Every};
ghost use Rattle.scattering.specs.Series.{Exp, Key as SeriesKey, Sum, coef, IsMultiple};
ghost use Rattle.scattering.specs.Plane.{Point as PlanePoint, IsDirection, point_eq};
ghost use Rattle.scattering.specs.Wall.{Wall as SeenWall};
ghost use Rattle.scattering.specs.Correction.{ray_coef, IsAdded, AreMergeable};
ghost use Rattle.plane_geom.specs.Shown.{point_of};
ghost use Rattle.trunc_series.specs.Fronts.{IsFirst, first_after, second_after};
ghost use Rattle.scatter_diagram.specs.Shown.{wall_of, walls_of};
ghost use Rattle.scatter_diagram.specs.Listed.{AreOfOrder, AreRays, AreSeenRays};
ghost use Rattle.ray_merge.specs.Additions.{AreAdded, IsAddable, IsTameElement, IsLight, IsLightAlong, corrections_of};
ghost use Rattle.ray_merge.specs.RayTerms.{AreRayTerms, terms_of};
ghost use Rattle.ray_merge.specs.Rays.{AreFronts, AreJoinable, AreLoads, HasNewTerms, IsFirstRay, IsFrontOf, mass_along, place_count};
ghost use Rattle.ray_merge.specs.Answer.{AreLight, AreTame, StayWithin, IsMergedTo, IsStoppedAt};

use crate::additions::added_terms;
use crate::place::compare_places;
use crate::ray::{joined, raised, ray_of};
use crate::ray_term::{RayTerm, plain, ray_terms, run_length};
use limits::MOST_WALLS;
use plane_geom::Point;
use scatter_diagram::{Diagram, Initial, Stop, StopCause, Wall, cut_walls};
use std::alloc::{AllocError, Global};
use std::cmp::Ordering;
use std::collections::VecDeque;
use vertex_lie::LieElement;

/// How the rays at two places stand, while the diagram and the list both have one there.
fn order_at(e: &Diagram, i: usize, added: &VecDeque<Wall>, j: usize) -> Option<Ordering>
    ensures fronts { IfSome result
        (λ o. AreFronts o (drop i e.now.diagram.rays) (drop j (walls_of added.now.items))) }
    ensures ended { result ≡ None →
        (drop i e.now.diagram.rays ≡ []) ⊎ (drop j (walls_of added.now.items) ≡ []) }
    ensures bounds { IfSome result (λ o. (i < 2 ^ 63) × (j < 2 ^ 63)) }
{
    if i < e.ray_count() && j < added.len() {
        Some(compare_places(e.ray(i), &added[j]))
    } else {
        None
    }
}

/// Where the first of two lists is read on, after rays that stood so.
fn next_first(place: Ordering, i: usize) -> usize
    requires { i < 2 ^ 63 }
    ensures rays { (r : List SeenWall) → drop result r ≡ first_after place (drop i r) }
    ensures bound { result ≤ i + 1 }
{
    match place {
        Ordering::Greater => i,
        _ => i + 1,
    }
}

/// Where the second is read on.
fn next_second(place: Ordering, i: usize) -> usize
    requires { i < 2 ^ 63 }
    ensures rays { (r : List SeenWall) → drop result r ≡ second_after place (drop i r) }
    ensures bound { result ≤ i + 1 }
{
    match place {
        Ordering::Less => i,
        _ => i + 1,
    }
}

/// How many starts and directions the rays of the diagram and of the list have.
fn place_count(e: &Diagram, added: &VecDeque<Wall>) -> usize
    ensures count { result ≡ place_count e.now.diagram.rays (walls_of added.now.items) }
    ensures rays { AreSeenRays e.now.order e.now.diagram.rays }
{
    let ray_count = e.ray_count();
    let mut count = 0;
    let mut i = 0;
    let mut j = 0;
    while let Some(place) = order_at(e, i, added, j) {
        count += 1;
        i = next_first(place, i);
        j = next_second(place, j);
    }
    count + (ray_count - i) + (added.len() - j)
}

/// Takes the first ray of a list that has one.
fn take_first(rays: &mut VecDeque<Wall>) -> Wall
    requires { rays.old.items ≢ [] }
    ensures { rays.old.items ≡ result ∷ rays.new.items }
{
    rays.pop_front().unwrap()
}

/// What comes first of a ray and of a list whose first ray stands so to it, read at the order: one of these,
/// or both joined where they have one start and direction. What comes from the list is taken.
fn take_next(
    alloc: Global,
    order: u32,
    place: Ordering,
    ray: &Wall,
    added: &mut VecDeque<Wall>,
) -> Result<Wall, AllocError>
    requires order { order ≤ highest_order }
    requires lower { ray.now.function.order ≤ order }
    requires added { AreOfOrder order added.old.items }
    requires front { IsFrontOf place (wall_of ray.now) (walls_of added.old.items) }
    requires joinable { AreJoinable order (wall_of ray.now ∷ []) (walls_of added.old.items) }
    ensures next { IfOk result (λ w. (s : SeenWall) → IsFirst s (walls_of added.old.items) →
        IsFirstRay order place (wall_of ray.now) s (wall_of w)) }
    ensures order { IfOk result (λ w. w.function.order ≡ order) }
    ensures rest { OnOk result (added.new.items ≡ second_after place added.old.items) }
{
    match place {
        Ordering::Less => raised(alloc, order, ray),
        Ordering::Equal => joined(alloc, order, ray, &take_first(added)),
        Ordering::Greater => Ok(take_first(added)),
    }
}

/// Puts the rays of the diagram from a place on behind others, read at the order.
fn push_raised(
    alloc: Global,
    order: u32,
    e: &Diagram,
    from: usize,
    out: &mut Vec<Wall>,
) -> Result<(), AllocError>
    requires order { order ≤ highest_order }
    requires lower { e.now.order ≤ order }
    requires out { AreOfOrder order out.old.items }
    ensures walls { OnOk result
        (walls_of out.new.items ≡ walls_of out.old.items ++ drop from e.now.diagram.rays) }
    ensures order { OnOk result (AreOfOrder order out.new.items) }
{
    for i in from..e.ray_count() {
        out.push(raised(alloc, order, e.ray(i))?)?;
    }
    Ok(())
}

/// The rays of the diagram and of the list in order, where those of one start and direction are joined.
fn merged_rays(
    alloc: Global,
    order: u32,
    e: &Diagram,
    added: VecDeque<Wall>,
) -> Result<Vec<Wall>, AllocError>
    requires order { order ≤ highest_order }
    requires lower { e.now.order ≤ order }
    requires added { AreRays order added.items }
    requires joinable { AreJoinable order e.now.diagram.rays (walls_of added.items) }
    ensures rays { IfOk result (λ r. AreRays order r.items) }
    ensures terms { IfOk result
        (λ r. (p : PlanePoint) (d : Exp) (k : SeriesKey) → ray_coef (walls_of r.items) p d k ≡
        ray_coef e.now.diagram.rays p d k +ℤ ray_coef (walls_of added.items) p d k) }
    ensures count { IfOk result
        (λ r. length r.items ≡ place_count e.now.diagram.rays (walls_of added.items)) }
{
    let mut out = Vec::with_capacity(alloc, e.ray_count())?;
    let mut left = added;
    let mut i = 0;
    while let Some(place) = order_at(e, i, &left, 0) {
        out.push(take_next(alloc, order, place, e.ray(i), &mut left)?)?;
        i = next_first(place, i);
    }
    push_raised(alloc, order, e, i, &mut out)?;
    out.append(&mut Vec::from(left))?;
    Ok(out)
}

/// The rays from the point that have the terms.
fn rays_of(
    alloc: Global,
    order: u32,
    at: &Point,
    terms: &[RayTerm],
) -> Result<Vec<Wall>, AllocError>
    requires some { 1 ≤ order }
    requires order { order ≤ highest_order }
    requires terms { AreRayTerms order terms.now }
    requires light { IsLightAlong order (terms_of terms.now) }
    ensures rays { IfOk result (λ r. AreRays order r.items) }
    ensures terms { IfOk result
        (λ r. (p : PlanePoint) (d : Exp) (k : SeriesKey) → IsDirection d → IsMultiple d k.exp →
        ray_coef (walls_of r.items) p d k ≡ cond (point_eq (point_of at.now) p)
        (coef (terms_of terms.now) k) (pos 0)) }
    ensures loads { IfOk result
        (λ r. AreLoads order (mass_along order (terms_of terms.now)) (walls_of r.items)) }
{
    let mut out = Vec::new(alloc);
    let mut left = terms;
    while left.len() > 0 {
        let dir = left[0].dir;
        let (run, others) = left.split_at(run_length(&dir, left));
        let run = plain(alloc, run)?;
        out.push(ray_of(alloc, order, at, &dir, run.as_slice())?)?;
        left = others;
    }
    Ok(out)
}

/// The rays that have the terms which one correction adds.
fn rays_at(
    alloc: Global,
    order: u32,
    correction: &(Point, LieElement),
) -> Result<Vec<Wall>, AllocError>
    requires some { 1 ≤ order }
    requires order { order ≤ highest_order }
    requires addable { IsAddable order correction.now.1 }
    requires tame { IsTameElement order correction.now.1 }
    requires light { IsLight correction.now.1 }
    requires within { (f : Sum) → AreAdded correction.now.1 f → IsLightAlong order f }
    ensures rays { IfOk result (λ r. AreRays order r.items) }
    ensures starts { IfOk result
        (λ r. Every (λ w. w.at ≡ point_of correction.now.0) (walls_of r.items)) }
    ensures added { IfOk result
        (λ r. (p : PlanePoint) (d : Exp) (k : SeriesKey) → IsDirection d → IsMultiple d k.exp →
        IsAdded (corrections_of (correction.now ∷ [])) p k (ray_coef (walls_of r.items) p d k)) }
    ensures terms { IfOk result
        (λ r. Every (HasNewTerms order (corrections_of (correction.now ∷ []))) (walls_of r.items)) }
{
    let terms = added_terms(alloc, &correction.1)?;
    let sorted = ray_terms(alloc, order, terms.as_slice())?;
    rays_of(alloc, order, &correction.0, sorted.as_slice())
}

/// The rays that have the terms which the corrections add.
fn added_rays(
    alloc: Global,
    order: u32,
    corrections: &[(Point, LieElement)],
) -> Result<Vec<Wall>, AllocError>
    requires some { 1 ≤ order }
    requires order { order ≤ highest_order }
    requires mergeable { AreMergeable order (corrections_of corrections.now) }
    requires tame { AreTame order (corrections_of corrections.now) }
    requires light { AreLight (corrections_of corrections.now) }
    requires within { Every (λ c. (f : Sum) → AreAdded c.1 f → IsLightAlong order f)
        (corrections_of corrections.now) }
    ensures rays { IfOk result (λ r. AreRays order r.items) }
    ensures added { IfOk result
        (λ r. (p : PlanePoint) (d : Exp) (k : SeriesKey) → IsDirection d → IsMultiple d k.exp →
        IsAdded (corrections_of corrections.now) p k (ray_coef (walls_of r.items) p d k)) }
    ensures terms { IfOk result
        (λ r. Every (HasNewTerms order (corrections_of corrections.now)) (walls_of r.items)) }
{
    let mut out = Vec::new(alloc);
    for correction in corrections {
        let mut rays = rays_at(alloc, order, correction)?;
        out.append(&mut rays)?;
    }
    Ok(out)
}

/// The diagram of order `order` from that of the order before, `e`, and the corrections of this order at
/// points in order: the initial walls cut to it, and the rays of `e` with the corrections' terms. For a
/// diagram with more than 8192 walls the answer is `TooManyWalls`.
pub fn merged(
    alloc: Global,
    initial: &Initial,
    e: &Diagram,
    corrections: &[(Point, LieElement)],
    order: u32,
) -> Result<Diagram, Stop>
    requires order { order ≤ highest_order }
    requires next { e.now.order + 1 ≡ order }
    requires mergeable { AreMergeable order (corrections_of corrections.now) }
    requires tame { AreTame order (corrections_of corrections.now) }
    requires light { AreLight (corrections_of corrections.now) }
    requires within { StayWithin order (corrections_of corrections.now) e.now.diagram.rays }
    ensures { MatchResult result
        (IsMergedTo initial.now.lines e.now.diagram (corrections_of corrections.now) order)
        (IsStoppedAt initial.now.lines e.now.diagram (corrections_of corrections.now) order) }
{
    let added = VecDeque::from(added_rays(alloc, order, corrections)?);
    let given = initial.lines();
    if place_count(e, &added) > MOST_WALLS - given.len() {
        return Err(Stop::At {
            order,
            cause: StopCause::TooManyWalls,
        });
    }
    let lines = cut_walls(alloc, order, given)?;
    let rays = merged_rays(alloc, order, e, added)?;
    Ok(Diagram::from_walls(alloc, order, lines, rays)?)
}
