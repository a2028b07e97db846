// Products of two theta functions.

ghost use Rattle.std.specs.Prelude.{◌≡◌, ◌≤◌, ◌+◌, ℕ, IfOk, IfErr, None};
ghost use Rattle.scattering.specs.Wall.{walls};
ghost use Rattle.scattering.specs.Series.{Sum};
ghost use Rattle.scattering.specs.ThetaProduct.{IsProductFault, StepsFault};
ghost use Rattle.plane_geom.specs.Shown.{point_of};
ghost use Rattle.trunc_series.specs.Shown.{exp_of};
ghost use Rattle.broken_lines.specs.Traced.{IsFaultBy};
ghost use Rattle.theta_algebra.specs.Families.{IsFactorExp, IsFamilyOf};
ghost use Rattle.theta_algebra.specs.Steps.{IsKnownDiagram, IsAtStage, IsAtSomeStage, IsBegunProduct};
ghost use Rattle.theta_algebra.specs.KeptThetas.{AreKeptThetas};

use crate::family::parts;
use crate::kept_thetas::KeptThetas;
use crate::steps::{Steps, step};
use crate::tracers::Tracers;
use broken_lines::AskFault;
use limits::LARGEST_WEIGHT;
use plane_geom::Point;
use scatter_diagram::Diagram;
use std::alloc::Global;
use trunc_series::sorted_terms::{Arithmetic, multiplied};
use trunc_series::{Exp, Series};

/// Before the first step: no family, and the product as it is.
fn begun(
    thetas: &mut KeptThetas,
    alloc: Global,
    tracers: &mut Tracers<'_>,
    p: Exp,
    q: Exp,
    at: &Point,
    limit: u32,
) -> Result<Steps, AskFault>
    requires given { IsKnownDiagram tracers.old limit }
    requires first { IsFactorExp p }
    requires second { IsFactorExp q }
    requires kept { AreKeptThetas (walls tracers.old.diagram) (point_of at.now) thetas.old }
    ensures same { tracers.new ≡ tracers.old }
    ensures begun { IfOk result (IsBegunProduct (walls tracers.old.diagram) limit (exp_of p)
        (exp_of q) (point_of at.now)) }
    ensures fault { IfErr result (IsFaultBy (IsProductFault (walls tracers.old.diagram) limit
        (exp_of p) (exp_of q) (point_of at.now))) }
    ensures kept { AreKeptThetas (walls tracers.old.diagram) (point_of at.now) thetas.new }
{
    let first = thetas.weighed(alloc, tracers, p, at, limit)?;
    let second = thetas.weighed(alloc, tracers, q, at, limit)?;
    let weight = first.1.saturating_mul(second.1);
    if weight > LARGEST_WEIGHT {
        return Err(AskFault::WeightTooLarge);
    }
    let x = first.0.terms();
    let y = second.0.terms();
    let left = multiplied(alloc, Arithmetic::Wrapping, limit, x, y)?;
    let family = Vec::new(alloc);
    Ok(Steps {
        family,
        left,
        weight,
    })
}

/// All steps, one after another.
fn run(
    thetas: &mut KeptThetas,
    alloc: Global,
    tracers: &mut Tracers<'_>,
    at: &Point,
    limit: u32,
    begun: Steps,
) -> Result<Steps, AskFault>
    requires given { IsKnownDiagram tracers.old limit }
    requires begun { IsAtSomeStage (walls tracers.old.diagram) limit (point_of at.now) 0 begun }
    requires kept { AreKeptThetas (walls tracers.old.diagram) (point_of at.now) thetas.old }
    ensures same { tracers.new ≡ tracers.old }
    ensures after { IfOk result (λ after. (s : Sum) (first : ℕ) →
        IsAtStage (walls tracers.old.diagram) limit (point_of at.now) s first 0 begun →
        IsAtStage (walls tracers.old.diagram) limit (point_of at.now) s first (limit + 1) after) }
    ensures fault { IfErr result (λ f. (s : Sum) (first : ℕ) →
        IsAtStage (walls tracers.old.diagram) limit (point_of at.now) s first 0 begun →
        IsFaultBy (StepsFault (walls tracers.old.diagram) limit (point_of at.now) s first) f) }
{
    let mut steps = begun;
    for d in 0..limit + 1 {
        steps = step(thetas, alloc, tracers, at, limit, d, steps)?;
    }
    Ok(steps)
}

/// The product of the theta functions of p and q at a point to order `limit`, as `theta_product` tells it.
pub(crate) fn product_of(
    tracers: &mut Tracers<'_>,
    alloc: Global,
    p: Exp,
    q: Exp,
    at: &Point,
    limit: u32,
) -> Result<Vec<(Exp, Series)>, AskFault>
    requires limit { limit ≤ tracers.old.order }
    requires first { IsFactorExp p }
    requires second { IsFactorExp q }
    ensures same { tracers.new ≡ tracers.old }
    ensures family { IfOk result (λ f. IsFamilyOf (walls tracers.old.diagram) limit (exp_of p)
        (exp_of q) (point_of at.now) f.items) }
    ensures free { IfOk result (λ f. IsProductFault (walls tracers.old.diagram) limit (exp_of p)
        (exp_of q) (point_of at.now) None) }
    ensures fault { IfErr result (IsFaultBy (IsProductFault (walls tracers.old.diagram) limit
        (exp_of p) (exp_of q) (point_of at.now))) }
{
    // the diagram's order is asked for what its type says of its walls
    let order = tracers.order();
    prove!(limit <= order);
    let mut thetas = KeptThetas::new(alloc);
    let begun = begun(&mut thetas, alloc, tracers, p, q, at, limit)?;
    let steps = run(&mut thetas, alloc, tracers, at, limit, begun)?;
    Ok(parts(alloc, limit, steps.family.as_slice())?)
}

/// The product of the theta functions of p and q at a point as the one family of series a_r, each with whole
/// coefficients, whose sum of a_r·theta_r is that product to order `limit`. It is sorted by r, and has no series
/// that is 0. Each theta_r is taken to the order `limit` less the least degree of a_r.
///
/// The numbers of p and q are at most 64 in absolute value. The fault is the first of these: that of the theta of p,
/// that of q, too much weight where the product of their weights is above 2^126; then, degree by degree, that of
/// the thetas whose series begin at this degree, sorted, and too much weight of the terms up to this degree.
pub fn theta_product(
    alloc: Global,
    e: &Diagram,
    p: Exp,
    q: Exp,
    at: &Point,
    limit: u32,
) -> Result<Vec<(Exp, Series)>, AskFault>
    requires limit { limit ≤ e.now.order }
    requires first { IsFactorExp p }
    requires second { IsFactorExp q }
    ensures family { IfOk result (λ f. IsFamilyOf (walls e.now.diagram) limit (exp_of p) (exp_of q)
        (point_of at.now) f.items) }
    ensures free { IfOk result (λ f. IsProductFault (walls e.now.diagram) limit (exp_of p)
        (exp_of q) (point_of at.now) None) }
    ensures fault { IfErr result (IsFaultBy (IsProductFault (walls e.now.diagram) limit
        (exp_of p) (exp_of q) (point_of at.now))) }
{
    let mut tracers = Tracers::new(alloc, e);
    product_of(&mut tracers, alloc, p, q, at, limit)
}
