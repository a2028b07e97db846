// The steps of a product: degree by degree, the terms by which the family's sum still differs from it.

ghost use Rattle.std.specs.Prelude.{◌≡◌, ◌≤◌, ◌+◌, ◌-◌, ◌*◌, min, nat_abs, neg_ℤ, IfOk, IfErr, [], ◌∷◌, ◌++◌, ℕ};
ghost use Rattle.limits.specs.Limits.{highest_order, largest_weight};
ghost use Rattle.scattering.specs.Series.{Sum, degree, mul};
ghost use Rattle.scattering.specs.Wall.{walls};
ghost use Rattle.scattering.specs.ThetaProduct.{StepsFault};
ghost use Rattle.plane_geom.specs.Shown.{point_of};
ghost use Rattle.trunc_series.specs.Shown.{exp_of, key_of, sum_of};
ghost use Rattle.trunc_series.specs.Reduced.{IsKeptAs, IsFactor};
ghost use Rattle.trunc_series.specs.declared.arithmetic.Arithmetic.TheVariants.{Wrapping};
ghost use Rattle.broken_lines.specs.Traced.{IsFaultBy, IsTailsFault};
ghost use Rattle.theta_algebra.specs.Steps.{IsKnownDiagram, IsBegun, IsLeastDegreeAt, IsAtStage, IsAtSomeStage, IsTermTaken, CanBeTaken, Leaves};
ghost use Rattle.theta_algebra.specs.KeptThetas.{AreKeptThetas};

use crate::kept_thetas::KeptThetas;
use crate::tracers::Tracers;
use broken_lines::AskFault;
use limits::LARGEST_WEIGHT;
use plane_geom::Point;
use std::alloc::{AllocError, Global};
use trunc_series::sorted_terms::{Arithmetic, level, merged, multiplied};
use trunc_series::{Exp, Key};

/// The family so far, what it leaves of the product modulo 2^128, and the running weight, or a number above 2^126.
/// The term c·t^P·z^r of the family is the term c·t^P of the series at r.
#[derive(Drop)]
pub(crate) struct Steps {
    pub(crate) family: Vec<(Key, i128)>,
    pub(crate) left: Vec<(Key, i128)>,
    pub(crate) weight: u128,
}

/// The least degree at an exponent, or `limit` where none is below.
fn begun_at(family: &[(Key, i128)], r: Exp, limit: u32) -> u32
    ensures bound { result ≤ limit }
    ensures least { IsLeastDegreeAt (sum_of family.now) (exp_of r) limit result }
{
    let mut least = limit;
    for t in family {
        if t.0.exp == r {
            least = least.min(t.0.degree());
        }
    }
    least
}

/// The running weight with one more term, or 2^126 + 1 where it is above 2^126.
fn grown(weight: u128, c: i128, theta: u128) -> u128
    ensures { result ≡ min (weight + nat_abs c * theta) (largest_weight + 1) }
{
    let part = c.unsigned_abs().saturating_mul(theta);
    weight.saturating_add(part).min(LARGEST_WEIGHT + 1)
}

/// -c
fn opposite(c: i128) -> i128
    requires { nat_abs c ≤ largest_weight }
    ensures { result ≡ neg_ℤ c }
{
    -c
}

/// What is left without the product of a theta with the powers and the coefficient of a term.
fn less(
    alloc: Global,
    limit: u32,
    left: &[(Key, i128)],
    t: &(Key, i128),
    theta: &[(Key, i128)],
) -> Result<Vec<(Key, i128)>, AllocError>
    requires order { limit ≤ highest_order }
    requires low { degree (key_of t.now.0) ≤ limit }
    requires small { nat_abs t.now.1 ≤ largest_weight }
    requires theta { IsFactor Wrapping (sum_of theta.now) }
    ensures { IfOk result (λ r. Leaves limit left.now t.now theta.now r.items) }
{
    let powers = Key {
        exp: Exp { a: 0, b: 0 },
        powers: t.0.powers,
    };
    let mut term = Vec::new(alloc);
    term.push((powers, opposite(t.1)))?;
    let product = multiplied(alloc, Arithmetic::Wrapping, limit, term.as_slice(), theta)?;
    merged(alloc, Arithmetic::Wrapping, left, product.as_slice())
}

/// Takes the product of a term with the theta of its exponent from what is left.
fn take(
    thetas: &mut KeptThetas,
    alloc: Global,
    tracers: &mut Tracers<'_>,
    at: &Point,
    limit: u32,
    before: Steps,
    t: &(Key, i128),
) -> Result<Steps, AskFault>
    requires given { IsKnownDiagram tracers.old limit }
    requires term { CanBeTaken limit (sum_of before.family.items) t.now }
    requires kept { AreKeptThetas (walls tracers.old.diagram) (point_of at.now) thetas.old }
    ensures same { tracers.new ≡ tracers.old }
    ensures taken { IfOk result (IsTermTaken (walls tracers.old.diagram) limit (point_of at.now)
        t.now before) }
    ensures fault { IfErr result (λ f. (i : ℕ) →
        IsBegun limit (sum_of before.family.items) t.now i →
        IsTailsFault (walls tracers.old.diagram) (limit - i) (exp_of t.now.0.exp)
        (point_of at.now) f) }
    ensures kept { AreKeptThetas (walls tracers.old.diagram) (point_of at.now) thetas.new }
{
    let begun = begun_at(before.family.as_slice(), t.0.exp, limit);
    let theta = thetas.weighed(alloc, tracers, t.0.exp, at, limit - begun)?;
    let weight = grown(before.weight, t.1, theta.1);
    let left = less(alloc, limit, before.left.as_slice(), t, theta.0.terms())?;
    Ok(Steps {
        family: before.family,
        left,
        weight,
    })
}

/// Step d: the terms of degree d that are left are terms of the family.
pub(crate) fn step(
    thetas: &mut KeptThetas,
    alloc: Global,
    tracers: &mut Tracers<'_>,
    at: &Point,
    limit: u32,
    d: u32,
    before: Steps,
) -> Result<Steps, AskFault>
    requires given { IsKnownDiagram tracers.old limit }
    requires degree { d ≤ limit }
    requires before { IsAtSomeStage (walls tracers.old.diagram) limit (point_of at.now) d before }
    requires kept { AreKeptThetas (walls tracers.old.diagram) (point_of at.now) thetas.old }
    ensures same { tracers.new ≡ tracers.old }
    ensures after { IfOk result (λ after. (s : Sum) (first : ℕ) →
        IsAtStage (walls tracers.old.diagram) limit (point_of at.now) s first d before →
        IsAtStage (walls tracers.old.diagram) limit (point_of at.now) s first (d + 1) after) }
    ensures fault { IfErr result (λ f. (s : Sum) (first : ℕ) →
        IsAtStage (walls tracers.old.diagram) limit (point_of at.now) s first d before →
        IsFaultBy (StepsFault (walls tracers.old.diagram) limit (point_of at.now) s first) f) }
    ensures kept { AreKeptThetas (walls tracers.old.diagram) (point_of at.now) thetas.new }
{
    let new = level(alloc, d, before.left.as_slice())?;
    let family = merged(
        alloc,
        Arithmetic::Wrapping,
        before.family.as_slice(),
        new.as_slice(),
    )?;
    let mut steps = Steps {
        family,
        left: before.left,
        weight: before.weight,
    };
    for t in new.as_slice() {
        steps = take(thetas, alloc, tracers, at, limit, steps, t)?;
    }
    if steps.weight > LARGEST_WEIGHT {
        return Err(AskFault::WeightTooLarge);
    }
    Ok(steps)
}
