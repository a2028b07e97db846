// Thetas that are kept for later terms of a product.

ghost use Rattle.std.specs.Prelude.{◌≡◌, ◌≤◌, IfOk, IfErr, OnOk, List, None};
ghost use Rattle.scattering.specs.Plane.{Point as PlanePoint};
ghost use Rattle.scattering.specs.Wall.{Wall, walls};
ghost use Rattle.scattering.specs.Theta.{IsAskFault};
ghost use Rattle.scattering.specs.ThetaProduct.{IsThetaWeight};
ghost use Rattle.plane_geom.specs.Shown.{point_of};
ghost use Rattle.trunc_series.specs.Shown.{exp_of};
ghost use Rattle.broken_lines.specs.Traced.{IsAskable, IsTailsFault};
ghost use Rattle.theta_algebra.specs.Thetas.{IsThetaOf};
ghost use Rattle.theta_algebra.specs.KeptThetas.{AreKeptThetas, KeepsTheta};

use crate::tracers::Tracers;
use broken_lines::AskFault;
use plane_geom::Point;
use std::alloc::{AllocError, Global};
use std::collections::BTreeMap;
use trunc_series::{Exp, Series};

/// A theta function to order `limit`, and the sum of the weights of its tails.
#[derive(Drop)]
pub(crate) struct KeptTheta {
    pub(crate) limit: u32,
    pub(crate) theta: Series,
    pub(crate) weight: u128,
}

/// Thetas at one point of one diagram, by their exponents, each to the order for which it was last asked.
#[derive(Drop)]
pub(crate) struct KeptThetas {
    pub(crate) thetas: BTreeMap<Exp, KeptTheta>,
}

impl KeptThetas {
    /// None yet.
    pub(crate) fn new(alloc: Global) -> KeptThetas
        ensures { (ws : List Wall) (q : PlanePoint) → AreKeptThetas ws q result }
    {
        KeptThetas {
            thetas: BTreeMap::new(alloc),
        }
    }

    /// Keeps a copy of a theta in the place of what is kept at its exponent.
    fn keep(&mut self, m: Exp, limit: u32, weighed: &(Series, u128)) -> Result<(), AllocError>
        ensures { KeepsTheta m limit weighed.now self.old self.new }
    {
        let theta = weighed.0.copy()?;
        let kept = KeptTheta {
            limit,
            theta,
            weight: weighed.1,
        };
        self.thetas.insert(m, kept)?;
        Ok(())
    }

    /// The theta function of m at the point, and the sum of the weights of all tails, as `weighed_theta` tells them. It
    /// is traced only where it isn't kept; a copy takes less than the product that is made of it.
    pub(crate) fn weighed(
        &mut self,
        alloc: Global,
        tracers: &mut Tracers<'_>,
        m: Exp,
        at: &Point,
        limit: u32,
    ) -> Result<(Series, u128), AskFault>
        requires limit { limit ≤ tracers.old.order }
        requires asked { IsAskable m }
        requires kept { AreKeptThetas (walls tracers.old.diagram) (point_of at.now) self.old }
        ensures same { tracers.new ≡ tracers.old }
        ensures theta { IfOk result
            (λ r. IsThetaOf (walls tracers.old.diagram) limit (exp_of m) (point_of at.now) r.0) }
        ensures weight { IfOk result (λ r. IsThetaWeight (walls tracers.old.diagram) limit
            (exp_of m) (point_of at.now) r.1) }
        ensures free { IfOk result
            (λ r. IsAskFault (walls tracers.old.diagram) limit (exp_of m) (point_of at.now) None) }
        ensures fault { IfErr result
            (IsTailsFault (walls tracers.old.diagram) limit (exp_of m) (point_of at.now)) }
        ensures kept { AreKeptThetas (walls tracers.old.diagram) (point_of at.now) self.new }
    {
        if let Some(kept) = self.thetas.get(&m) {
            if kept.limit == limit {
                return Ok((kept.theta.copy()?, kept.weight));
            }
        }
        let weighed = tracers.weighed(alloc, m, at, limit)?;
        self.keep(m, limit, &weighed)?;
        Ok(weighed)
    }
}
