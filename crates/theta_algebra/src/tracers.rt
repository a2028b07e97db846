// Tracers that are kept for later thetas.

ghost use Rattle.std.specs.Prelude.{◌≡◌, ◌≤◌, IfOk, IfErr, None};
ghost use Rattle.limits.specs.Limits.{highest_order};
ghost use Rattle.scattering.specs.Collections.{Every};
ghost use Rattle.scattering.specs.Wall.{walls, IsWall};
ghost use Rattle.scattering.specs.Theta.{IsAskFault};
ghost use Rattle.scattering.specs.ThetaProduct.{IsThetaWeight};
ghost use Rattle.plane_geom.specs.Shown.{point_of};
ghost use Rattle.trunc_series.specs.Shown.{exp_of};
ghost use Rattle.scatter_diagram.specs.Proper.{AreTameWalls};
ghost use Rattle.bend_finder.specs.Ahead.{finder};
ghost use Rattle.broken_lines.specs.Traced.{IsAskable, IsTailsFault};
ghost use Rattle.theta_algebra.specs.Thetas.{IsThetaOf};
ghost use Rattle.theta_algebra.specs.Tracers.{AreTracersOf};

use crate::thetas::weighed_theta;
use broken_lines::{AskFault, LineTracer};
use plane_geom::Point;
use scatter_diagram::Diagram;
use std::alloc::{AllocError, Global};
use std::collections::BTreeMap;
use std::marker::Model;
use trunc_series::{Exp, Series};

/// Tracers of the lines of one diagram, one for each order to which a theta function was asked: what was found of the
/// walls for one query is kept for the later ones. Contracts see of it the diagram, which is lent.
///
/// Where memory is wanting, what was kept for that order is let go, and found anew when it is needed.
#[derive(Drop)]
pub struct Tracers<'e> {
    diagram: &'e Diagram,
    tracers: BTreeMap<u32, LineTracer<'e>>,
}

impl<'e> Model for Tracers<'e> {
    ghost use Rattle.scattering.specs.Wall.{walls};
    ghost use Rattle.scatter_diagram.specs.Listed.{SeenDiagram};
    ghost use Rattle.theta_algebra.specs.Tracers.{AreTracersOf};

    ghost Value = { SeenDiagram };

    ghost view = { λ t. t.diagram.now };

    ghost invariant = { λ t. AreTracersOf (walls t.diagram.now.diagram) t.tracers };
}

/// The tracer to order `limit`: the one that is kept, which is taken out, or a new one.
fn taken_tracer<'e>(
    alloc: Global,
    kept: &mut BTreeMap<u32, LineTracer<'e>>,
    e: &'e Diagram,
    limit: u32,
) -> Result<LineTracer<'e>, AllocError>
    requires limit { limit ≤ e.now.order }
    requires kept { AreTracersOf (walls e.now.diagram) kept.old }
    ensures tracer { IfOk result (λ t. t ≡ finder (walls e.now.diagram) limit) }
    ensures kept { AreTracersOf (walls e.now.diagram) kept.new }
{
    match kept.remove(&limit) {
        Some(tracer) => Ok(tracer),
        None => LineTracer::new(alloc, e, limit),
    }
}

impl<'e> Tracers<'e> {
    /// None yet. It takes no memory.
    pub fn new(alloc: Global, e: &'e Diagram) -> Tracers<'e>
        ensures { result ≡ e.now }
    {
        Tracers {
            diagram: e,
            tracers: BTreeMap::new(alloc),
        }
    }

    /// The diagram's order.
    pub(crate) fn order(&self) -> u32
        ensures value { result ≡ self.now.order }
        ensures bound { result ≤ highest_order }
        ensures proper { Every (IsWall self.now.order) (walls self.now.diagram) }
        ensures tame { AreTameWalls (walls self.now.diagram) }
    {
        self.diagram.order()
    }

    /// The theta function of m at a point to order `limit`, and the sum of the weights of all tails, as `weighed_theta`
    /// tells them.
    pub(crate) fn weighed(
        &mut self,
        alloc: Global,
        m: Exp,
        at: &Point,
        limit: u32,
    ) -> Result<(Series, u128), AskFault>
        requires limit { limit ≤ self.old.order }
        requires asked { IsAskable m }
        ensures same { self.new ≡ self.old }
        ensures theta { IfOk result
            (λ r. IsThetaOf (walls self.old.diagram) limit (exp_of m) (point_of at.now) r.0) }
        ensures weight { IfOk result
            (λ r. IsThetaWeight (walls self.old.diagram) limit (exp_of m) (point_of at.now) r.1) }
        ensures free { IfOk result
            (λ r. IsAskFault (walls self.old.diagram) limit (exp_of m) (point_of at.now) None) }
        ensures fault { IfErr result
            (IsTailsFault (walls self.old.diagram) limit (exp_of m) (point_of at.now)) }
    {
        let mut tracer = taken_tracer(alloc, &mut self.tracers, self.diagram, limit)?;
        let weighed = weighed_theta(alloc, &mut tracer, m, at);
        self.tracers.insert(limit, tracer)?;
        weighed
    }
}
