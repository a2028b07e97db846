// One diagram's lines, traced for one ask after another.

ghost use Rattle.std.specs.Prelude.{◌≡◌, ◌≤◌, ℕ, IfOk, IfErr, None};
ghost use Rattle.limits.specs.Limits.{highest_order, largest_weight};
ghost use Rattle.scattering.specs.Collections.{Every};
ghost use Rattle.scattering.specs.Series.{coef, degree};
ghost use Rattle.scattering.specs.BrokenLine.{bend_series};
ghost use Rattle.scattering.specs.Theta.{IsAskFault};
ghost use Rattle.scattering.specs.Wall.{walls, cut_walls, IsWall};
ghost use Rattle.plane_geom.specs.Shown.{point_of};
ghost use Rattle.trunc_series.specs.Shown.{exp_of, key_of};
ghost use Rattle.scatter_diagram.specs.Proper.{AreTameWalls};
ghost use Rattle.bend_finder.specs.Ahead.{finder, IsTraceable, bend_of, bend_weight};
ghost use Rattle.broken_lines.specs.LineTracer.{IsKnownReach};
ghost use Rattle.broken_lines.specs.Traced.{IsAskable, AreTails, IsTailsFault};
ghost use Rattle.broken_lines.specs.Reached.{IsReachMap, IsReachFault};

use crate::fault::AskFault;
use crate::moving::moving_tails;
use crate::node::Ask;
use crate::reaching::reach_map;
use crate::tail::Traced;
use bend_finder::{Bend, BendFinder};
use plane_geom::Point;
use scatter_diagram::Diagram;
use std::alloc::{AllocError, Global};
use std::collections::BTreeMap;
use std::marker::Model;
use trunc_series::Exp;

/// The walls of a diagram with their functions cut to a degree, ready to trace lines for one ask after another: what an
/// ask needs of the walls alone is found once.
#[derive(Drop)]
pub struct LineTracer<'e> {
    diagram: &'e Diagram,
    limit: u32,
    stretches: BendFinder<'e>,
    /// The exponents in reach, from the first ask on that needs them.
    known: Option<BTreeMap<Exp, u32>>,
}

impl<'e> Model for LineTracer<'e> {
    ghost use Rattle.scattering.specs.Wall.{walls};
    ghost use Rattle.bend_finder.specs.Ahead.{SeenFinder, finder};
    ghost use Rattle.broken_lines.specs.LineTracer.{IsReadyToTrace};

    ghost Value = { SeenFinder };

    ghost view = { λ t. finder (walls t.diagram.now.diagram) t.limit };

    ghost invariant = { λ t. IsReadyToTrace t.limit t.diagram.now t.stretches t.known };
}

/// The exponents in reach: those that are known, which are taken out.
fn taken_reach(
    alloc: Global,
    known: &mut Option<BTreeMap<Exp, u32>>,
    e: &Diagram,
    limit: u32,
) -> Result<BTreeMap<Exp, u32>, AskFault>
    requires limit { limit ≤ e.now.order }
    requires known { IsKnownReach limit (walls e.now.diagram) known.old }
    ensures none { known.new ≡ None }
    ensures reach { IfOk result (IsReachMap limit (walls e.now.diagram)) }
    ensures fault { IfErr result (IsReachFault limit (walls e.now.diagram)) }
{
    match known.take() {
        Some(reach) => Ok(reach),
        None => reach_map(alloc, e, limit),
    }
}

impl<'e> LineTracer<'e> {
    /// The walls of a diagram with their functions cut to degree `limit`.
    pub fn new(alloc: Global, e: &'e Diagram, limit: u32) -> Result<LineTracer<'e>, AllocError>
        requires { limit ≤ e.now.order }
        ensures { IfOk result (λ t. t ≡ finder (walls e.now.diagram) limit) }
    {
        let stretches = BendFinder::new(alloc, e, limit)?;
        Ok(LineTracer {
            diagram: e,
            limit,
            stretches,
            known: None,
        })
    }

    /// The degree to which the walls' functions are cut.
    pub fn limit(&self) -> u32
        ensures value { result ≡ self.now.limit }
        ensures bound { result ≤ highest_order }
        ensures proper { (order : ℕ) × Every (IsWall order) self.now.walls }
        ensures tame { AreTameWalls self.now.walls }
    {
        // the diagram's order is asked for what its type says of its walls
        let order = self.diagram.order();
        prove!(self.limit <= order);
        self.limit
    }

    /// All tails for the exponent m at a point, as `tails` tells them.
    pub fn tails(&mut self, alloc: Global, m: Exp, at: &Point) -> Result<Traced, AskFault>
        requires { IsAskable m }
        ensures same { self.new ≡ self.old }
        ensures tails { IfOk result
            (λ t. AreTails self.old.walls self.old.limit (exp_of m) (point_of at.now) t) }
        ensures free { IfOk result
            (λ t. IsAskFault self.old.walls self.old.limit (exp_of m) (point_of at.now) None) }
        ensures fault { IfErr result
            (IsTailsFault self.old.walls self.old.limit (exp_of m) (point_of at.now)) }
    {
        if self.stretches.is_on_live_wall(at) {
            return Err(AskFault::NotGeneric { at: *at });
        }
        if m.a == 0 && m.b == 0 {
            return Ok(Traced {
                tails: Vec::new(alloc),
                weight: 1,
            });
        }
        // the diagram's order is asked for what its type says of its walls
        let order = self.diagram.order();
        prove!(self.limit <= order);
        let limit = self.limit;
        let known = taken_reach(alloc, &mut self.known, self.diagram, limit)?;
        let ask = Ask {
            known,
            m,
            at: *at,
            limit,
        };
        let traced = moving_tails(alloc, &mut self.stretches, &ask);
        self.known = Some(ask.known);
        traced
    }

    /// The coefficient of F^n at the key of a bend, where a broken line with the exponent x turns: F is the product
    /// of the functions of the live walls there, n = |det(d, x)| for their direction d.
    pub fn value(&mut self, x: Exp, bend: &Bend) -> Result<i128, AllocError>
        requires small { IsTraceable x }
        requires degree { degree (key_of bend.now.key) ≤ self.old.limit }
        requires light { bend_weight self.old.walls self.old.limit (exp_of x) (bend_of bend.now)
            ≤ largest_weight }
        ensures same { self.new ≡ self.old }
        ensures value { IfOk result (λ c. c ≡ coef (bend_series self.old.limit
            (cut_walls self.old.limit self.old.walls) (point_of bend.now.at) (exp_of x))
            (key_of bend.now.key)) }
    {
        self.stretches.value(x, bend)
    }
}
