// The tails at a point.

ghost use Rattle.std.specs.Prelude.{◌≤◌, IfOk, IfErr, None};
ghost use Rattle.scattering.specs.Theta.{IsAskFault};
ghost use Rattle.scattering.specs.Wall.{walls};
ghost use Rattle.plane_geom.specs.Shown.{point_of};
ghost use Rattle.trunc_series.specs.Shown.{exp_of};
ghost use Rattle.broken_lines.specs.Traced.{IsAskable, AreTails, IsTailsFault};

use crate::fault::AskFault;
use crate::line_tracer::LineTracer;
use crate::tail::Traced;
use plane_geom::Point;
use scatter_diagram::Diagram;
use std::alloc::Global;
use trunc_series::Exp;

/// All tails for the exponent m at a point, sorted by root and then by bends, where a list of bends comes before
/// those that it begins, and the sum of their weights, at most 2^126. A tail is traced backwards from the point:
/// at each bend the exponent of a term of |F|^n is taken away, where F is the product of the functions of the
/// live walls there, cut to `limit`, and all along m stays within reach of what is left of `limit`. For
/// m = (0, 0) no tails are traced, and the weight is 1.
///
/// Both numbers of m are at most 2048 in absolute value. The fault is the first of these that applies: a live
/// wall is on the point; m isn't (0, 0) and more than 2^18 exponents are reached; there are more than 2^20
/// tails; some tail goes on to cross a live wall in a point with a number above 2^40; the weights sum to more
/// than 2^126; some tail goes on through a special point, of which the least is told.
pub fn tails(alloc: Global, e: &Diagram, m: Exp, at: &Point, limit: u32) -> Result<Traced, AskFault>
    requires limit { limit ≤ e.now.order }
    requires asked { IsAskable m }
    ensures tails { IfOk result
        (λ t. AreTails (walls e.now.diagram) limit (exp_of m) (point_of at.now) t) }
    ensures free { IfOk result
        (λ t. IsAskFault (walls e.now.diagram) limit (exp_of m) (point_of at.now) None) }
    ensures fault { IfErr result
        (IsTailsFault (walls e.now.diagram) limit (exp_of m) (point_of at.now)) }
{
    let mut tracer = LineTracer::new(alloc, e, limit)?;
    tracer.tails(alloc, m, at)
}
