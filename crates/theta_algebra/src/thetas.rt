// Theta functions.

ghost use Rattle.std.specs.Prelude.{◌≡◌, ◌≤◌, IfOk, IfErr, None};
ghost use Rattle.scattering.specs.Wall.{walls};
ghost use Rattle.scattering.specs.Theta.{IsAskFault};
ghost use Rattle.scattering.specs.ThetaProduct.{IsThetaWeight};
ghost use Rattle.plane_geom.specs.Shown.{point_of};
ghost use Rattle.trunc_series.specs.Shown.{exp_of, IsSeriesOf};
ghost use Rattle.broken_lines.specs.Traced.{IsAskable, IsTailsFault};
ghost use Rattle.theta_algebra.specs.LineValues.{traced_sum, AreFound};
ghost use Rattle.theta_algebra.specs.Thetas.{IsThetaOf};

use crate::line_values::sum_of_values;
use broken_lines::{AskFault, LineTracer, Tail};
use plane_geom::Point;
use scatter_diagram::Diagram;
use std::alloc::{AllocError, Global};
use trunc_series::sorted_terms::Arithmetic;
use trunc_series::{Exp, Series};

/// The sum of the values of the lines of the complete ones among all tails for m at a point.
fn sum_of_lines(
    alloc: Global,
    tracer: &mut LineTracer<'_>,
    m: Exp,
    tails: &[Tail],
) -> Result<Series, AllocError>
    requires asked { IsAskable m }
    requires tails { AreFound tracer.old.walls tracer.old.limit (exp_of m) tails.now }
    ensures same { tracer.new ≡ tracer.old }
    ensures sum { IfOk result (λ s. IsSeriesOf s tracer.old.limit
        (traced_sum tracer.old.walls tracer.old.limit (exp_of m) tails.now)) }
{
    let limit = tracer.limit();
    let sum = sum_of_values(alloc, tracer, m, tails)?;
    let terms = sum.sorted(alloc, Arithmetic::Wrapping)?;
    Ok(Series::from_sorted(alloc, limit, terms))
}

/// The theta function of m at a point, to the degree to which the walls are cut, and the sum of the weights of all
/// tails; for m = (0, 0) the weight is 1.
pub(crate) fn weighed_theta(
    alloc: Global,
    tracer: &mut LineTracer<'_>,
    m: Exp,
    at: &Point,
) -> Result<(Series, u128), AskFault>
    requires { IsAskable m }
    ensures same { tracer.new ≡ tracer.old }
    ensures theta { IfOk result
        (λ r. IsThetaOf tracer.old.walls tracer.old.limit (exp_of m) (point_of at.now) r.0) }
    ensures weight { IfOk result
        (λ r. IsThetaWeight tracer.old.walls tracer.old.limit (exp_of m) (point_of at.now) r.1) }
    ensures free { IfOk result
        (λ r. IsAskFault tracer.old.walls tracer.old.limit (exp_of m) (point_of at.now) None) }
    ensures fault { IfErr result
        (IsTailsFault tracer.old.walls tracer.old.limit (exp_of m) (point_of at.now)) }
{
    let limit = tracer.limit();
    let traced = tracer.tails(alloc, m, at)?;
    if m.a == 0 && m.b == 0 {
        let one = Series::one(alloc, limit)?;
        return Ok((one, traced.weight));
    }
    let theta = sum_of_lines(alloc, tracer, m, traced.tails.as_slice())?;
    Ok((theta, traced.weight))
}

/// The theta function of m at a point, to order `limit`: the sum of the final monomials of all broken lines that
/// come with the exponent m and end there. For m = (0, 0) it is 1.
///
/// Both numbers of m are at most 2048 in absolute value. The faults are those of `tails`.
pub fn theta(alloc: Global, e: &Diagram, m: Exp, at: &Point, limit: u32) -> Result<Series, AskFault>
    requires limit { limit ≤ e.now.order }
    requires asked { IsAskable m }
    ensures theta { IfOk result
        (IsThetaOf (walls e.now.diagram) limit (exp_of m) (point_of at.now)) }
    ensures free { IfOk result
        (λ s. IsAskFault (walls e.now.diagram) limit (exp_of m) (point_of at.now) None) }
    ensures fault { IfErr result
        (IsTailsFault (walls e.now.diagram) limit (exp_of m) (point_of at.now)) }
{
    let mut tracer = LineTracer::new(alloc, e, limit)?;
    let weighed = weighed_theta(alloc, &mut tracer, m, at)?;
    Ok(weighed.0)
}
