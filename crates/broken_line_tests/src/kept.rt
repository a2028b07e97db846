// What is kept from one ask to the next, among the two lines at order 2: it changes no answer.

ghost use Rattle.std.specs.Prelude.{◌≤◌};
ghost use Rattle.broken_lines.specs.Traced.{IsAskable};

use crate::answers::{has_product, has_theta};
use crate::tails::{exp, two_lines};
use broken_lines::{AskFault, LineTracer, tails};
use plane_geom::Point;
use sample_walls::place;
use scatter_diagram::Diagram;
use std::alloc::Global;
use std::test::Fail;
use theta_algebra::{Query, QueryKind, Tracers};
use trunc_series::Exp;

// Whether a tracer to order 2 tells the tails for an exponent at a point, or the fault, as a new one does.
fn tells_as_anew(
    alloc: Global,
    tracer: &mut LineTracer<'_>,
    e: &Diagram,
    m: Exp,
    at: &Point,
) -> bool
    requires order { 2 ≤ e.now.order }
    requires asked { IsAskable m }
{
    tracer.tails(alloc, m, at) == tails(alloc, e, m, at, 2)
}

// Whether one tracer tells tails at two points, for (0, 0), on a wall and through a special point, and once more.
fn one_tracer_tells_all(alloc: Global) -> Result<bool, Fail> {
    let e = two_lines(alloc)?;
    let mut tracer = LineTracer::new(alloc, &e, 2)?;
    let m = exp(-1, -1);
    let p = place(2, 1)?;
    let first = tells_as_anew(alloc, &mut tracer, &e, exp(0, 0), &p)
        && tells_as_anew(alloc, &mut tracer, &e, m, &p)
        && tells_as_anew(alloc, &mut tracer, &e, m, &place(1, 2)?);
    let faults = tells_as_anew(alloc, &mut tracer, &e, m, &place(0, 5)?)
        && tells_as_anew(alloc, &mut tracer, &e, m, &place(1, 1)?);
    Ok(first && faults && tells_as_anew(alloc, &mut tracer, &e, m, &p))
}

#[test]
fn a_tracer_serves_all_asks(rt: HostRuntime) -> Result<(), Fail> {
    assert!(rt; one_tracer_tells_all(rt.alloc())?);
    Ok(())
}

// Whether the same tracers answer a theta, a product, a query for a later order, and the theta once more.
fn same_tracers_answer_all(alloc: Global) -> Result<bool, Fail> {
    let e = two_lines(alloc)?;
    let mut tracers = Tracers::new(alloc, &e);
    let at = place(2, 1)?;
    let kind = QueryKind::Theta(exp(-1, -1));
    let least = None;
    let theta = Query { kind, at, least };
    let first = tracers.answer(alloc, &theta);
    let kind = QueryKind::Product(exp(-1, 0), exp(0, -1));
    let product = tracers.answer(alloc, &Query { kind, at, least });
    let least = Some(3);
    let early = tracers.answer(alloc, &Query { kind, at, least });
    let last = tracers.answer(alloc, &theta);
    let told = has_theta(&first) && has_product(&product) && has_theta(&last);
    Ok(told && early.result.err() == Some(AskFault::NotYet { newest: 2 }))
}

#[test]
fn tracers_serve_all_queries(rt: HostRuntime) -> Result<(), Fail> {
    assert!(rt; same_tracers_answer_all(rt.alloc())?);
    Ok(())
}
