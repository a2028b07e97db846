// Answers to queries, among the two lines at order 2.

ghost use Rattle.theta_algebra.specs.Answering.{IsKind};

use crate::products::{T1T2, is_part};
use crate::tails::{exp, two_lines};
use crate::thetas::monomial;
use broken_lines::AskFault;
use plane_geom::Point;
use sample_walls::monomials::ONE;
use sample_walls::{origin, place};
use std::alloc::Global;
use std::test::Fail;
use theta_algebra::{Answer, Query, QueryKind, Reply, answer};
use trunc_series::Series;

/// The answer to what is asked for at a point.
fn told(alloc: Global, kind: QueryKind, at: Point, least: Option<u32>) -> Result<Answer, Fail>
    requires { IsKind kind }
{
    let e = two_lines(alloc)?;
    let query = Query { kind, at, least };
    Ok(answer(alloc, &e, &query))
}

// Whether a series is the theta of (-1, -1) at (2, 1): a straight line, and one with a bend on each of the two.
fn is_theta(s: &Series) -> bool {
    let terms = [
        (monomial(0, 0, -1, -1), 1),
        (monomial(0, 1, -1, 0), 1),
        (monomial(1, 0, 0, -1), 1),
    ];
    s.order() == 2 && s.terms() == terms.as_slice()
}

// Whether the answer is that theta.
pub(crate) fn has_theta(answer: &Answer) -> bool {
    let Ok(Reply::Series(s)) = &answer.result else {
        return false;
    };
    answer.order == 2 && is_theta(s)
}

// Whether that theta is answered.
fn tells_theta(alloc: Global, least: Option<u32>) -> Result<bool, Fail> {
    let answer = told(alloc, QueryKind::Theta(exp(-1, -1)), place(2, 1)?, least)?;
    Ok(has_theta(&answer))
}

// Whether the answer is that of the product of the thetas of (-1, 0) and (0, -1) at (2, 1): the theta of (-1, -1), and
// t1·t2.
pub(crate) fn has_product(answer: &Answer) -> bool {
    let Ok(Reply::Family(family)) = &answer.result else {
        return false;
    };
    let [first, second] = family.as_slice() else {
        return false;
    };
    let whole = is_part(first, exp(-1, -1), 2, ONE, 1) && is_part(second, exp(0, 0), 2, T1T2, 1);
    answer.order == 2 && whole
}

// Whether that product is answered.
fn tells_product(alloc: Global, least: Option<u32>) -> Result<bool, Fail> {
    let kind = QueryKind::Product(exp(-1, 0), exp(0, -1));
    let answer = told(alloc, kind, place(2, 1)?, least)?;
    Ok(has_product(&answer))
}

#[test]
fn thetas_are_answered(rt: HostRuntime) -> Result<(), Fail> {
    assert!(rt; tells_theta(rt.alloc(), None)?);
    assert!(rt; tells_theta(rt.alloc(), Some(2))?);
    Ok(())
}

#[test]
fn products_are_answered(rt: HostRuntime) -> Result<(), Fail> {
    assert!(rt; tells_product(rt.alloc(), None)?);
    assert!(rt; tells_product(rt.alloc(), Some(2))?);
    Ok(())
}

// Whether the answer is this fault.
fn tells_fault(
    alloc: Global,
    kind: QueryKind,
    at: Point,
    least: Option<u32>,
    fault: AskFault,
) -> Result<bool, Fail>
    requires { IsKind kind }
{
    let answer = told(alloc, kind, at, least)?;
    Ok(answer.order == 2 && answer.result.err() == Some(fault))
}

#[test]
fn later_orders_are_told_as_wanted(rt: HostRuntime) -> Result<(), Fail> {
    let not_yet = AskFault::NotYet { newest: 2 };
    let theta = QueryKind::Theta(exp(-1, -1));
    assert!(rt; tells_fault(rt.alloc(), theta, place(2, 1)?, Some(3), not_yet)?);
    // also on a line, since the order is tested first
    let product = QueryKind::Product(exp(-1, 0), exp(0, -1));
    assert!(rt; tells_fault(rt.alloc(), product, place(0, 5)?, Some(3), not_yet)?);
    Ok(())
}

#[test]
fn faults_are_answered(rt: HostRuntime) -> Result<(), Fail> {
    let through = AskFault::NotGeneric { at: origin() };
    let theta = QueryKind::Theta(exp(-1, -1));
    assert!(rt; tells_fault(rt.alloc(), theta, place(1, 1)?, Some(2), through)?);
    let on_line = AskFault::NotGeneric { at: place(0, 5)? };
    let product = QueryKind::Product(exp(-1, 0), exp(0, -1));
    assert!(rt; tells_fault(rt.alloc(), product, place(0, 5)?, None, on_line)?);
    Ok(())
}
