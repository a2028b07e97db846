// Sessions of two lines, of which some are answered while the orders are computed.

ghost use Rattle.std.specs.Prelude.{◌≡◌, ◌≤◌, All, IfOk, length};
ghost use Rattle.std.specs.Option.{ForSome};
ghost use Rattle.limits.specs.Limits.{highest_order, most_asks, most_readers};
ghost use Rattle.scatter_diagram.specs.Listed.{AreLines};
ghost use Rattle.theta_algebra.specs.Answering.{IsQuery};

use crate::asks::{is_fault, is_theta, monomial, theta_of};
use broken_lines::AskFault;
use limits::HIGHEST_ORDER;
use outside_io::OpenGate;
use plane_geom::Point;
use sample_walls::monomials::{ONE, T2_XXY, X};
use sample_walls::{line, place, plain_axes, square_axes};
use scatter_diagram::{Initial, StopCause, Wall};
use session_readers::{Session, hold_session};
use std::alloc::Global;
use std::sync::Wait;
use std::test::Fail;
use std::thread::Threads;
use theta_algebra::{Answer, Query};
use trunc_series::{Exp, Key};

// x^-1 + 2·t2·x^-1·y + t2^2·x^-1·y^2, by degree: the theta of (-1, 0) at (2, 1) between the lines along (1, 0) and
// (0, 1) with (1 + t1·x)^2 and (1 + t2·y)^2. Two lines bend once, on x = 0.
fn bent() -> [(Key, i128); 3] {
    [
        (monomial(0, 0, -1, 0), 1),
        (monomial(0, 1, -1, 1), 2),
        (monomial(0, 2, -1, 2), 1),
    ]
}

// Whether an answer is that theta up to the answer's order.
fn is_bent(answer: &Answer) -> bool {
    let terms = bent();
    match answer.order {
        0 => is_theta(answer, &terms[..1]),
        1 => is_theta(answer, &terms[..2]),
        _ => is_theta(answer, &terms),
    }
}

// ---- two readers, of whose asks some wait for the last order

fn of_two_readers(alloc: Global) -> Result<Vec<(u32, Query)>, Fail>
    ensures queries { IfOk result (λ v. All (λ a. IsQuery a.1) v.items) }
    ensures numbers { IfOk result (λ v. All (λ a. (1 ≤ a.0) × (a.0 ≤ 2)) v.items) }
    ensures count { IfOk result (λ v. length v.items ≡ 5) }
{
    let at = place(2, 1)?;
    let any = theta_of(Exp { a: -1, b: 0 }, at, None);
    let late = theta_of(Exp { a: -1, b: 0 }, at, Some(9));
    Ok(vec![in alloc; (1, any), (2, any), (1, any), (2, any), (1, late)]?)
}

fn are_told(answers: &[Answer]) -> bool {
    let [first, second, third, fourth, fifth] = answers else {
        return false;
    };
    let early = first.order <= 4 && second.order <= 4 && is_bent(first) && is_bent(second);
    let settled = third.order == 4 && fourth.order == 4 && is_bent(third) && is_bent(fourth);
    early && settled && fifth.order == 4 && is_fault(fifth, AskFault::NotYet { newest: 4 })
}

fn two_readers_settle<R: Threads + Wait + Sync>(rt: &R, alloc: Global) -> Result<bool, Fail> {
    let lines = Initial::new(2, square_axes(alloc, HIGHEST_ORDER)?);
    let asks = of_two_readers(alloc)?;
    let held = hold_session(rt, alloc, &lines, 4, 2, 2, &asks, Some(2), &OpenGate)?;
    Ok(held.published == 4 && held.stop.is_none() && are_told(held.answers.as_slice()))
}

// ---- one reader

// The session of one reader that asks for one theta at a point.
fn hold_one<R: Threads + Wait + Sync>(
    rt: &R,
    alloc: Global,
    lines: Vec<Wall>,
    order: u32,
    query: Query,
    settle: Option<usize>,
) -> Result<Session, Fail>
    requires lines { AreLines highest_order lines.items }
    requires count { length lines.items ≡ 2 }
    requires order { order ≤ highest_order }
    requires query { IsQuery query }
    requires settle { ForSome settle (λ n. n ≤ 1) }
{
    let lines = Initial::new(2, lines);
    let asks = [(1, query)];
    Ok(hold_session(rt, alloc, &lines, order, 1, 1, &asks, settle, &OpenGate)?)
}

fn order_zero_is_all<R: Threads + Wait + Sync>(rt: &R, alloc: Global) -> Result<bool, Fail> {
    let query = theta_of(Exp { a: 1, b: 0 }, place(2, 1)?, None);
    let held = hold_one(rt, alloc, plain_axes(alloc)?, 0, query, None)?;
    let [answer] = held.answers.as_slice() else {
        return Ok(false);
    };
    let straight = is_theta(answer, [(monomial(0, 0, 1, 0), 1)].as_slice());
    Ok(held.published == 0 && held.stop.is_none() && answer.order == 0 && straight)
}

// ---- a stop

// The lines along (1, 0) through (0, 2^40), with 1 + t1·x, and along (2, 1) through the origin, with 1 + t2·x^2·y.
// They meet at x = 2^41, which is too far.
fn far_lines(alloc: Global) -> Result<Vec<Wall>, Fail>
    ensures lines { IfOk result (λ ws. AreLines highest_order ws.items) }
    ensures count { IfOk result (λ ws. length ws.items ≡ 2) }
{
    let mut lines = Vec::new(alloc);
    lines.push(line(alloc, 0, 1 << 40, 1, 0, &[(ONE, 1), (X, 1)])?)?;
    lines.push(line(alloc, 0, 0, 2, 1, &[(ONE, 1), (T2_XXY, 1)])?)?;
    Ok(lines)
}

fn a_stop_is_told<R: Threads + Wait + Sync>(rt: &R, alloc: Global) -> Result<bool, Fail> {
    let at = Point::new(5, 3, 15).ok_or("far")?;
    let query = theta_of(Exp { a: 0, b: 0 }, at, None);
    let held = hold_one(rt, alloc, far_lines(alloc)?, 4, query, Some(0))?;
    let [answer] = held.answers.as_slice() else {
        return Ok(false);
    };
    let stopped = held.stop == Some((2, StopCause::PointTooLarge)) && held.published == 1;
    Ok(stopped && answer.order == 1 && is_theta(answer, [(ONE, 1)].as_slice()))
}

#[test]
fn sessions_are_held(rt: HostRuntime) -> Result<(), Fail> {
    let alloc = rt.alloc();
    assert!(rt; two_readers_settle(&rt, alloc)?);
    assert!(rt; order_zero_is_all(&rt, alloc)?);
    assert!(rt; a_stop_is_told(&rt, alloc)?);
    Ok(())
}
