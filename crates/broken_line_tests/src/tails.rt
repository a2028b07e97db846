// Tails, and the faults of tracing them.

ghost use Rattle.std.specs.Prelude.{◌≡◌, ◌≤◌, IfOk};
ghost use Rattle.limits.specs.Limits.{highest_order};
ghost use Rattle.scatter_diagram.specs.Listed.{AreLines};
ghost use Rattle.broken_lines.specs.Traced.{IsAskable};

use crate::reaching::four_lines;
use broken_lines::{AskFault, Bend, Tail, tails};
use limits::HIGHEST_ORDER;
use plane_geom::Point;
use sample_walls::monomials::{ONE, X, XY, Y};
use sample_walls::{axes, origin, place, wall};
use scatter_diagram::{Diagram, Wall, WallKind};
use std::alloc::Global;
use std::test::Fail;
use trunc_series::{Exp, Key};

pub(crate) const fn exp(a: i32, b: i32) -> Exp
    ensures a { result.a ≡ a }
    ensures b { result.b ≡ b }
{
    Exp { a, b }
}

// The completion, at order 2, of the lines with 1 + t1·x and 1 + t2·y.
pub(crate) fn two_lines(alloc: Global) -> Result<Diagram, Fail>
    ensures { IfOk result (λ e. e.order ≡ 2) }
{
    let x = [(ONE, 1), (X, 1)];
    let y = [(ONE, 1), (Y, 1)];
    let lines = axes(alloc, 2, &x, &y)?;
    let mut rays = Vec::new(alloc);
    let diagonal = [(ONE, 1), (XY, 1)];
    rays.push(wall(alloc, WallKind::Outgoing, origin(), 1, 1, 2, &diagonal)?)?;
    Ok(Diagram::from_walls(alloc, 2, lines, rays)?)
}

// The line through (0, 0) along (1, 0) with 1 + t1·x.
pub(crate) fn one_line(alloc: Global) -> Result<Diagram, Fail>
    ensures { IfOk result (λ e. e.order ≡ 1) }
{
    let mut lines = Vec::new(alloc);
    let function = [(ONE, 1), (X, 1)];
    lines.push(wall(alloc, WallKind::Line, origin(), 1, 0, 1, &function)?)?;
    Ok(Diagram::from_walls(alloc, 1, lines, Vec::new(alloc))?)
}

// The same line with 1 + 2^125·t1·x.
pub(crate) fn heavy_line(alloc: Global) -> Result<Diagram, Fail>
    ensures { IfOk result (λ e. e.order ≡ 1) }
{
    let mut lines = Vec::new(alloc);
    let function = [(ONE, 1), (X, 42535295865117307932921825928971026432)];
    lines.push(wall(alloc, WallKind::Line, origin(), 1, 0, 1, &function)?)?;
    Ok(Diagram::from_walls(alloc, 1, lines, Vec::new(alloc))?)
}

// A tail with one bend.
fn bent(alloc: Global, root: Exp, at: Point, key: Key, last: Exp) -> Result<Tail, Fail> {
    let bends = Vec::from_slice(alloc, &[Bend { at, key }])?;
    Ok(Tail {
        root,
        bends,
        used: 1,
        last,
    })
}

// A tail without bends.
fn straight(alloc: Global, root: Exp) -> Tail {
    Tail {
        root,
        bends: Vec::new(alloc),
        used: 0,
        last: root,
    }
}

// Those that end with an exponent.
fn complete(alloc: Global, all: &[Tail], m: Exp) -> Result<Vec<Tail>, Fail> {
    let mut out = Vec::new(alloc);
    for t in all {
        if t.last == m {
            out.push(t.copy(alloc)?)?;
        }
    }
    Ok(out)
}

// Whether three tails lead from (2, 1) back to (-1, -1): a straight one, and one with a bend on each line.
fn leads_back_thrice(alloc: Global) -> Result<bool, Fail> {
    let e = two_lines(alloc)?;
    let m = exp(-1, -1);
    let traced = tails(alloc, &e, m, &place(2, 1)?, 2)?;
    let found = complete(alloc, traced.tails.as_slice(), m)?;
    let mut wanted = Vec::new(alloc);
    wanted.push(straight(alloc, m))?;
    wanted.push(bent(alloc, exp(-1, 0), place(0, 1)?, Y, m)?)?;
    wanted.push(bent(alloc, exp(0, -1), place(2, 0)?, X, m)?)?;
    Ok(found == wanted)
}

#[test]
fn complete_tails_lead_back(rt: HostRuntime) -> Result<(), Fail> {
    assert!(rt; leads_back_thrice(rt.alloc())?);
    Ok(())
}

// Whether three tails of weights 1, 1 and 5 come to (1, 1): the last takes 4·t1·x of (1 + t1·x)^4 at (5/4, 0).
fn weighs_seven(alloc: Global) -> Result<bool, Fail> {
    let e = one_line(alloc)?;
    let traced = tails(alloc, &e, exp(0, -4), &place(1, 1)?, 1)?;
    let at = Point::new(5, 0, 4).ok_or("far")?;
    let mut wanted = Vec::new(alloc);
    wanted.push(straight(alloc, exp(0, -4)))?;
    wanted.push(straight(alloc, exp(1, -4)))?;
    wanted.push(bent(alloc, exp(1, -4), at, X, exp(0, -4))?)?;
    Ok(traced.tails == wanted && traced.weight == 7)
}

// Whether the copy of all tails is the same.
fn copies(alloc: Global) -> Result<bool, Fail> {
    let e = one_line(alloc)?;
    let traced = tails(alloc, &e, exp(0, -4), &place(1, 1)?, 1)?;
    Ok(traced.copy(alloc)? == traced)
}

#[test]
fn weights_sum(rt: HostRuntime) -> Result<(), Fail> {
    assert!(rt; weighs_seven(rt.alloc())?);
    assert!(rt; copies(rt.alloc())?);
    Ok(())
}

// Whether a fault is found among the two lines.
fn fails(alloc: Global, m: Exp, at: Point, fault: AskFault) -> Result<bool, Fail>
    requires { IsAskable m }
{
    let e = two_lines(alloc)?;
    Ok(tails(alloc, &e, m, &at, 2).err() == Some(fault))
}

// Whether no tails are traced for (0, 0), and the weight is 1.
fn rests(alloc: Global) -> Result<bool, Fail> {
    let e = two_lines(alloc)?;
    let traced = tails(alloc, &e, exp(0, 0), &place(2, 1)?, 2)?;
    Ok(traced.tails.is_empty() && traced.weight == 1)
}

#[test]
fn points_are_generic(rt: HostRuntime) -> Result<(), Fail> {
    let through = AskFault::NotGeneric { at: origin() };
    assert!(rt; fails(rt.alloc(), exp(-1, -1), place(1, 1)?, through)?);
    let on_line = AskFault::NotGeneric { at: place(0, 5)? };
    assert!(rt; fails(rt.alloc(), exp(-1, -1), place(0, 5)?, on_line)?);
    assert!(rt; rests(rt.alloc())?);
    Ok(())
}

// Whether the weights are too large.
fn is_heavy(alloc: Global) -> Result<bool, Fail> {
    let e = heavy_line(alloc)?;
    Ok(tails(alloc, &e, exp(0, -4), &place(1, 1)?, 1).err() == Some(AskFault::WeightTooLarge))
}

// Whether a tail crosses the line too far away.
fn is_far(alloc: Global) -> Result<bool, Fail> {
    let e = one_line(alloc)?;
    let at = place(1099511627776, 1)?;
    Ok(tails(alloc, &e, exp(1, -1), &at, 1).err() == Some(AskFault::PointTooLarge))
}

#[test]
fn limits_are_kept(rt: HostRuntime) -> Result<(), Fail> {
    assert!(rt; is_heavy(rt.alloc())?);
    assert!(rt; is_far(rt.alloc())?);
    Ok(())
}

/// So many lines along (1, 0), one below another, each with 1 + t1·x.
pub(crate) fn parallel_lines(alloc: Global, count: u8) -> Result<Vec<Wall>, Fail>
    ensures { IfOk result (λ ws. AreLines highest_order ws.items) }
{
    let mut lines = Vec::new(alloc);
    for i in 0..count {
        let at = place(0, -(i as i128))?;
        let function = [(ONE, 1), (X, 1)];
        let order = HIGHEST_ORDER;
        lines.push(wall(alloc, WallKind::Line, at, 1, 0, order, &function)?)?;
    }
    Ok(lines)
}

// Whether sixteen of them have too many tails.
fn has_too_many(alloc: Global) -> Result<bool, Fail> {
    let lines = parallel_lines(alloc, 16)?;
    let e = Diagram::from_walls(alloc, HIGHEST_ORDER, lines, Vec::new(alloc))?;
    let fault = tails(alloc, &e, exp(0, -1), &place(0, 1)?, HIGHEST_ORDER).err();
    Ok(fault == Some(AskFault::TooManyTails))
}

#[test]
fn parallel_lines_have_too_many_tails(rt: HostRuntime) -> Result<(), Fail> {
    assert!(rt; has_too_many(rt.alloc())?);
    Ok(())
}

// Whether the lines along the axes, one each way, reach more exponents than are allowed.
fn reaches_too_many(alloc: Global) -> Result<bool, Fail> {
    let e = Diagram::from_walls(alloc, HIGHEST_ORDER, four_lines(alloc)?, Vec::new(alloc))?;
    let at = Point::new(5, 3, 15).ok_or("far")?;
    let fault = tails(alloc, &e, exp(1, 0), &at, HIGHEST_ORDER).err();
    Ok(fault == Some(AskFault::TooManyReach))
}

#[test]
fn too_much_reach_is_told_first(rt: HostRuntime) -> Result<(), Fail> {
    assert!(rt; reaches_too_many(rt.alloc())?);
    Ok(())
}
