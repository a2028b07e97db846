// Each cause for which a theta function or a product isn't told, beside those that products and thetas test.

ghost use Rattle.std.specs.Prelude.{◌≡◌, IfOk};
ghost use Rattle.limits.specs.Limits.{highest_order};
ghost use Rattle.theta_algebra.specs.Families.{IsFactorExp};

use crate::reaching::four_lines;
use crate::tails::{exp, heavy_line, one_line, parallel_lines};
use broken_lines::AskFault;
use limits::HIGHEST_ORDER;
use plane_geom::Point;
use sample_walls::place;
use scatter_diagram::Diagram;
use std::alloc::Global;
use std::test::Fail;
use theta_algebra::{theta, theta_product};
use trunc_series::Exp;

// Whether the lines along the axes, one each way, reach too many exponents for the theta of (1, 0).
fn reaches_too_many(alloc: Global) -> Result<bool, Fail> {
    let e = Diagram::from_walls(alloc, HIGHEST_ORDER, four_lines(alloc)?, Vec::new(alloc))?;
    let at = Point::new(5, 3, 15).ok_or("far")?;
    let fault = theta(alloc, &e, exp(1, 0), &at, HIGHEST_ORDER).err();
    Ok(fault == Some(AskFault::TooManyReach))
}

// Whether they do for its product with the theta of (0, 0), which itself asks for no reach.
fn reaches_too_many_in_product(alloc: Global) -> Result<bool, Fail> {
    let e = Diagram::from_walls(alloc, HIGHEST_ORDER, four_lines(alloc)?, Vec::new(alloc))?;
    let at = Point::new(5, 3, 15).ok_or("far")?;
    let fault = theta_product(alloc, &e, exp(0, 0), exp(1, 0), &at, HIGHEST_ORDER).err();
    Ok(fault == Some(AskFault::TooManyReach))
}

#[test]
fn thetas_tell_too_much_reach(rt: HostRuntime) -> Result<(), Fail> {
    assert!(rt; reaches_too_many(rt.alloc())?);
    Ok(())
}

#[test]
fn products_tell_too_much_reach(rt: HostRuntime) -> Result<(), Fail> {
    assert!(rt; reaches_too_many_in_product(rt.alloc())?);
    Ok(())
}

// Six lines along (1, 0), at order 24.
fn six_lines(alloc: Global) -> Result<Diagram, Fail>
    ensures { IfOk result (λ e. e.order ≡ highest_order) }
{
    let lines = parallel_lines(alloc, 6)?;
    Ok(Diagram::from_walls(alloc, HIGHEST_ORDER, lines, Vec::new(alloc))?)
}

// The fault of the theta of m above six lines.
fn fault_above(alloc: Global, m: Exp) -> Result<Option<AskFault>, Fail>
    requires { IsFactorExp m }
{
    let e = six_lines(alloc)?;
    Ok(theta(alloc, &e, m, &place(0, 1)?, HIGHEST_ORDER).err())
}

// Whether the theta of (0, -7) above them has too many tails.
//
// Such a tail has at most one bend on each line, each of degree 1 to 7. Bends of degree d together make a tail for each
// of the 25 - d roots that leave room for them. Over all 8^6 choices, whose mean degree is 21, 25 - d sums to
// 4·8^6 = 2^20, and those with d above 25 make no tails instead of less. So there are more than 2^20.
fn has_too_many(alloc: Global) -> Result<bool, Fail> {
    Ok(fault_above(alloc, exp(0, -7))? == Some(AskFault::TooManyTails))
}

// Whether its product with the theta of (0, 0) has.
fn has_too_many_in_product(alloc: Global) -> Result<bool, Fail> {
    let e = six_lines(alloc)?;
    let at = place(0, 1)?;
    let fault = theta_product(alloc, &e, exp(0, -7), exp(0, 0), &at, HIGHEST_ORDER).err();
    Ok(fault == Some(AskFault::TooManyTails))
}

// Whether the product of those of (0, -3) and (0, -4) has, and neither of them: that of (0, -7) is one of the family.
fn has_too_many_in_family(alloc: Global) -> Result<bool, Fail> {
    let e = six_lines(alloc)?;
    let at = place(0, 1)?;
    let fault = theta_product(alloc, &e, exp(0, -3), exp(0, -4), &at, HIGHEST_ORDER).err();
    Ok(fault == Some(AskFault::TooManyTails) && fault_above(alloc, exp(0, -4))?.is_none())
}

#[test]
fn thetas_tell_too_many_tails(rt: HostRuntime) -> Result<(), Fail> {
    assert!(rt; has_too_many(rt.alloc())?);
    Ok(())
}

#[test]
fn products_tell_too_many_tails(rt: HostRuntime) -> Result<(), Fail> {
    assert!(rt; has_too_many_in_product(rt.alloc())?);
    Ok(())
}

#[test]
fn thetas_of_a_family_tell_too_many_tails(rt: HostRuntime) -> Result<(), Fail> {
    assert!(rt; has_too_many_in_family(rt.alloc())?);
    Ok(())
}

// Whether at (x, 1), above the one line, the theta of m crosses it too far away.
fn is_far(alloc: Global, m: Exp, x: i128) -> Result<bool, Fail>
    requires { IsFactorExp m }
{
    let e = one_line(alloc)?;
    Ok(theta(alloc, &e, m, &place(x, 1)?, 1).err() == Some(AskFault::PointTooLarge))
}

// Whether the product of the thetas of p and q does.
fn is_far_in_product(alloc: Global, p: Exp, q: Exp, x: i128) -> Result<bool, Fail>
    requires first { IsFactorExp p }
    requires second { IsFactorExp q }
{
    let e = one_line(alloc)?;
    let fault = theta_product(alloc, &e, p, q, &place(x, 1)?, 1).err();
    Ok(fault == Some(AskFault::PointTooLarge))
}

const FARTHEST: i128 = 1 << 40;

// A stretch from (x, 1) that goes back along (1, -1) meets the line at x + 1.
#[test]
fn thetas_tell_points_that_are_too_large(rt: HostRuntime) -> Result<(), Fail> {
    assert!(rt; is_far(rt.alloc(), exp(1, -1), FARTHEST)?);
    assert!(rt; !is_far(rt.alloc(), exp(0, -1), FARTHEST - 1)?);
    Ok(())
}

#[test]
fn products_tell_points_that_are_too_large(rt: HostRuntime) -> Result<(), Fail> {
    assert!(rt; is_far_in_product(rt.alloc(), exp(1, -1), exp(0, 0), FARTHEST)?);
    assert!(rt; is_far_in_product(rt.alloc(), exp(0, 0), exp(1, -1), FARTHEST)?);
    Ok(())
}

// The tails of (1, 0) run beside the line, and those of (0, -1) have no exponents but (0, -1) and (1, -1), which
// reach it at x and x + 1. The product of both thetas is the theta of (1, -1), whose tails have (2, -1) too.
#[test]
fn thetas_of_a_family_tell_points_that_are_too_large(rt: HostRuntime) -> Result<(), Fail> {
    assert!(rt; !is_far(rt.alloc(), exp(1, 0), FARTHEST - 1)?);
    assert!(rt; is_far_in_product(rt.alloc(), exp(1, 0), exp(0, -1), FARTHEST - 1)?);
    Ok(())
}

// Whether the theta of (0, -4) has too much weight above the heavy line: (1 + 2^125·t1·x)^4 has 2^127·t1·x.
fn is_heavy(alloc: Global) -> Result<bool, Fail> {
    let e = heavy_line(alloc)?;
    let fault = theta(alloc, &e, exp(0, -4), &place(1, 1)?, 1).err();
    Ok(fault == Some(AskFault::WeightTooLarge))
}

// Whether so have its products with the theta of (0, 0).
fn is_heavy_in_product(alloc: Global) -> Result<bool, Fail> {
    let e = heavy_line(alloc)?;
    let (m, at) = (exp(0, -4), place(1, 1)?);
    let first = theta_product(alloc, &e, m, exp(0, 0), &at, 1).err();
    let second = theta_product(alloc, &e, exp(0, 0), m, &at, 1).err();
    let fault = Some(AskFault::WeightTooLarge);
    Ok(first == fault && second == fault)
}

#[test]
fn thetas_tell_weights_that_are_too_large(rt: HostRuntime) -> Result<(), Fail> {
    assert!(rt; is_heavy(rt.alloc())?);
    assert!(rt; is_heavy_in_product(rt.alloc())?);
    Ok(())
}
