// Products of two theta functions, and the faults of asking for one.

ghost use Rattle.theta_algebra.specs.Families.{IsFactorExp};

use crate::tails::{exp, heavy_line, one_line, two_lines};
use broken_lines::AskFault;
use plane_geom::Point;
use sample_walls::monomials::ONE;
use sample_walls::{origin, place};
use std::alloc::Global;
use std::test::Fail;
use theta_algebra::{theta, theta_product};
use trunc_series::{Exp, Key, Series};

/// t1
pub(crate) const T1: Key = Key {
    exp: Exp { a: 0, b: 0 },
    powers: [1, 0, 0, 0, 0, 0, 0, 0],
};

/// t1·t2
pub(crate) const T1T2: Key = Key {
    exp: Exp { a: 0, b: 0 },
    powers: [1, 1, 0, 0, 0, 0, 0, 0],
};

/// Whether a part of a family is the series of this order at r with one term.
pub(crate) fn is_part(part: &(Exp, Series), r: Exp, order: u32, key: Key, c: i128) -> bool {
    part.0 == r && part.1.order() == order && part.1.terms() == [(key, c)].as_slice()
}

// Whether the thetas of (-1, 0) and (0, -1) among the two lines multiply to that of (-1, -1) and t1·t2.
fn meets_across_lines(alloc: Global) -> Result<bool, Fail> {
    let e = two_lines(alloc)?;
    let family = theta_product(alloc, &e, exp(-1, 0), exp(0, -1), &place(2, 1)?, 2)?;
    let [first, second] = family.as_slice() else {
        return Ok(false);
    };
    Ok(is_part(first, exp(-1, -1), 2, ONE, 1) && is_part(second, exp(0, 0), 2, T1T2, 1))
}

// Whether the thetas of (0, 1) and (0, -1) below the one line multiply to 1 and t1 times that of (1, 0).
fn meets_across_line(alloc: Global) -> Result<bool, Fail> {
    let e = one_line(alloc)?;
    let family = theta_product(alloc, &e, exp(0, 1), exp(0, -1), &place(0, -2)?, 1)?;
    let [first, second] = family.as_slice() else {
        return Ok(false);
    };
    Ok(is_part(first, exp(0, 0), 1, ONE, 1) && is_part(second, exp(1, 0), 1, T1, 1))
}

// Whether the square of the theta of (0, 1) below the one line is that of (0, 2).
fn is_square(alloc: Global) -> Result<bool, Fail> {
    let e = one_line(alloc)?;
    let family = theta_product(alloc, &e, exp(0, 1), exp(0, 1), &place(0, -2)?, 1)?;
    let [only] = family.as_slice() else {
        return Ok(false);
    };
    Ok(is_part(only, exp(0, 2), 1, ONE, 1))
}

#[test]
fn products_are_families(rt: HostRuntime) -> Result<(), Fail> {
    assert!(rt; meets_across_lines(rt.alloc())?);
    assert!(rt; meets_across_line(rt.alloc())?);
    assert!(rt; is_square(rt.alloc())?);
    Ok(())
}

// Whether the product of two thetas among the two lines has a fault.
fn fails(alloc: Global, p: Exp, q: Exp, at: Point, fault: AskFault) -> Result<bool, Fail>
    requires first { IsFactorExp p }
    requires second { IsFactorExp q }
{
    let e = two_lines(alloc)?;
    Ok(theta_product(alloc, &e, p, q, &at, 2).err() == Some(fault))
}

// Whether neither of the thetas of (-1, 0) and (0, -1) has a fault there.
fn has_both(alloc: Global, at: Point) -> Result<bool, Fail> {
    let e = two_lines(alloc)?;
    let first = theta(alloc, &e, exp(-1, 0), &at, 2).is_ok();
    let second = theta(alloc, &e, exp(0, -1), &at, 2).is_ok();
    Ok(first && second)
}

#[test]
fn faults_are_those_of_the_thetas(rt: HostRuntime) -> Result<(), Fail> {
    let through = AskFault::NotGeneric { at: origin() };
    let on_line = AskFault::NotGeneric { at: place(0, 5)? };
    assert!(rt; fails(rt.alloc(), exp(-1, -1), exp(0, 0), place(0, 5)?, on_line)?);
    assert!(rt; fails(rt.alloc(), exp(-1, -1), exp(0, 0), place(1, 1)?, through)?);
    assert!(rt; fails(rt.alloc(), exp(0, 0), exp(-1, -1), place(1, 1)?, through)?);
    // the theta of (-1, -1) is one of the family
    assert!(rt; has_both(rt.alloc(), place(1, 1)?)?);
    assert!(rt; fails(rt.alloc(), exp(-1, 0), exp(0, -1), place(1, 1)?, through)?);
    Ok(())
}

// Whether below the heavy line the product of the thetas of (0, 1) and q has too much weight.
fn is_heavy(alloc: Global, q: Exp) -> Result<bool, Fail>
    requires { IsFactorExp q }
{
    let e = heavy_line(alloc)?;
    let fault = theta_product(alloc, &e, exp(0, 1), q, &place(0, -2)?, 1).err();
    Ok(fault == Some(AskFault::WeightTooLarge))
}

// Whether the theta of (0, 1) itself has not.
fn is_light(alloc: Global) -> Result<bool, Fail> {
    let e = heavy_line(alloc)?;
    Ok(theta(alloc, &e, exp(0, 1), &place(0, -2)?, 1).is_ok())
}

#[test]
fn weights_of_products_are_bounded(rt: HostRuntime) -> Result<(), Fail> {
    assert!(rt; is_light(rt.alloc())?);
    // the product of the weights
    assert!(rt; is_heavy(rt.alloc(), exp(0, 1))?);
    // the weight of the theta that is taken away, beside that of the product
    assert!(rt; is_heavy(rt.alloc(), exp(0, 0))?);
    Ok(())
}
