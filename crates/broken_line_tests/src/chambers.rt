// Theta functions at several points of a chamber, and across a wall, among the lines with (1 + t1·x)^2 and (1 + t2·y)^2
// and their rays, at order 3.

ghost use Rattle.broken_lines.specs.Traced.{IsAskable};

use crate::algebras::squares;
use crate::tails::exp;
use crate::thetas::monomial;
use sample_walls::place;
use std::alloc::Global;
use std::test::Fail;
use theta_algebra::theta;
use trunc_series::{Exp, Key};

// Whether the theta of m is this series at each of these points.
fn is_theta_at_all(
    alloc: Global,
    m: Exp,
    points: &[(i128, i128)],
    wanted: &[(Key, i128)],
) -> Result<bool, Fail>
    requires { IsAskable m }
{
    let e = squares(alloc)?;
    for &(x, y) in points {
        let found = theta(alloc, &e, m, &place(x, y)?, 3)?;
        if found.order() != 3 || found.terms() != wanted {
            return Ok(false);
        }
    }
    Ok(true)
}

// A broken line with the exponent (-1, -1) comes to a point above both lines from below. It runs along the diagonal ray
// and leaves for good by a bend on any other ray; so it bends on one of the two lines or on none, and the theta is
// ((1 + t1·x)^2 + (1 + t2·y)^2 - 1)/(x·y).
#[test]
fn a_theta_is_the_same_in_its_chamber(rt: HostRuntime) -> Result<(), Fail> {
    let wanted = [
        (monomial(0, 0, -1, -1), 1),
        (monomial(0, 1, -1, 0), 2),
        (monomial(0, 2, -1, 1), 1),
        (monomial(1, 0, 0, -1), 2),
        (monomial(2, 0, 1, -1), 1),
    ];
    let points = [(5, 3), (3, 5), (7, 2), (1, 40)];
    assert!(rt; is_theta_at_all(rt.alloc(), exp(-1, -1), &points, &wanted)?);
    Ok(())
}

// The theta of (0, 1) is y·(1 + t1·x)^2 below the first line, to the right of the second.
#[test]
fn a_theta_changes_across_a_line(rt: HostRuntime) -> Result<(), Fail> {
    let above = [(monomial(0, 0, 0, 1), 1)];
    assert!(rt; is_theta_at_all(rt.alloc(), exp(0, 1), &[(5, 3), (-5, 3)], &above)?);
    let below = [
        (monomial(0, 0, 0, 1), 1),
        (monomial(1, 0, 1, 1), 2),
        (monomial(2, 0, 2, 1), 1),
    ];
    assert!(rt; is_theta_at_all(rt.alloc(), exp(0, 1), &[(5, -3), (2, -7)], &below)?);
    Ok(())
}

// To the left of the second line, where no ray is crossed yet, x becomes u = x·(1 + t2·y)^2 in that:
// y·(1 + t1·u)^2 is y + 2·t1·x·y·(1 + 2·t2·y + t2^2·y^2) + t1^2·x^2·y·(1 + 4·t2·y + ..) to order 3.
#[test]
fn a_theta_changes_across_two_lines(rt: HostRuntime) -> Result<(), Fail> {
    let wanted = [
        (monomial(0, 0, 0, 1), 1),
        (monomial(1, 0, 1, 1), 2),
        (monomial(1, 1, 1, 2), 4),
        (monomial(1, 2, 1, 3), 2),
        (monomial(2, 0, 2, 1), 1),
        (monomial(2, 1, 2, 2), 4),
    ];
    let points = [(-2, -5), (-1, -7), (-3, -8)];
    assert!(rt; is_theta_at_all(rt.alloc(), exp(0, 1), &points, &wanted)?);
    Ok(())
}
