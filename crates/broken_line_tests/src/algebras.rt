// Products of theta functions in known algebras: the family doesn't depend on the chamber of the point.
//
// Let f = (1 + t1·x)^k and g = (1 + t2·y)^k be the functions of the lines along (1, 0) and (0, 1). No ray of their
// completion enters the chamber where x and y are above 0. There the theta of (a, b) is x^a·y^b where neither is
// below 0, and broken lines, followed by hand, give the theta of (-1, 0) as g/x, that of (0, -1) as f/y and that of
// (-1, -1) as (f + g - 1)/(x·y). So the product of the first two is that of (-1, -1) and (f - 1)·(g - 1)/(x·y).
// For k = 1 these are the five exchange relations of the cluster algebra of type A2.

ghost use Rattle.std.specs.Prelude.{◌≡◌, IfOk};
ghost use Rattle.theta_algebra.specs.Families.{IsFactorExp};

use crate::tails::{exp, two_lines};
use crate::thetas::monomial;
use crate::values::opposite_lines;
use plane_geom::Point;
use sample_walls::monomials::{ONE, X, XX, XXX, XXY, XY, XYY, Y, YY, YYY};
use sample_walls::{axes, origin, place, square_axes, wall};
use scatter_diagram::{Diagram, WallKind};
use std::alloc::Global;
use std::test::Fail;
use theta_algebra::theta_product;
use trunc_series::{Exp, Key, Series};

// A term c·t1^i·t2^j of the series at r.
const fn row(r: Exp, i: u8, j: u8, c: i128) -> (Exp, Key, i128) {
    (r, monomial(i, j, 0, 0), c)
}

// The terms of all series of a family, each with the exponent of its series.
fn rows(alloc: Global, family: &[(Exp, Series)]) -> Result<Vec<(Exp, Key, i128)>, Fail> {
    let mut rows = Vec::new(alloc);
    for part in family {
        for t in part.1.terms() {
            rows.push((part.0, t.0, t.1))?;
        }
    }
    Ok(rows)
}

fn are_of_order(family: &[(Exp, Series)], order: u32) -> bool {
    for part in family {
        if part.1.order() != order {
            return false;
        }
    }
    true
}

// Whether the product of the thetas of p and q at a point is the family with these terms.
fn is_product(
    alloc: Global,
    e: &Diagram,
    p: Exp,
    q: Exp,
    at: &Point,
    wanted: &[(Exp, Key, i128)],
) -> Result<bool, Fail>
    requires first { IsFactorExp p }
    requires second { IsFactorExp q }
{
    let order = e.order();
    let family = theta_product(alloc, e, p, q, at, order)?;
    let found = rows(alloc, family.as_slice())?;
    Ok(are_of_order(family.as_slice(), order) && found.as_slice() == wanted)
}

// Whether it is at each of these points.
fn is_product_at_all(
    alloc: Global,
    e: &Diagram,
    p: Exp,
    q: Exp,
    points: &[(i128, i128)],
    wanted: &[(Exp, Key, i128)],
) -> Result<bool, Fail>
    requires first { IsFactorExp p }
    requires second { IsFactorExp q }
{
    for &(x, y) in points {
        if !is_product(alloc, e, p, q, &place(x, y)?, wanted)? {
            return Ok(false);
        }
    }
    Ok(true)
}

// A point in each chamber of the two lines and the ray along (-1, -1). From none of these does a stretch with the
// small exponents of the tests lead back to the origin.
const FIVE_POINTS: [(i128, i128); 5] = [(5, 3), (-5, 3), (-5, -3), (-3, -5), (5, -3)];

// Whether the product is this one in each chamber of the two lines, for k = 1.
fn is_exchange(alloc: Global, p: Exp, q: Exp, wanted: &[(Exp, Key, i128)]) -> Result<bool, Fail>
    requires first { IsFactorExp p }
    requires second { IsFactorExp q }
{
    let e = two_lines(alloc)?;
    is_product_at_all(alloc, &e, p, q, &FIVE_POINTS, wanted)
}

// x·(1 + t2·y)/x and y·(1 + t1·x)/y
#[test]
fn opposite_thetas_multiply_to_the_functions(rt: HostRuntime) -> Result<(), Fail> {
    let g = [row(exp(0, 0), 0, 0, 1), row(exp(0, 1), 0, 1, 1)];
    assert!(rt; is_exchange(rt.alloc(), exp(1, 0), exp(-1, 0), &g)?);
    let f = [row(exp(0, 0), 0, 0, 1), row(exp(1, 0), 1, 0, 1)];
    assert!(rt; is_exchange(rt.alloc(), exp(0, 1), exp(0, -1), &f)?);
    Ok(())
}

// x·(1 + t1·x + t2·y)/(x·y) and y·(1 + t1·x + t2·y)/(x·y)
#[test]
fn the_fifth_theta_exchanges_with_two(rt: HostRuntime) -> Result<(), Fail> {
    let down = [row(exp(0, -1), 0, 0, 1), row(exp(0, 0), 0, 1, 1)];
    assert!(rt; is_exchange(rt.alloc(), exp(1, 0), exp(-1, -1), &down)?);
    let left = [row(exp(-1, 0), 0, 0, 1), row(exp(0, 0), 1, 0, 1)];
    assert!(rt; is_exchange(rt.alloc(), exp(0, 1), exp(-1, -1), &left)?);
    Ok(())
}

// (1 + t1·x)·(1 + t2·y)/(x·y)
#[test]
fn two_thetas_exchange_to_the_fifth(rt: HostRuntime) -> Result<(), Fail> {
    let fifth = [row(exp(-1, -1), 0, 0, 1), row(exp(0, 0), 1, 1, 1)];
    assert!(rt; is_exchange(rt.alloc(), exp(-1, 0), exp(0, -1), &fifth)?);
    Ok(())
}

// The completion at order 3 for k = 2. Gross, Pandharipande and Siebert ("The tropical vertex") give the functions of
// its rays: that along (1, 1) is 1/(1 - t1·t2·x·y)^4, and those along (1, 2) and (2, 1) are the squares of
// 1 + t1·t2^2·x·y^2 and 1 + t1^2·t2·x^2·y.
pub(crate) fn squares(alloc: Global) -> Result<Diagram, Fail>
    ensures { IfOk result (λ e. e.order ≡ 3) }
{
    let lines = square_axes(alloc, 3)?;
    let mut rays = Vec::new(alloc);
    let diagonal = [(ONE, 1), (XY, 4)];
    rays.push(wall(alloc, WallKind::Outgoing, origin(), 1, 1, 3, &diagonal)?)?;
    let steep = [(ONE, 1), (XYY, 2)];
    rays.push(wall(alloc, WallKind::Outgoing, origin(), 1, 2, 3, &steep)?)?;
    let flat = [(ONE, 1), (XXY, 2)];
    rays.push(wall(alloc, WallKind::Outgoing, origin(), 2, 1, 3, &flat)?)?;
    Ok(Diagram::from_walls(alloc, 3, lines, rays)?)
}

// The completion at order 3 for k = 3. The same authors give the function of its ray along (1, 1) as the ninth power
// of 1 + t1·t2·x·y + .., and those along (1, 2) and (2, 1), by the symmetry of this diagram, as ninth powers of
// 1 + t1·t2^2·x·y^2 + .. and 1 + t1^2·t2·x^2·y + ..
fn cubes(alloc: Global) -> Result<Diagram, Fail>
    ensures { IfOk result (λ e. e.order ≡ 3) }
{
    let x = [(ONE, 1), (X, 3), (XX, 3), (XXX, 1)];
    let y = [(ONE, 1), (Y, 3), (YY, 3), (YYY, 1)];
    let lines = axes(alloc, 3, &x, &y)?;
    let mut rays = Vec::new(alloc);
    let diagonal = [(ONE, 1), (XY, 9)];
    rays.push(wall(alloc, WallKind::Outgoing, origin(), 1, 1, 3, &diagonal)?)?;
    let steep = [(ONE, 1), (XYY, 9)];
    rays.push(wall(alloc, WallKind::Outgoing, origin(), 1, 2, 3, &steep)?)?;
    let flat = [(ONE, 1), (XXY, 9)];
    rays.push(wall(alloc, WallKind::Outgoing, origin(), 2, 1, 3, &flat)?)?;
    Ok(Diagram::from_walls(alloc, 3, lines, rays)?)
}

// A point in each chamber of these lines and rays.
const SEVEN_POINTS: [(i128, i128); 7] = [
    (5, 3),
    (-5, 3),
    (-5, -2),
    (-5, -3),
    (-3, -5),
    (-2, -5),
    (5, -3),
];

// Whether the product is this one in each chamber for k = 2.
fn is_of_squares(alloc: Global, p: Exp, q: Exp, wanted: &[(Exp, Key, i128)]) -> Result<bool, Fail>
    requires first { IsFactorExp p }
    requires second { IsFactorExp q }
{
    let e = squares(alloc)?;
    is_product_at_all(alloc, &e, p, q, &SEVEN_POINTS, wanted)
}

// 1 + 2·t2·y + t2^2·y^2
#[test]
fn opposite_thetas_multiply_to_a_square(rt: HostRuntime) -> Result<(), Fail> {
    let g = [
        row(exp(0, 0), 0, 0, 1),
        row(exp(0, 1), 0, 1, 2),
        row(exp(0, 2), 0, 2, 1),
    ];
    assert!(rt; is_of_squares(rt.alloc(), exp(1, 0), exp(-1, 0), &g)?);
    Ok(())
}

// (f - 1)·(g - 1)/(x·y) is 4·t1·t2 + 2·t1^2·t2·x + 2·t1·t2^2·y + t1^2·t2^2·x·y, with the last above order 3.
#[test]
fn thetas_of_squares_multiply(rt: HostRuntime) -> Result<(), Fail> {
    let wanted = [
        row(exp(-1, -1), 0, 0, 1),
        row(exp(0, 0), 1, 1, 4),
        row(exp(0, 1), 1, 2, 2),
        row(exp(1, 0), 2, 1, 2),
    ];
    assert!(rt; is_of_squares(rt.alloc(), exp(-1, 0), exp(0, -1), &wanted)?);
    Ok(())
}

// Whether the product is this one in each chamber for k = 3.
fn is_of_cubes(alloc: Global, p: Exp, q: Exp, wanted: &[(Exp, Key, i128)]) -> Result<bool, Fail>
    requires first { IsFactorExp p }
    requires second { IsFactorExp q }
{
    let e = cubes(alloc)?;
    is_product_at_all(alloc, &e, p, q, &SEVEN_POINTS, wanted)
}

// (1 + t1·x)^3
#[test]
fn opposite_thetas_multiply_to_a_cube(rt: HostRuntime) -> Result<(), Fail> {
    let f = [
        row(exp(0, 0), 0, 0, 1),
        row(exp(1, 0), 1, 0, 3),
        row(exp(2, 0), 2, 0, 3),
        row(exp(3, 0), 3, 0, 1),
    ];
    assert!(rt; is_of_cubes(rt.alloc(), exp(0, 1), exp(0, -1), &f)?);
    Ok(())
}

// (f - 1)·(g - 1)/(x·y) is 9·t1·t2 + 9·t1^2·t2·x + 9·t1·t2^2·y to order 3.
#[test]
fn thetas_of_cubes_multiply(rt: HostRuntime) -> Result<(), Fail> {
    let wanted = [
        row(exp(-1, -1), 0, 0, 1),
        row(exp(0, 0), 1, 1, 9),
        row(exp(0, 1), 1, 2, 9),
        row(exp(1, 0), 2, 1, 9),
    ];
    assert!(rt; is_of_cubes(rt.alloc(), exp(-1, 0), exp(0, -1), &wanted)?);
    Ok(())
}

// Whether on either side of the two opposite lines, both along the axis, the product is this one.
fn is_across_both(alloc: Global, p: Exp, q: Exp, wanted: &[(Exp, Key, i128)]) -> Result<bool, Fail>
    requires first { IsFactorExp p }
    requires second { IsFactorExp q }
{
    let e = opposite_lines(alloc)?;
    is_product_at_all(
        alloc,
        &e,
        p,
        q,
        &[(0, 2), (3, 1), (0, -2), (-4, -7)],
        wanted,
    )
}

// Above the lines the theta of (a, 1) is x^a·y, that of (0, 2) is y^2, and that of (0, -1) is F/y for
// F = (1 + t1·x)·(1 + t2/x) = 1 + t1·t2 + t1·x + t2/x. So the series at (0, 1) has terms of the degrees 0 and 2.
#[test]
fn a_theta_of_a_family_has_terms_of_several_degrees(rt: HostRuntime) -> Result<(), Fail> {
    let wanted = [
        row(exp(-1, 1), 0, 1, 1),
        row(exp(0, 1), 0, 0, 1),
        row(exp(0, 1), 1, 1, 1),
        row(exp(1, 1), 1, 0, 1),
    ];
    assert!(rt; is_across_both(rt.alloc(), exp(0, 2), exp(0, -1), &wanted)?);
    Ok(())
}
