// The values of bends.

ghost use Rattle.std.specs.Prelude.{◌≡◌, ◌≢◌, ◌≤◌, IfOk};
ghost use Rattle.bend_finder.specs.Ahead.{IsNonzero, IsTraceable};

use crate::tails::exp;
use bend_finder::BendFinder;
use broken_lines::tails;
use limits::LARGEST_WEIGHT;
use plane_geom::Point;
use sample_walls::monomials::{ONE, T1_X_TO_64_Y, X};
use sample_walls::{origin, place, wall};
use scatter_diagram::{Diagram, WallKind};
use std::alloc::Global;
use std::test::Fail;
use trunc_series::{Exp, Key};

/// t2·x^-1
const T2_X_TO_MINUS_1: Key = Key {
    exp: Exp { a: -1, b: 0 },
    powers: [0, 1, 0, 0, 0, 0, 0, 0],
};

/// t2·y^64
const T2_Y_TO_64: Key = Key {
    exp: Exp { a: 0, b: 64 },
    powers: [0, 1, 0, 0, 0, 0, 0, 0],
};

// The line through (0, 0) along (1, 0) with 1 + c·t1·x, for c = 1.
fn plus_line(alloc: Global) -> Result<Diagram, Fail>
    ensures { IfOk result (λ e. e.order ≡ 2) }
{
    let mut lines = Vec::new(alloc);
    let function = [(ONE, 1), (X, 1)];
    lines.push(wall(alloc, WallKind::Line, origin(), 1, 0, 2, &function)?)?;
    Ok(Diagram::from_walls(alloc, 2, lines, Vec::new(alloc))?)
}

// The same for c = -1.
fn minus_line(alloc: Global) -> Result<Diagram, Fail>
    ensures { IfOk result (λ e. e.order ≡ 2) }
{
    let mut lines = Vec::new(alloc);
    let function = [(ONE, 1), (X, -1)];
    lines.push(wall(alloc, WallKind::Line, origin(), 1, 0, 2, &function)?)?;
    Ok(Diagram::from_walls(alloc, 2, lines, Vec::new(alloc))?)
}

// The lines through (0, 0) along (1, 0) with 1 + t1·x, and along (-1, 0) with 1 + t2·x^-1.
pub(crate) fn opposite_lines(alloc: Global) -> Result<Diagram, Fail>
    ensures { IfOk result (λ e. e.order ≡ 2) }
{
    let mut lines = Vec::new(alloc);
    let right = [(ONE, 1), (X, 1)];
    lines.push(wall(alloc, WallKind::Line, origin(), 1, 0, 2, &right)?)?;
    let left = [(T2_X_TO_MINUS_1, 1), (ONE, 1)];
    lines.push(wall(alloc, WallKind::Line, origin(), -1, 0, 2, &left)?)?;
    Ok(Diagram::from_walls(alloc, 2, lines, Vec::new(alloc))?)
}

// The lines through (0, 0) along (0, 1) with 1 + t2·y^64, and through (9, 0) along (64, 1) with
// 1 + 2147483647·t1·x^64·y.
fn steep_lines(alloc: Global) -> Result<Diagram, Fail>
    ensures { IfOk result (λ e. e.order ≡ 3) }
{
    let mut lines = Vec::new(alloc);
    let up = [(ONE, 1), (T2_Y_TO_64, 1)];
    lines.push(wall(alloc, WallKind::Line, origin(), 0, 1, 3, &up)?)?;
    let flat = [(ONE, 1), (T1_X_TO_64_Y, 2147483647)];
    lines.push(wall(alloc, WallKind::Line, place(9, 0)?, 64, 1, 3, &flat)?)?;
    Ok(Diagram::from_walls(alloc, 3, lines, Vec::new(alloc))?)
}

// The values of the bends that a stretch finds ahead, of those with weights of at most 2^126.
fn values(
    alloc: Global,
    finder: &mut BendFinder<'_>,
    p: &Point,
    x: Exp,
    most: u32,
) -> Result<Vec<i128>, Fail>
    requires moves { IsNonzero x }
    requires small { IsTraceable x }
    requires most { most ≤ finder.old.limit }
    ensures { finder.new ≡ finder.old }
{
    let found = finder.ahead(p, x, most)?;
    let mut values = Vec::new(alloc);
    for b in found.bends.as_slice() {
        if b.1 <= LARGEST_WEIGHT {
            values.push(finder.value(x, &b.0)?)?;
        }
    }
    Ok(values)
}

// Whether the values from (1, 1) to degree 2 are 2 and 1 for (1 + t1·x)^2, and 3 and 3 for the third power: by one
// finder, in turn, and again when it has kept them.
fn has_binomials(alloc: Global) -> Result<bool, Fail> {
    let e = plus_line(alloc)?;
    let mut finder = BendFinder::new(alloc, &e, 2)?;
    let p = place(1, 1)?;
    let first = values(alloc, &mut finder, &p, exp(0, -2), 1)?;
    let second = values(alloc, &mut finder, &place(1, 2)?, exp(0, -2), 2)?;
    let third = values(alloc, &mut finder, &p, exp(0, -3), 2)?;
    let last = values(alloc, &mut finder, &p, exp(0, -2), 1)?;
    Ok(
        first.as_slice() == [2].as_slice()
            && second.as_slice() == [2, 1].as_slice()
            && third.as_slice() == [3, 3].as_slice()
            && last.as_slice() == [2].as_slice(),
    )
}

// Whether (1 - t1·x)^2 gives -2 and 1.
fn has_signs(alloc: Global) -> Result<bool, Fail> {
    let e = minus_line(alloc)?;
    let mut finder = BendFinder::new(alloc, &e, 2)?;
    let found = values(alloc, &mut finder, &place(1, 1)?, exp(0, -2), 2)?;
    Ok(found.as_slice() == [-2, 1].as_slice())
}

// Whether (1 + t1·x)^2·(1 + t2·x^-1)^2 gives 1 for t2^2, 2 for t2, 4 for t1·t2, 2 for t1 and 1 for t1^2.
fn has_products(alloc: Global) -> Result<bool, Fail> {
    let e = opposite_lines(alloc)?;
    let mut finder = BendFinder::new(alloc, &e, 2)?;
    let found = values(alloc, &mut finder, &place(1, 1)?, exp(0, -2), 2)?;
    Ok(found.as_slice() == [1, 2, 4, 2, 1].as_slice())
}

// Whether the 64th power of 1 + c·t1·x^64·y has 64·c, 2016·c^2 and 41664·c^3, for c = 2147483647.
fn has_large_values(alloc: Global) -> Result<bool, Fail> {
    let e = steep_lines(alloc)?;
    let mut finder = BendFinder::new(alloc, &e, 3)?;
    let found = values(alloc, &mut finder, &place(5, -3)?, exp(0, 1), 3)?;
    let wanted = [
        137438953408,
        9297159004490959947744,
        412620269797864811640319100542272,
    ];
    Ok(found.as_slice() == wanted.as_slice())
}

#[test]
fn bends_have_their_values(rt: HostRuntime) -> Result<(), Fail> {
    assert!(rt; has_binomials(rt.alloc())?);
    assert!(rt; has_signs(rt.alloc())?);
    assert!(rt; has_products(rt.alloc())?);
    assert!(rt; has_large_values(rt.alloc())?);
    Ok(())
}

// Whether there are twenty tails, though the powers of higher degree that none of them can use have masses above
// 2^126. The sum of their weights is by binomial coefficients.
fn has_twenty_tails(alloc: Global) -> Result<bool, Fail> {
    let e = steep_lines(alloc)?;
    let traced = tails(alloc, &e, exp(0, 1), &place(5, -3)?, 3)?;
    Ok(traced.tails.len() == 20 && traced.weight == 412620309720160724874760445698644)
}

#[test]
fn powers_are_taken_to_the_degree_that_is_left(rt: HostRuntime) -> Result<(), Fail> {
    assert!(rt; has_twenty_tails(rt.alloc())?);
    Ok(())
}
