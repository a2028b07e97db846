// What stretches find ahead.

ghost use Rattle.std.specs.Prelude.{◌≡◌, ◌≢◌, ◌≤◌, IfOk};
ghost use Rattle.bend_finder.specs.Ahead.{IsNonzero, IsTraceable};

use bend_finder::{Bend, BendFinder};
use plane_geom::Point;
use sample_walls::monomials::{ONE, X, XY, Y};
use sample_walls::{axes, origin, place, wall};
use scatter_diagram::{Diagram, WallKind};
use std::alloc::Global;
use std::test::Fail;
use trunc_series::{Exp, Key};

// Lines with 1 + t1·x and 1 + t2·y, and the ray with 1 + t1·t2·x·y.
fn two_lines(alloc: Global) -> Result<Diagram, Fail>
    ensures { IfOk result (λ e. e.order ≡ 2) }
{
    let lines = axes(alloc, 2, &[(ONE, 1), (X, 1)], &[(ONE, 1), (Y, 1)])?;
    let mut rays = Vec::new(alloc);
    let diagonal = [(ONE, 1), (XY, 1)];
    rays.push(wall(alloc, WallKind::Outgoing, origin(), 1, 1, 2, &diagonal)?)?;
    Ok(Diagram::from_walls(alloc, 2, lines, rays)?)
}

// Whether the stretch from (x, y) with the exponent finds exactly these bends, this special point, and no wall
// too far away.
fn finds(
    alloc: Global,
    x: i128,
    y: i128,
    exp: Exp,
    limit: u32,
    bends: &[(Bend, u128)],
    special: Option<Point>,
) -> Result<bool, Fail>
    requires moves { IsNonzero exp }
    requires small { IsTraceable exp }
    requires limit { limit ≤ 2 }
{
    let e = two_lines(alloc)?;
    let mut finder = BendFinder::new(alloc, &e, limit)?;
    let found = finder.ahead(&place(x, y)?, exp, limit)?;
    Ok(found.bends.as_slice() == bends && !found.far && found.special == special)
}

// The bend at (x, y) by a term.
fn bend(x: i128, y: i128, key: Key) -> Result<Bend, Fail> {
    Ok(Bend {
        at: place(x, y)?,
        key,
    })
}

const DOWN: Exp = Exp { a: 0, b: -1 };

#[test]
fn a_stretch_bends_where_it_crosses_walls(rt: HostRuntime) -> Result<(), Fail> {
    let one = [(bend(2, 0, X)?, 2)];
    assert!(rt; finds(rt.alloc(), 2, 1, DOWN, 2, &one, None)?);
    let two = [(bend(-1, -1, XY)?, 2), (bend(-1, 0, X)?, 2)];
    assert!(rt; finds(rt.alloc(), -1, 1, DOWN, 2, &two, None)?);
    Ok(())
}

// The ray's function is 1 to degree 1, and a point on a line is not ahead of itself.
#[test]
fn walls_that_are_not_live_and_the_point_itself_are_left_out(rt: HostRuntime) -> Result<(), Fail> {
    let one = [(bend(-1, 0, X)?, 2)];
    assert!(rt; finds(rt.alloc(), -1, 1, DOWN, 1, &one, None)?);
    assert!(rt; finds(rt.alloc(), 2, 0, DOWN, 2, &[], None)?);
    Ok(())
}

// (1 + t1·x)^4 has the mass 5 to degree 1.
#[test]
fn powers_have_their_masses(rt: HostRuntime) -> Result<(), Fail> {
    let one = [(bend(2, 0, X)?, 5)];
    assert!(rt; finds(rt.alloc(), 2, 1, Exp { a: 0, b: -4 }, 1, &one, None)?);
    Ok(())
}

#[test]
fn special_points_are_told(rt: HostRuntime) -> Result<(), Fail> {
    let back = Exp { a: -1, b: -1 };
    assert!(rt; finds(rt.alloc(), 1, 1, back, 2, &[], Some(origin()))?);
    Ok(())
}

// Whether the stretch from (2^40, 1) along (1, -1) meets the line along the axis too far away.
fn meets_far(alloc: Global) -> Result<bool, Fail> {
    let e = two_lines(alloc)?;
    let mut finder = BendFinder::new(alloc, &e, 1)?;
    let found = finder.ahead(&place(1 << 40, 1)?, Exp { a: 1, b: -1 }, 1)?;
    Ok(found.far && found.bends.len() == 0)
}

#[test]
fn far_crossings_are_told(rt: HostRuntime) -> Result<(), Fail> {
    assert!(rt; meets_far(rt.alloc())?);
    Ok(())
}

// Whether a live wall is on (x, y).
fn is_on(alloc: Global, x: i128, y: i128) -> Result<bool, Fail> {
    let e = two_lines(alloc)?;
    let finder = BendFinder::new(alloc, &e, 2)?;
    Ok(finder.is_on_live_wall(&place(x, y)?))
}

#[test]
fn points_on_live_walls_are_told(rt: HostRuntime) -> Result<(), Fail> {
    assert!(rt; is_on(rt.alloc(), 0, 5)?);
    assert!(rt; is_on(rt.alloc(), -3, -3)?);
    assert!(rt; !is_on(rt.alloc(), 3, 3)?);
    Ok(())
}
