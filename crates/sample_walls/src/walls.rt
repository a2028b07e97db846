// Walls and lists of lines.

ghost use Rattle.std.specs.Prelude.{◌≡◌, ◌≤◌, IfOk, IsTrue, length, pos};
ghost use Rattle.limits.specs.Limits.{highest_order};
ghost use Rattle.scattering.specs.Wall.{Line};
ghost use Rattle.plane_geom.specs.Places.{pair};
ghost use Rattle.trunc_series.specs.Shown.{sum_of};
ghost use Rattle.scatter_diagram.specs.Listed.{AreLines};
ghost use Rattle.scatter_diagram.specs.Shown.{wall_of, walls_of};
ghost use Rattle.sample_walls.specs.LowFunctions.{is_low_function};
ghost use Rattle.sample_walls.specs.Samples.{given_wall, axes_with};

use crate::monomials::{ONE, X, XX, Y, YY};
use crate::places::{origin, place};
use limits::HIGHEST_ORDER;
use plane_geom::{Direction, Point};
use scatter_diagram::{Wall, WallKind};
use std::alloc::Global;
use std::test::Fail;
use trunc_series::{Key, Series};

/// A wall at a point, of a direction and with a function that are given by their numbers.
pub fn wall(
    alloc: Global,
    kind: WallKind,
    at: Point,
    a: i32,
    b: i32,
    order: u32,
    terms: &[(Key, i128)],
) -> Result<Wall, Fail>
    requires order { order ≤ highest_order }
    requires function { IsTrue (is_low_function order (pair a b) (sum_of terms.now)) }
    ensures wall { IfOk result (λ w. wall_of w ≡ given_wall kind at a b terms.now) }
    ensures order { IfOk result (λ w. w.function.order ≡ order) }
{
    let dir = Direction::new(a, b).ok_or("no direction")?;
    let function = Series::from_terms(alloc, order, terms)?;
    Ok(match kind {
        WallKind::Line => Wall::line(at, dir, function),
        WallKind::Outgoing => Wall::outgoing(at, dir, function),
    })
}

/// The line through (x, y) along (a, b), with a function of the highest order.
pub fn line(
    alloc: Global,
    x: i128,
    y: i128,
    a: i32,
    b: i32,
    terms: &[(Key, i128)],
) -> Result<Wall, Fail>
    requires { IsTrue (is_low_function highest_order (pair a b) (sum_of terms.now)) }
    ensures kind { IfOk result (λ w. (wall_of w).kind ≡ Line) }
    ensures order { IfOk result (λ w. w.function.order ≡ highest_order) }
{
    let at = place(x, y)?;
    wall(alloc, WallKind::Line, at, a, b, HIGHEST_ORDER, terms)
}

/// The lines through the origin along (1, 0) and (0, 1).
pub fn axes(
    alloc: Global,
    order: u32,
    x: &[(Key, i128)],
    y: &[(Key, i128)],
) -> Result<Vec<Wall>, Fail>
    requires order { order ≤ highest_order }
    requires x { IsTrue (is_low_function order (pair (pos 1) (pos 0)) (sum_of x.now)) }
    requires y { IsTrue (is_low_function order (pair (pos 0) (pos 1)) (sum_of y.now)) }
    ensures walls { IfOk result (λ ws. walls_of ws.items ≡ axes_with (sum_of x.now) (sum_of y.now)) }
    ensures lines { IfOk result (λ ws. AreLines order ws.items) }
    ensures count { IfOk result (λ ws. length ws.items ≡ 2) }
{
    let mut lines = Vec::new(alloc);
    lines.push(wall(alloc, WallKind::Line, origin(), 1, 0, order, x)?)?;
    lines.push(wall(alloc, WallKind::Line, origin(), 0, 1, order, y)?)?;
    Ok(lines)
}

/// These lines with 1 + t1·x and 1 + t2·y, of the highest order.
pub fn plain_axes(alloc: Global) -> Result<Vec<Wall>, Fail>
    ensures lines { IfOk result (λ ws. AreLines highest_order ws.items) }
    ensures count { IfOk result (λ ws. length ws.items ≡ 2) }
{
    axes(
        alloc,
        HIGHEST_ORDER,
        &[(ONE, 1), (X, 1)],
        &[(ONE, 1), (Y, 1)],
    )
}

/// These lines with (1 + t1·x)^2 and (1 + t2·y)^2.
pub fn square_axes(alloc: Global, order: u32) -> Result<Vec<Wall>, Fail>
    requires least { 2 ≤ order }
    requires most { order ≤ highest_order }
    ensures lines { IfOk result (λ ws. AreLines order ws.items) }
    ensures count { IfOk result (λ ws. length ws.items ≡ 2) }
{
    let x = [(ONE, 1), (X, 2), (XX, 1)];
    let y = [(ONE, 1), (Y, 2), (YY, 1)];
    axes(alloc, order, &x, &y)
}
