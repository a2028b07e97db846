// Worked results, by hand: two lines through the origin, the same with large coefficients and a ray, and
// two lines of steep powers.

ghost use Rattle.std.specs.Prelude.{◌≡◌, [], IfOk};
ghost use Rattle.plane_geom.specs.Shown.{point_of};
ghost use Rattle.correction_tests.specs.LocalWalls as W;

use frac_128::Fraction;
use limits::LARGEST_WEIGHT;
use local_product::{images_at, obstruction_at, weight_at};
use plane_geom::Point;
use sample_walls::monomials::{ONE, T1_X_TO_64_Y, T1_Y_TO_64, X, XY, Y};
use sample_walls::{on_axis, origin, wall};
use scatter_diagram::{Diagram, Stop, StopCause, WallKind};
use std::alloc::Global;
use std::test::Fail;
use trunc_series::{Exp, Key};

// t1^p·t2^q·z^(a, b)
const fn key(p: u8, q: u8, a: i32, b: i32) -> Key {
    Key {
        exp: Exp { a, b },
        powers: [p, q, 0, 0, 0, 0, 0, 0],
    }
}

// (0, -9/64), where the steep lines meet.
fn meeting() -> Point
    ensures { point_of result ≡ W.steep_point }
{
    Point { x: 0, y: -9, w: 64 }
}

// The axes with the functions 1 + t1*x and 1 + t2*y.
fn plain(alloc: Global) -> Result<Diagram, Fail>
    ensures { IfOk result (λ e. e ≡ W.diagram_with 1 W.plain_lines []) }
{
    let x = [(ONE, 1), (X, 1)];
    let y = [(ONE, 1), (Y, 1)];
    let mut lines = Vec::new(alloc);
    lines.push(wall(alloc, WallKind::Line, origin(), 1, 0, 1, &x)?)?;
    lines.push(wall(alloc, WallKind::Line, origin(), 0, 1, 1, &y)?)?;
    Ok(Diagram::from_walls(alloc, 1, lines, Vec::new(alloc))?)
}

// The same with coefficients of 2^31 - 1, and the ray of their completion.
fn heavy(alloc: Global) -> Result<Diagram, Fail>
    ensures { IfOk result (λ e. e ≡ W.diagram_with 3 W.heavy_lines W.heavy_rays) }
{
    let x = [(ONE, 1), (X, 2147483647)];
    let y = [(ONE, 1), (Y, 2147483647)];
    let xy = [(ONE, 1), (XY, 4611686014132420609)];
    let mut lines = Vec::new(alloc);
    lines.push(wall(alloc, WallKind::Line, origin(), 1, 0, 3, &x)?)?;
    lines.push(wall(alloc, WallKind::Line, origin(), 0, 1, 3, &y)?)?;
    let mut rays = Vec::new(alloc);
    rays.push(wall(alloc, WallKind::Outgoing, origin(), 1, 1, 3, &xy)?)?;
    Ok(Diagram::from_walls(alloc, 3, lines, rays)?)
}

// Lines along (0, 1) and (64, 1) through (0, 0) and (9, 0), with terms at (0, 64) and (64, 1).
fn steep(alloc: Global) -> Result<Diagram, Fail>
    ensures { IfOk result (λ e. e ≡ W.diagram_with 1 W.steep_lines []) }
{
    let up = [(ONE, 1), (T1_Y_TO_64, 1)];
    let flat = [(ONE, 1), (T1_X_TO_64_Y, 2147483647)];
    let mut lines = Vec::new(alloc);
    lines.push(wall(alloc, WallKind::Line, origin(), 0, 1, 1, &up)?)?;
    lines.push(wall(alloc, WallKind::Line, on_axis(9), 64, 1, 1, &flat)?)?;
    Ok(Diagram::from_walls(alloc, 1, lines, Vec::new(alloc))?)
}

// Whether the images at the origin are these, to order 2.
fn has_images(
    alloc: Global,
    e: &Diagram,
    x: &[(Key, i128)],
    y: &[(Key, i128)],
) -> Result<bool, Fail> {
    let p = origin();
    if weight_at(alloc, e, &p, 2)? > LARGEST_WEIGHT {
        return Ok(false);
    }
    let images = images_at(alloc, e, &p, 2)?;
    Ok(images.0.terms() == x && images.1.terms() == y)
}

// Whether -t1·t2·x·y is the correction of the plain axes.
fn corrects(alloc: Global) -> Result<bool, Fail> {
    let e = plain(alloc)?;
    let h = obstruction_at(alloc, &e, &origin(), 2)?;
    let weight = weight_at(alloc, &e, &origin(), 2)?;
    Ok(weight == 16 && h.terms() == [(XY, Fraction::new(-1, 1))].as_slice())
}

fn has_plain_images(alloc: Global) -> Result<bool, Fail> {
    let e = plain(alloc)?;
    let x = [(key(0, 0, 1, 0), 1), (key(1, 1, 2, 1), 1)];
    let y = [(key(0, 0, 0, 1), 1), (key(1, 1, 1, 2), -1)];
    has_images(alloc, &e, &x, &y)
}

#[test]
fn two_lines(rt: HostRuntime) -> Result<(), Fail> {
    assert!(rt; corrects(rt.alloc())?);
    assert!(rt; has_plain_images(rt.alloc())?);
    Ok(())
}

// Whether the heavy lines stop order 4.
fn heavy_lines_stop(alloc: Global) -> Result<bool, Fail> {
    let e = heavy(alloc)?;
    let stop = Stop::At {
        order: 4,
        cause: StopCause::WeightTooLarge,
    };
    let weight = weight_at(alloc, &e, &origin(), 4)?;
    let heavy = obstruction_at(alloc, &e, &origin(), 4);
    Ok(weight == LARGEST_WEIGHT + 1 && heavy.err() == Some(stop))
}

// Whether nothing is wrong at order 3, and nothing is heavy.
fn heavy_lines_are_consistent(alloc: Global) -> Result<bool, Fail> {
    let e = heavy(alloc)?;
    let h = obstruction_at(alloc, &e, &origin(), 3)?;
    Ok(h.terms().is_empty() && weight_at(alloc, &e, &origin(), 3)? <= LARGEST_WEIGHT)
}

#[test]
fn heavy_points(rt: HostRuntime) -> Result<(), Fail> {
    assert!(rt; heavy_lines_stop(rt.alloc())?);
    assert!(rt; heavy_lines_are_consistent(rt.alloc())?);
    Ok(())
}

// Whether steep lines have a correction of steep exponents.
fn steep_lines_are_corrected(alloc: Global) -> Result<bool, Fail> {
    let e = steep(alloc)?;
    let h = obstruction_at(alloc, &e, &meeting(), 2)?;
    let term = (key(2, 0, 64, 65), Fraction::new(-137438953408, 1));
    Ok(h.terms() == [term].as_slice())
}

#[test]
fn steep_points(rt: HostRuntime) -> Result<(), Fail> {
    assert!(rt; steep_lines_are_corrected(rt.alloc())?);
    Ok(())
}
