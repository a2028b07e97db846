// Diagrams: two lines through the origin and rays of their completion at order 4.

ghost use Rattle.std.specs.Prelude.{◌≡◌, ◌≤◌, IfOk, IsTrue, true};
ghost use Rattle.std.specs.List.{list_any};
ghost use Rattle.scattering.specs.Series.{rest};
ghost use Rattle.plane_geom.specs.Places.{pair};
ghost use Rattle.trunc_series.specs.Shown.{sum_of};
ghost use Rattle.sample_walls.specs.LowFunctions.{is_low_function};

use sample_walls::monomials::{ONE, X, XXY, XXYY, XY, XYY, Y};
use sample_walls::{origin, place, square_axes, wall};
use scatter_diagram::{Diagram, Initial, Wall, WallKind, cut_walls};
use std::alloc::Global;
use std::test::Fail;
use trunc_series::{Exp, Key};

// The lines and one ray.
fn one_ray(
    alloc: Global,
    order: u32,
    a: i32,
    b: i32,
    terms: &[(Key, i128)],
) -> Result<Diagram, Fail>
    requires least { 2 ≤ order }
    requires most { order ≤ 4 }
    requires function { IsTrue (is_low_function order (pair a b) (sum_of terms.now)) }
    requires live { IsTrue (list_any (λ t. true) (rest (sum_of terms.now))) }
{
    let lines = square_axes(alloc, order)?;
    let mut rays = Vec::new(alloc);
    rays.push(wall(alloc, WallKind::Outgoing, origin(), a, b, order, terms)?)?;
    Ok(Diagram::from_walls(alloc, order, lines, rays)?)
}

// Their completion at order 4.
fn completion(alloc: Global) -> Result<Diagram, Fail>
    ensures { IfOk result (λ e. e.order ≡ 4) }
{
    let lines = square_axes(alloc, 4)?;
    let diagonal = [(ONE, 1), (XY, 4), (XXYY, 10)];
    let mut rays = Vec::new(alloc);
    rays.push(wall(alloc, WallKind::Outgoing, origin(), 1, 1, 4, &diagonal)?)?;
    let steep = [(ONE, 1), (XYY, 2)];
    rays.push(wall(alloc, WallKind::Outgoing, origin(), 1, 2, 4, &steep)?)?;
    let flat = [(ONE, 1), (XXY, 2)];
    rays.push(wall(alloc, WallKind::Outgoing, origin(), 2, 1, 4, &flat)?)?;
    Ok(Diagram::from_walls(alloc, 4, lines, rays)?)
}

fn has_counts(e: &Diagram) -> bool {
    (e.order(), e.line_count(), e.ray_count()) == (4, 2, 3)
}

fn same_copy(e: &Diagram) -> Result<bool, Fail> {
    Ok(e.same(&e.copy()?))
}

fn same_cut(e: &Diagram) -> Result<bool, Fail>
    requires { e.now.order ≡ 4 }
{
    Ok(e.same(&e.truncate(3)?))
}

// The cut to order 2 has only the ray with 1 + 4*t1*t2*x*y.
fn cut_has_four(alloc: Global) -> Result<bool, Fail> {
    let low = completion(alloc)?.truncate(2)?;
    Ok(low.same(&one_ray(alloc, 2, 1, 1, &[(ONE, 1), (XY, 4)])?))
}

fn cut_has_five(alloc: Global) -> Result<bool, Fail> {
    let low = completion(alloc)?.truncate(2)?;
    Ok(low.same(&one_ray(alloc, 2, 1, 1, &[(ONE, 1), (XY, 5)])?))
}

// The cut to order 3 has other rays than that.
fn higher_cut(alloc: Global) -> Result<bool, Fail> {
    let low = completion(alloc)?.truncate(3)?;
    Ok(low.same(&one_ray(alloc, 3, 1, 1, &[(ONE, 1), (XY, 4)])?))
}

fn other_ray(alloc: Global) -> Result<bool, Fail> {
    let steep = one_ray(alloc, 4, 1, 2, &[(ONE, 1), (XYY, 2)])?;
    Ok(steep.same(&one_ray(alloc, 4, 2, 1, &[(ONE, 1), (XXY, 2)])?))
}

#[test]
fn diagrams_are_compared(rt: HostRuntime) -> Result<(), Fail> {
    let e = completion(rt.alloc())?;
    assert!(rt; has_counts(&e));
    assert!(rt; same_copy(&e)?);
    assert!(rt; !same_cut(&e)?);
    Ok(())
}

#[test]
fn diagrams_are_cut(rt: HostRuntime) -> Result<(), Fail> {
    let alloc = rt.alloc();
    assert!(rt; cut_has_four(alloc)?);
    assert!(rt; !cut_has_five(alloc)?);
    assert!(rt; !higher_cut(alloc)?);
    assert!(rt; !other_ray(alloc)?);
    Ok(())
}

fn goes(w: &Wall, kind: WallKind, a: i32, b: i32) -> bool {
    w.kind == kind && (w.dir.a, w.dir.b) == (a, b)
}

fn second_line(e: &Diagram) -> bool {
    e.line_count() > 1 && goes(e.line(1), WallKind::Line, 0, 1)
}

fn second_ray(e: &Diagram) -> bool {
    e.ray_count() > 1 && goes(e.ray(1), WallKind::Outgoing, 1, 2)
}

// Of five walls through the origin no two have one supporting line.
fn five_runs(e: &Diagram) -> bool {
    e.run_count() == 5 && e.along(0).len() == 1 && goes(&e.along(0)[0], WallKind::Line, 0, 1)
}

/// t2·x^-1
const T2_BACK: Key = Key {
    exp: Exp { a: -1, b: 0 },
    powers: [0, 1, 0, 0, 0, 0, 0, 0],
};

// A line and one that goes the other way along it, from another point.
fn opposite_lines(alloc: Global) -> Result<Diagram, Fail> {
    let mut lines = Vec::new(alloc);
    lines.push(wall(
        alloc,
        WallKind::Line,
        origin(),
        1,
        0,
        2,
        &[(ONE, 1), (X, 1)],
    )?)?;
    let back = [(T2_BACK, 1), (ONE, 1)];
    lines.push(wall(alloc, WallKind::Line, place(5, 0)?, -1, 0, 2, &back)?)?;
    Ok(Diagram::from_walls(alloc, 2, lines, Vec::new(alloc))?)
}

fn opposite_lines_are_one_run(alloc: Global) -> Result<bool, Fail> {
    let e = opposite_lines(alloc)?;
    Ok(e.run_count() == 1 && e.along(0).len() == 2 && goes(&e.along(0)[0], WallKind::Line, 1, 0))
}

#[test]
fn walls_by_their_places(rt: HostRuntime) -> Result<(), Fail> {
    let e = completion(rt.alloc())?;
    assert!(rt; second_line(&e));
    assert!(rt; second_ray(&e));
    assert!(rt; five_runs(&e));
    Ok(())
}

#[test]
fn walls_by_supporting_line(rt: HostRuntime) -> Result<(), Fail> {
    let alloc = rt.alloc();
    assert!(rt; opposite_lines_are_one_run(alloc)?);
    Ok(())
}

fn initial(alloc: Global) -> Result<Initial, Fail> {
    Ok(Initial::new(2, square_axes(alloc, 24)?))
}

fn initial_copy(alloc: Global) -> Result<bool, Fail> {
    let copy = initial(alloc)?.copy()?;
    Ok((copy.vars(), copy.lines().len()) == (2, 2))
}

// Whether the second line, cut to order 1, has 1 + 2*t2*y.
fn cut_lines(alloc: Global) -> Result<bool, Fail> {
    let initial = initial(alloc)?;
    let low = cut_walls(alloc, 1, initial.lines())?;
    Ok(
        low.len() == 2
            && low[1].function.order() == 1
            && low[1].function.terms() == [(ONE, 1), (Y, 2)].as_slice(),
    )
}

#[test]
fn initial_lines_are_kept(rt: HostRuntime) -> Result<(), Fail> {
    let alloc = rt.alloc();
    assert!(rt; initial_copy(alloc)?);
    assert!(rt; cut_lines(alloc)?);
    Ok(())
}
