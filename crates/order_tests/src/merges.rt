// Corrections at the origin, with the lines and a ray through it, and at many points.

ghost use Rattle.std.specs.Prelude.{◌≡◌, ◌+◌, ◌≤◌, IfOk, IsTrue, negsuc, pos};
ghost use Rattle.limits.specs.Limits.{highest_order};
ghost use Rattle.plane_geom.specs.Places.{point};
ghost use Rattle.plane_geom.specs.Shown.{point_of};
ghost use Rattle.vertex_lie.specs.Shown.{lie_of};
ghost use Rattle.ray_merge.specs.Additions.{IsAddable, IsTameElement, IsLight, corrections_of};
ghost use Rattle.order_tests.specs.Rows.{is_worked, HasSmallValues, AreLightRays, AreFit};

use frac_128::Fraction;
use plane_geom::Point;
use ray_merge::merged;
use sample_walls::monomials::{
    ONE, T1T1_X, T1T1T1T2_XY, T1T2_XXYY, T2_XYY, X, XXYY, XY, XYYY, Y, YYY,
};
use sample_walls::{line, on_axis, origin, wall};
use scatter_diagram::{Diagram, Initial, Stop, StopCause, Wall, WallKind};
use std::alloc::{AllocError, Global};
use std::test::Fail;
use trunc_series::Key;
use vertex_lie::LieElement;

fn whole(c: i128) -> Fraction
    ensures num { result.num ≡ c }
    ensures den { result.den ≡ pos 1 }
{
    Fraction { num: c, den: 1 }
}

fn minus_three_halves() -> Fraction
    ensures num { result.num ≡ negsuc 2 }
    ensures den { result.den ≡ pos 2 }
{
    Fraction { num: -3, den: 2 }
}

// A correction of whole values at (x, 0).
fn correction(
    alloc: Global,
    order: u32,
    x: u16,
    terms: &[(Key, Fraction)],
) -> Result<(Point, LieElement), AllocError>
    requires order { order ≤ highest_order }
    requires terms { IsTrue (is_worked order (lie_of terms.now)) }
    ensures place { IfOk result (λ c. point_of c.0 ≡ point (pos x) (pos 0) (pos 1)) }
    ensures addable { IfOk result (λ c. IsAddable order c.1) }
    ensures tame { IfOk result (λ c. IsTameElement order c.1) }
    ensures light { IfOk result (λ c. IsLight c.1) }
    ensures values { IfOk result (λ c. HasSmallValues c.1) }
{
    Ok((on_axis(x), LieElement::from_terms(alloc, terms)?))
}

// That correction at (0, 0), (1, 0) and so on.
fn corrections(
    alloc: Global,
    order: u32,
    count: u16,
    terms: &[(Key, Fraction)],
) -> Result<Vec<(Point, LieElement)>, AllocError>
    requires order { order ≤ highest_order }
    requires terms { IsTrue (is_worked order (lie_of terms.now)) }
    ensures { IfOk result (λ cs. AreFit order (corrections_of cs.items)) }
{
    let mut out = Vec::new(alloc);
    for x in 0..count {
        out.push(correction(alloc, order, x, terms)?)?;
    }
    Ok(out)
}

// The diagram of the order with these corrections.
fn merge(
    alloc: Global,
    initial: &Initial,
    e: &Diagram,
    given: &[(Point, LieElement)],
    order: u32,
) -> Result<Diagram, Stop>
    requires order { order ≤ highest_order }
    requires next { e.now.order + 1 ≡ order }
    requires fit { AreFit order (corrections_of given.now) }
    requires light { AreLightRays order e.now.diagram.rays }
{
    merged(alloc, initial, e, given, order)
}

// The lines through the origin along (1, 0) and (a, b) with 1 + t1·x and 1 and a term.
fn lines(alloc: Global) -> Result<Initial, Fail> {
    let mut lines = Vec::new(alloc);
    lines.push(line(alloc, 0, 0, 1, 0, &[(ONE, 1), (X, 1)])?)?;
    lines.push(line(alloc, 0, 0, 0, 1, &[(ONE, 1), (Y, 1)])?)?;
    Ok(Initial::new(2, lines))
}

// The merged diagram of order 2 of a diagram without rays, and one correction at the origin.
fn of_lines(alloc: Global, initial: &Initial, terms: &[(Key, Fraction)]) -> Result<Diagram, Fail>
    requires { IsTrue (is_worked 2 (lie_of terms.now)) }
{
    let e = Diagram::from_walls(alloc, 1, Vec::new(alloc), Vec::new(alloc))?;
    let given = corrections(alloc, 2, 1, terms)?;
    match merge(alloc, initial, &e, given.as_slice(), 2) {
        Ok(next) => Ok(next),
        Err(_) => Err(Fail::from("stopped")),
    }
}

// Whether the ray starts at the point, goes along (a, b) and has the function.
fn is_ray(ray: &Wall, at: Point, a: i32, b: i32, terms: &[(Key, i128)]) -> bool {
    ray.at == at && (ray.dir.a, ray.dir.b) == (a, b) && ray.function.terms() == terms
}

// Whether the only ray of the diagram is from the origin along (1, 1) and has the function.
fn has_diagonal(e: &Diagram, terms: &[(Key, i128)]) -> bool {
    e.ray_count() == 1 && is_ray(e.ray(0), origin(), 1, 1, terms)
}

fn lines_get_a_diagonal(alloc: Global) -> Result<bool, Fail> {
    let next = of_lines(alloc, &lines(alloc)?, &[(XY, whole(-1))])?;
    Ok(has_diagonal(&next, &[(ONE, 1), (XY, 1)]))
}

// Whether the lines stay, cut to the order.
fn lines_are_cut(alloc: Global) -> Result<bool, Fail> {
    let next = of_lines(alloc, &lines(alloc)?, &[(XY, whole(-1))])?;
    Ok(
        next.line_count() == 2
            && next.line(0).function.order() == 2
            && next.line(1).function.order() == 2
            && next.order() == 2,
    )
}

// Whether the correction -2·t1·t2·x^2·y^2 gives twice that.
fn multiples_are_counted(alloc: Global) -> Result<bool, Fail> {
    let mut lines = Vec::new(alloc);
    lines.push(line(alloc, 0, 0, 1, 0, &[(ONE, 1), (X, 1)])?)?;
    lines.push(line(alloc, 0, 0, 1, 2, &[(ONE, 1), (T2_XYY, 1)])?)?;
    let next = of_lines(alloc, &Initial::new(2, lines), &[(T1T2_XXYY, whole(-2))])?;
    Ok(has_diagonal(&next, &[(ONE, 1), (T1T2_XXYY, 4)]))
}

#[test]
fn lines_get_rays(rt: HostRuntime) -> Result<(), Fail> {
    assert!(rt; lines_get_a_diagonal(rt.alloc())?);
    assert!(rt; lines_are_cut(rt.alloc())?);
    assert!(rt; multiples_are_counted(rt.alloc())?);
    Ok(())
}

// A diagram of order 3 with the ray along (1, 1) that has 1 + 2·t1·t2·x·y.
fn with_ray(alloc: Global) -> Result<Diagram, Fail>
    ensures order { IfOk result (λ e. e.order ≡ 3) }
    ensures light { IfOk result (λ e. AreLightRays 4 e.diagram.rays) }
{
    let mut rays = Vec::new(alloc);
    let terms = [(ONE, 1), (XY, 2)];
    rays.push(wall(alloc, WallKind::Outgoing, origin(), 1, 1, 3, &terms)?)?;
    Ok(Diagram::from_walls(alloc, 3, Vec::new(alloc), rays)?)
}

// The merged diagram of order 4 of that, and a correction along (1, 1) and (1, 3).
fn with_terms(alloc: Global, initial: &Initial) -> Result<Diagram, Fail> {
    let e = with_ray(alloc)?;
    let terms = [
        (T1T1T1T2_XY, whole(5)),
        (XYYY, whole(1)),
        (XXYY, minus_three_halves()),
    ];
    let given = corrections(alloc, 4, 1, &terms)?;
    match merge(alloc, initial, &e, given.as_slice(), 4) {
        Ok(next) => Ok(next),
        Err(_) => Err(Fail::from("stopped")),
    }
}

fn rays_get_terms(alloc: Global) -> Result<bool, Fail> {
    let next = with_terms(alloc, &lines(alloc)?)?;
    let diagonal = [(ONE, 1), (XY, 2), (T1T1T1T2_XY, -5), (XXYY, 3)];
    let steep = [(ONE, 1), (XYYY, -1)];
    Ok(
        next.ray_count() == 2
            && is_ray(next.ray(0), origin(), 1, 1, &diagonal)
            && is_ray(next.ray(1), origin(), 1, 3, &steep),
    )
}

// Whether t2^3·y^3 is cut from a line's function at order 2.
fn high_terms_are_cut(alloc: Global) -> Result<bool, Fail> {
    let mut lines = Vec::new(alloc);
    lines.push(line(alloc, 0, 0, 0, 1, &[(ONE, 1), (YYY, 1)])?)?;
    let next = of_lines(alloc, &Initial::new(2, lines), &[(XY, whole(-1))])?;
    Ok(next.line_count() == 1 && next.line(0).function.terms() == [(ONE, 1)].as_slice())
}

#[test]
fn rays_are_joined(rt: HostRuntime) -> Result<(), Fail> {
    assert!(rt; rays_get_terms(rt.alloc())?);
    assert!(rt; high_terms_are_cut(rt.alloc())?);
    Ok(())
}

// What is merged of no lines and so many corrections.
fn of_many(alloc: Global, count: u16) -> Result<Result<Diagram, Stop>, Fail> {
    let initial = Initial::new(2, Vec::new(alloc));
    let e = Diagram::from_walls(alloc, 1, Vec::new(alloc), Vec::new(alloc))?;
    let given = corrections(alloc, 2, count, &[(T1T1_X, whole(-1))])?;
    Ok(merge(alloc, &initial, &e, given.as_slice(), 2))
}

fn too_many_stop(alloc: Global) -> Result<bool, Fail> {
    let stop = Stop::At {
        order: 2,
        cause: StopCause::TooManyWalls,
    };
    Ok(of_many(alloc, 8193)?.err() == Some(stop))
}

fn most_are_merged(alloc: Global) -> Result<bool, Fail> {
    let Ok(next) = of_many(alloc, 8192)? else {
        return Ok(false);
    };
    let terms = [(ONE, 1), (T1T1_X, 1)];
    if next.ray_count() != 8192 {
        return Ok(false);
    }
    for x in 0..8192u16 {
        if !is_ray(next.ray(usize::from(x)), on_axis(x), 1, 0, &terms) {
            return Ok(false);
        }
    }
    Ok(true)
}

#[test]
fn walls_are_counted(rt: HostRuntime) -> Result<(), Fail> {
    assert!(rt; too_many_stop(rt.alloc())?);
    assert!(rt; most_are_merged(rt.alloc())?);
    Ok(())
}
