// Worked examples: their lines, and whether a diagram has their rays.

use sample_walls::monomials::{ONE, T1T2T3_XXY, T2T3_XY, T3_X, XXY, XXYY, XY, XYY};
use sample_walls::{line, plain_axes, square_axes};
use scatter_diagram::{Diagram, Initial, Wall};
use std::alloc::Global;
use std::test::Fail;
use trunc_series::Key;

// Whether the ray starts at (x, y), goes along (a, b) and has the function.
fn is_ray(ray: &Wall, start: (i64, i64), dir: (i32, i32), terms: &[(Key, i128)]) -> bool {
    (ray.at.x, ray.at.y, ray.at.w) == (start.0, start.1, 1)
        && (ray.dir.a, ray.dir.b) == dir
        && ray.function.terms() == terms
}

// Whether the only ray of the diagram is from (0, 0) along (1, 1) and has the function.
pub(crate) fn has_diagonal(e: &Diagram, terms: &[(Key, i128)]) -> bool {
    e.ray_count() == 1 && is_ray(e.ray(0), (0, 0), (1, 1), terms)
}

// ---- (1, 0) and (0, 1) at the origin, with 1 + t1·x and 1 + t2·y

pub(crate) fn two_lines(alloc: Global) -> Result<Initial, Fail> {
    Ok(Initial::new(2, plain_axes(alloc)?))
}

pub(crate) fn has_plain_diagonal(e: &Diagram) -> bool {
    has_diagonal(e, &[(ONE, 1), (XY, 1)])
}

// ---- and (1, 0) at (0, 1), with 1 + t3·x

pub(crate) fn three_lines(alloc: Global) -> Result<Initial, Fail> {
    let mut lines = plain_axes(alloc)?;
    lines.push(line(alloc, 0, 1, 1, 0, &[(ONE, 1), (T3_X, 1)])?)?;
    Ok(Initial::new(3, lines))
}

// At order 3 one ray starts where a ray crosses a line.
pub(crate) fn has_three_rays(e: &Diagram) -> bool {
    e.ray_count() == 3
        && is_ray(e.ray(0), (-1, 0), (2, 1), &[(ONE, 1), (T1T2T3_XXY, 1)])
        && is_ray(e.ray(1), (0, 0), (1, 1), &[(ONE, 1), (XY, 1)])
        && is_ray(e.ray(2), (0, 1), (1, 1), &[(ONE, 1), (T2T3_XY, 1)])
}

// ---- (1, 0) and (0, 1) at the origin, with (1 + t1·x)^2 and (1 + t2·y)^2

pub(crate) fn squares(alloc: Global) -> Result<Initial, Fail> {
    Ok(Initial::new(2, square_axes(alloc, 24)?))
}

// At order 4.
pub(crate) fn has_rays_of_squares(e: &Diagram) -> bool {
    e.ray_count() == 3
        && is_ray(e.ray(0), (0, 0), (1, 1), &[(ONE, 1), (XY, 4), (XXYY, 10)])
        && is_ray(e.ray(1), (0, 0), (1, 2), &[(ONE, 1), (XYY, 2)])
        && is_ray(e.ray(2), (0, 0), (2, 1), &[(ONE, 1), (XXY, 2)])
}
