// |F|^n at a point, for the product F of the functions of the live walls there.

ghost use Rattle.std.specs.Prelude.{◌≡◌, ◌≤◌, ◌^◌, IfOk};
ghost use Rattle.limits.specs.Limits.{highest_order};
ghost use Rattle.scattering.specs.Series.{absolute, cut, one};
ghost use Rattle.scattering.specs.BrokenLine.{live_on, product, across};
ghost use Rattle.plane_geom.specs.Shown.{point_of};
ghost use Rattle.trunc_series.specs.Shown.{exp_of, HasNearTerms};
ghost use Rattle.trunc_series.specs.Capped.{IsMajorantOf};
ghost use Rattle.scatter_diagram.specs.Shown.{wall_of, walls_of};
ghost use Rattle.bend_finder.specs.Ahead.{IsTraceable};
ghost use Rattle.bend_finder.specs.Powers.{AreAtLeast, IsMultiplied, functions_on, power_majorant};

use crate::products::det;
use crate::special::is_live_on;
use plane_geom::Point;
use scatter_diagram::Wall;
use std::alloc::{AllocError, Global};
use trunc_series::{Exp, Key, Majorant};

/// |F|^times to degree `most`.
pub(crate) fn power_on(
    alloc: Global,
    walls: &[Wall],
    q: &Point,
    times: u32,
    most: u32,
) -> Result<Majorant, AllocError>
    requires most { most ≤ highest_order }
    requires order { AreAtLeast most walls.now }
    ensures { IfOk result (λ m. IsMajorantOf m most
        (power_majorant most (walls_of walls.now) (point_of q.now) times)) }
{
    let product = product_on(alloc, walls, q, most)?;
    let power = product.power(times)?;
    Ok(power)
}

/// The product of |f| for the functions f of the live walls on the point.
fn product_on(alloc: Global, walls: &[Wall], q: &Point, most: u32) -> Result<Majorant, AllocError>
    requires most { most ≤ highest_order }
    requires order { AreAtLeast most walls.now }
    ensures { IfOk result (λ m. IsMajorantOf m most
        (product most (functions_on (walls_of walls.now) (point_of q.now)))) }
{
    let mut product = one(alloc, most)?;
    for i in 0..walls.len() {
        let place = walls.len() - 1 - i;
        product = times(product, &walls[place], q, most)?;
    }
    Ok(product)
}

/// The product with |f| for the function f of a wall, where that is live and on the point.
fn times(product: Majorant, w: &Wall, q: &Point, most: u32) -> Result<Majorant, AllocError>
    requires most { most ≤ highest_order }
    requires function { most ≤ w.now.function.order }
    requires order { product.order ≡ most }
    requires near { HasNearTerms product.terms }
    ensures { IfOk result (IsMultiplied most (wall_of w.now) (point_of q.now) product) }
{
    if !is_live_on(w, q) {
        return Ok(product);
    }
    let function = absolute(w, most)?;
    let more = function.mul(&product)?;
    Ok(more)
}

/// 1
fn one(alloc: Global, most: u32) -> Result<Majorant, AllocError>
    requires { most ≤ highest_order }
    ensures { IfOk result (λ m. IsMajorantOf m most one) }
{
    let mut terms = Vec::new(alloc);
    terms.push((Key::ONE, 1))?;
    Ok(Majorant::from_sorted(alloc, most, terms))
}

/// The absolute values of the coefficients of the wall's function to degree `most`.
fn absolute(w: &Wall, most: u32) -> Result<Majorant, AllocError>
    requires { most ≤ w.now.function.order }
    ensures { IfOk result (λ m. IsMajorantOf m most (absolute (cut most w.now.function.terms))) }
{
    let low = w.function.truncate(most)?;
    let absolute = Majorant::of(&low)?;
    Ok(absolute)
}

/// |det(d, x)| for the first live wall on the point, or 0 where there is none.
pub(crate) fn across(walls: &[Wall], q: &Point, x: Exp) -> u32
    requires { IsTraceable x }
    ensures value { result ≡ across (live_on (walls_of walls.now) (point_of q.now)) (exp_of x) }
    ensures bound { result ≤ 2 ^ 25 }
{
    for w in walls {
        if is_live_on(w, q) {
            return det(&w.dir, x).unsigned_abs() as u32;
        }
    }
    0
}
