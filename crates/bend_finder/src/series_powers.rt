// F^n at a point, for the product F of the functions of the live walls there.

ghost use Rattle.std.specs.Prelude.{◌≡◌, ◌≤◌, ◌^◌, IfOk, IsTrue};
ghost use Rattle.limits.specs.Limits.{highest_order, largest_weight};
ghost use Rattle.scattering.specs.Series.{absolute, cut, mul, mass_to};
ghost use Rattle.scattering.specs.BrokenLine.{product};
ghost use Rattle.plane_geom.specs.Shown.{point_of};
ghost use Rattle.trunc_series.specs.Shown.{IsSeriesOf, HasNearTerms};
ghost use Rattle.scatter_diagram.specs.Shown.{wall_of, walls_of};
ghost use Rattle.bend_finder.specs.Special.{live_holds};
ghost use Rattle.bend_finder.specs.Powers.{AreAtLeast, IsMultipliedExactly, functions_on, series_on, power_majorant, power_series};

use crate::special::is_live_on;
use plane_geom::Point;
use scatter_diagram::Wall;
use std::alloc::{AllocError, Global};
use trunc_series::Series;

/// F^times to degree `most`.
pub(crate) fn series_power(
    alloc: Global,
    walls: &[Wall],
    q: &Point,
    times: u32,
    most: u32,
) -> Result<Series, AllocError>
    requires most { most ≤ highest_order }
    requires order { AreAtLeast most walls.now }
    requires times { times ≤ 2 ^ 25 }
    requires light { mass_to most (power_majorant most (walls_of walls.now) (point_of q.now) times)
        ≤ largest_weight }
    ensures { IfOk result (λ s. IsSeriesOf s most
        (power_series most (walls_of walls.now) (point_of q.now) times)) }
{
    if times == 0 {
        let power = Series::one(alloc, most)?;
        return Ok(power);
    }
    let product = series_product(alloc, walls, q, most)?;
    let power = product.power(times as i32)?;
    Ok(power)
}

/// The product of the functions of the live walls on the point.
fn series_product(alloc: Global, walls: &[Wall], q: &Point, most: u32) -> Result<Series, AllocError>
    requires most { most ≤ highest_order }
    requires order { AreAtLeast most walls.now }
    requires light { mass_to most (product most (functions_on (walls_of walls.now) (point_of q.now)))
        ≤ largest_weight }
    ensures { IfOk result (λ s. IsSeriesOf s most
        (product most (series_on (walls_of walls.now) (point_of q.now)))) }
{
    let mut product = Series::one(alloc, most)?;
    for i in 0..walls.len() {
        let place = walls.len() - 1 - i;
        product = times_function(product, &walls[place], q, most)?;
    }
    Ok(product)
}

/// The product with the function of a wall, where that is live and on the point.
fn times_function(product: Series, w: &Wall, q: &Point, most: u32) -> Result<Series, AllocError>
    requires most { most ≤ highest_order }
    requires function { most ≤ w.now.function.order }
    requires order { product.order ≡ most }
    requires near { HasNearTerms product.terms }
    requires light { IsTrue (live_holds (wall_of w.now) (point_of q.now)) →
        mass_to most (mul most (absolute (cut most w.now.function.terms)) (absolute product.terms))
        ≤ largest_weight }
    ensures { IfOk result (IsMultipliedExactly most (wall_of w.now) (point_of q.now) product) }
{
    if !is_live_on(w, q) {
        return Ok(product);
    }
    let low = w.function.truncate(most)?;
    let more = low.mul(&product)?;
    Ok(more)
}
