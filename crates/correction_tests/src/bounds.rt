// Bounds of weights, by hand: the axes with the functions (1 + t1·x)^3 and (1 + t2·y)^3, a line aslant, and
// functions of large masses.

ghost use Rattle.std.specs.Prelude.{◌≡◌, ◌≤◌, IfOk, IsTrue};
ghost use Rattle.limits.specs.Limits.{highest_order};
ghost use Rattle.plane_geom.specs.Places.{pair};
ghost use Rattle.trunc_series.specs.Shown.{sum_of};
ghost use Rattle.sample_walls.specs.LowFunctions.{is_low_function};

use limits::{HIGHEST_ORDER, LARGEST_WEIGHT};
use sample_walls::monomials::{ONE, X, XX, XXX, Y, YY, YYY};
use sample_walls::{origin, wall};
use scatter_diagram::WallKind;
use std::alloc::Global;
use std::test::Fail;
use trunc_series::{Exp, Key};
use weight_bounds::{MassTable, Reach, WeightBound};

/// t1·x·y^2
const ASLANT: Key = Key {
    exp: Exp { a: 1, b: 2 },
    powers: [1, 0, 0, 0, 0, 0, 0, 0],
};

// The table of a line's function to an order.
fn table(
    alloc: Global,
    a: i32,
    b: i32,
    order: u32,
    terms: &[(Key, i128)],
) -> Result<MassTable, Fail>
    requires order { order ≤ highest_order }
    requires function { IsTrue (is_low_function highest_order (pair a b) (sum_of terms.now)) }
    ensures { IfOk result (λ t. t.order ≡ order) }
{
    let w = wall(alloc, WallKind::Line, origin(), a, b, HIGHEST_ORDER, terms)?;
    Ok(MassTable::new(alloc, order, &w.dir, &w.function)?)
}

// The bound after both lines, once or twice.
fn bound_of(x: &MassTable, y: &MassTable, order: u32, twice: bool) -> Option<u128>
    requires order { order ≤ highest_order }
    requires x { x.now.order ≡ order }
    requires y { y.now.order ≡ order }
{
    let mut reach = Reach::new(order);
    reach.add(x);
    reach.add(y);
    let mut bound = WeightBound::start(&reach);
    bound.cross(x);
    bound.cross(y);
    if twice {
        bound.cross(x);
        bound.cross(y);
    }
    bound.bound()
}

// Whether this is the bound at the point where the lines of the cubes meet.
fn cubes_have(alloc: Global, order: u32, weight: u128) -> Result<bool, Fail>
    requires { order ≤ highest_order }
{
    let x = [(ONE, 1), (X, 3), (XX, 3), (XXX, 1)];
    let y = [(ONE, 1), (Y, 3), (YY, 3), (YYY, 1)];
    let x = table(alloc, 1, 0, order, &x)?;
    let y = table(alloc, 0, 1, order, &y)?;
    Ok(bound_of(&x, &y, order, true) == Some(weight))
}

// Whether these are those bounds to the orders 0 to 3.
fn all_cubes_have(alloc: Global, weights: &[u128; 4]) -> Result<bool, Fail> {
    for order in 0..4 {
        if !cubes_have(alloc, order, weights[order as usize])? {
            return Ok(false);
        }
    }
    Ok(true)
}

// Whether this is the bound after two half-walls of a line along (1, 2).
fn aslant_has(alloc: Global, order: u32, weight: u128) -> Result<bool, Fail>
    requires { order ≤ highest_order }
{
    let t = table(alloc, 1, 2, order, &[(ONE, 1), (ASLANT, -1)])?;
    Ok(bound_of(&t, &t, order, false) == Some(weight))
}

// Whether this is the bound to order 1 of two lines, of which the first has a mass of 2^62.
fn heavy_has(alloc: Global, twice: bool, weight: u128) -> Result<bool, Fail> {
    let x = table(alloc, 1, 0, 1, &[(ONE, 1), (X, 1 << 62)])?;
    let y = table(alloc, 0, 1, 1, &[(ONE, 1), (Y, 1)])?;
    Ok(bound_of(&x, &y, 1, twice) == Some(weight))
}

// Whether the bound is 2^126 after half-walls of masses 2^125 - 2 and 1.
fn heaviest_is_bounded(alloc: Global) -> Result<bool, Fail> {
    let x = table(alloc, 1, 0, 1, &[(ONE, 1), (X, (1 << 125) - 2)])?;
    let y = table(alloc, 0, 1, 1, &[(ONE, 1), (Y, 1)])?;
    Ok(bound_of(&x, &y, 1, false) == Some(LARGEST_WEIGHT))
}

// Whether there is none with 1 more.
fn too_heavy_has_none(alloc: Global) -> Result<bool, Fail> {
    let x = table(alloc, 1, 0, 1, &[(ONE, 1), (X, (1 << 125) - 1)])?;
    let y = table(alloc, 0, 1, 1, &[(ONE, 1), (Y, 1)])?;
    Ok(bound_of(&x, &y, 1, false).is_none())
}

#[test]
fn bounds(rt: HostRuntime) -> Result<(), Fail> {
    let alloc = rt.alloc();
    assert!(rt; all_cubes_have(alloc, &[2, 26, 338, 4486])?);
    assert!(rt; aslant_has(alloc, 1, 14)?);
    assert!(rt; heavy_has(alloc, false, (1 << 63) + 4)?);
    assert!(rt; heavy_has(alloc, true, (1 << 64) + 6)?);
    assert!(rt; heaviest_is_bounded(alloc)?);
    assert!(rt; too_heavy_has_none(alloc)?);
    Ok(())
}
