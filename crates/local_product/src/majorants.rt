// Majorants of images, where a weight has to be known.

ghost use Rattle.std.specs.Prelude.{◌≡◌, ◌≤◌, suc, length, IfOk, OnOk};
ghost use Rattle.limits.specs.Limits.{highest_order};
ghost use Rattle.scattering.specs.Collections.{Every};
ghost use Rattle.scattering.specs.Series.{mass_to};
ghost use Rattle.trunc_series.specs.declared.arithmetic.Arithmetic.TheVariants.{Saturating};
ghost use Rattle.trunc_series.specs.Shown.{exp_of};
ghost use Rattle.wall_auto.specs.ByDegree.{AreKept};
ghost use Rattle.local_product.specs.Majorants.{majorant_half, HasMajorant, AreBounding, carried_majorant, IsMajorantByDegree};
ghost use Rattle.local_product.specs.Shown.{IsUnit, half_of, halves_of, counted_weight, majorants_mass};

use crate::carrying::{AXIS_X, AXIS_Y};
use crate::half_walls::HalfWall;
use crate::one_variable::function_in_one_variable;
use limits::LARGEST_WEIGHT;
use power_tables::{PowerTable, PowerValues};
use scatter_diagram::Wall;
use std::alloc::{AllocError, Global};
use trunc_series::Exp;
use trunc_series::sorted_terms::Arithmetic;
use wall_auto::{Side, SumByDegree};

/// A half-wall with the table of the powers of 1/(2 - |f|) in one variable, where f is its wall's function.
/// Numbers saturate.
#[derive(Drop)]
pub struct BoundingHalf<'a> {
    wall: &'a Wall,
    powers: PowerTable,
    crossing: Side,
}

fn bounding<'a>(alloc: Global, order: u32, h: &HalfWall<'a>) -> Result<BoundingHalf<'a>, AllocError>
    requires { order ≤ highest_order }
    ensures half { IfOk result (λ b. majorant_half b ≡ half_of h.now) }
    ensures table { IfOk result (HasMajorant order) }
{
    let bound = function_in_one_variable(alloc, h.wall)?;
    Ok(BoundingHalf {
        wall: h.wall,
        powers: PowerTable::new(alloc, Arithmetic::Saturating, order, &bound)?,
        crossing: h.crossing,
    })
}

/// The half-walls with such tables.
fn all_bounding<'a>(
    alloc: Global,
    order: u32,
    halves: &[HalfWall<'a>],
) -> Result<Vec<BoundingHalf<'a>>, AllocError>
    requires { order ≤ highest_order }
    ensures { IfOk result (λ r. AreBounding order halves.now r.items) }
{
    let mut out = Vec::with_capacity(alloc, halves.len())?;
    for h in halves {
        out.push(bounding(alloc, order, h)?)?;
    }
    Ok(out)
}

/// Makes the majorant of the image of z^m after the half-walls are crossed, in one variable. The numbers of m
/// are at most 1 in absolute value.
fn carry_majorant(
    sum: &mut SumByDegree,
    values: &mut PowerValues,
    order: u32,
    halves: &[BoundingHalf],
    m: Exp,
) -> Result<(), AllocError>
    requires order { order ≤ highest_order }
    requires parts { length sum.old ≡ suc order }
    requires tables { Every (HasMajorant order) halves.now }
    requires axis { IsUnit (exp_of m) }
    ensures parts { length sum.new ≡ suc order }
    ensures kept { OnOk result (AreKept Saturating sum.new) }
    ensures majorant { OnOk result (IsMajorantByDegree order halves.now (exp_of m) sum.new) }
{
    sum.start(Arithmetic::Saturating, &m)?;
    for h in halves {
        sum.cross(&h.powers, &h.wall.dir, h.crossing, values)?;
    }
    Ok(())
}

/// The mass of that majorant, or 2^126 + 1 where it is above 2^126.
fn majorant_mass(
    sum: &mut SumByDegree,
    values: &mut PowerValues,
    order: u32,
    halves: &[BoundingHalf],
    m: Exp,
) -> Result<u128, AllocError>
    requires order { order ≤ highest_order }
    requires parts { length sum.old ≡ suc order }
    requires tables { Every (HasMajorant order) halves.now }
    requires axis { IsUnit (exp_of m) }
    ensures parts { length sum.new ≡ suc order }
    ensures mass { IfOk result
        (λ w. w ≡ counted_weight (mass_to order (carried_majorant order halves.now (exp_of m)))) }
{
    carry_majorant(sum, values, order, halves, m)?;
    Ok(sum.mass())
}

/// The masses of the majorants of both images together, or 2^126 + 1 where that is above 2^126.
pub(crate) fn weight_of(
    alloc: Global,
    sum: &mut SumByDegree,
    values: &mut PowerValues,
    order: u32,
    halves: &[HalfWall],
) -> Result<u128, AllocError>
    requires order { order ≤ highest_order }
    requires parts { length sum.old ≡ suc order }
    ensures parts { length sum.new ≡ suc order }
    ensures weight { IfOk result
        (λ w. w ≡ counted_weight (majorants_mass order (halves_of halves.now))) }
{
    let halves = all_bounding(alloc, order, halves)?;
    let x = majorant_mass(sum, values, order, halves.as_slice(), AXIS_X)?;
    let y = majorant_mass(sum, values, order, halves.as_slice(), AXIS_Y)?;
    Ok((x + y).min(LARGEST_WEIGHT + 1))
}
