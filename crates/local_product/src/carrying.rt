// The image of an axis under crossings of half-walls, by degree.

ghost use Rattle.std.specs.Prelude.{◌≡◌, ◌≤◌, suc, length, IfOk, OnOk};
ghost use Rattle.limits.specs.Limits.{highest_order, largest_weight};
ghost use Rattle.trunc_series.specs.Shown.{exp_of, IsSeriesOf};
ghost use Rattle.trunc_series.specs.declared.arithmetic.Arithmetic.TheVariants.{Wrapping};
ghost use Rattle.wall_auto.specs.ByDegree.{AreKept};
ghost use Rattle.local_product.specs.Shown.{IsUnit, IsImageByDegree, carried, carried_mass};
ghost use Rattle.local_product.specs.Extents.{extent_of};
ghost use Rattle.local_product.specs.Tabled.{HalvesHaveTables};

use crate::half_walls::HalfWall;
use power_tables::PowerValues;
use std::alloc::{AllocError, Global};
use trunc_series::sorted_terms::Arithmetic;
use trunc_series::{Exp, Series};
use wall_auto::SumByDegree;

pub(crate) const AXIS_X: Exp = Exp { a: 1, b: 0 };

pub(crate) const AXIS_Y: Exp = Exp { a: 0, b: 1 };

/// Makes the image of z^m after the half-walls are crossed, the first one first. The numbers of m are at most
/// 1 in absolute value.
fn carry(
    sum: &mut SumByDegree,
    values: &mut PowerValues,
    order: u32,
    halves: &[HalfWall],
    m: Exp,
) -> Result<(), AllocError>
    requires order { order ≤ highest_order }
    requires parts { length sum.old ≡ suc order }
    requires tables { HalvesHaveTables order halves.now }
    requires axis { IsUnit (exp_of m) }
    ensures parts { length sum.new ≡ suc order }
    ensures kept { OnOk result (AreKept Wrapping sum.new) }
    ensures image { OnOk result (IsImageByDegree order halves.now (exp_of m) sum.new) }
{
    sum.start(Arithmetic::Wrapping, &m)?;
    for h in halves {
        sum.cross(h.powers, &h.wall.dir, h.crossing, values)?;
    }
    Ok(())
}

/// Which terms of an image are read.
#[derive(Clone, Copy)]
pub enum Extent {
    /// All of them.
    Whole,
    /// Those of the order's own degree.
    Highest,
}

/// The image of z^m, or its terms of the highest degree, where its majorant has a mass of at most 2^126.
pub(crate) fn image(
    alloc: Global,
    sum: &mut SumByDegree,
    values: &mut PowerValues,
    order: u32,
    halves: &[HalfWall],
    m: Exp,
    extent: Extent,
) -> Result<Series, AllocError>
    requires order { order ≤ highest_order }
    requires parts { length sum.old ≡ suc order }
    requires tables { HalvesHaveTables order halves.now }
    requires axis { IsUnit (exp_of m) }
    requires mass { carried_mass order halves.now (exp_of m) ≤ largest_weight }
    ensures parts { length sum.new ≡ suc order }
    ensures image { IfOk result
        (λ s. IsSeriesOf s order (extent_of extent order (carried order halves.now (exp_of m)))) }
{
    carry(sum, values, order, halves, m)?;
    let terms = match extent {
        Extent::Whole => sum.sorted(Arithmetic::Wrapping)?,
        Extent::Highest => sum.sorted_part(Arithmetic::Wrapping, order)?,
    };
    Ok(Series::from_sorted(alloc, order, terms))
}
