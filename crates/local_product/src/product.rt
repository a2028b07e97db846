// The weight and the images of z^(1,0) and z^(0,1) at a point.

ghost use Rattle.std.specs.Prelude.{◌≡◌, ◌<◌, ◌≤◌, suc, length, IfOk};
ghost use Rattle.std.specs.Bool.{MatchBool};
ghost use Rattle.limits.specs.Limits.{highest_order, largest_weight};
ghost use Rattle.scattering.specs.LocalProduct.{axis_x, axis_y};
ghost use Rattle.trunc_series.specs.Shown.{IsSeriesOf};
ghost use Rattle.local_product.specs.Shown.{halves_of, counted_weight, majorants_mass};
ghost use Rattle.local_product.specs.Tabled.{HalvesHaveTables};
ghost use Rattle.local_product.specs.Workspace.{IsWorkspaceOf};
ghost use Rattle.local_product.specs.Obstruction.{weight_at, image_at, IsLightAt};

use crate::bound::is_surely_light;
use crate::carrying::{AXIS_X, AXIS_Y, Extent, image};
use crate::half_walls::{HalfWall, half_walls};
use crate::majorants::weight_of;
use crate::tables::{LocalTables, tables_of};
use crate::workspace::Workspace;
use limits::LARGEST_WEIGHT;
use plane_geom::Point;
use power_tables::PowerValues;
use scatter_diagram::Diagram;
use std::alloc::{AllocError, Global};
use trunc_series::Series;
use wall_auto::SumByDegree;

/// The weight at a point: the sum of all coefficients of both images, where each crossing multiplies z^m by
/// (1/(2 - |f|))^|det(dir, m)| instead. Answers 2^126 + 1 where it is above 2^126.
pub fn weight_at(alloc: Global, e: &Diagram, p: &Point, order: u32) -> Result<u128, AllocError>
    requires { order ≤ highest_order }
    ensures { IfOk result (λ w. w ≡ counted_weight (weight_at e.now p.now order)) }
{
    let tables = tables_of(alloc, e, order)?;
    let mut workspace = Workspace::new(alloc, order)?;
    weight_with(alloc, &tables, p, &mut workspace)
}

fn weight_with<'a>(
    alloc: Global,
    tables: &'a LocalTables<'_>,
    p: &Point,
    workspace: &mut Workspace<'a>,
) -> Result<u128, AllocError>
    requires { IsWorkspaceOf tables.now.order workspace.old }
    ensures { IfOk result
        (λ w. w ≡ counted_weight (weight_at tables.now.diagram p.now tables.now.order)) }
{
    half_walls(&mut workspace.halves, tables, p)?;
    let halves = workspace.halves.as_slice();
    weight_of(
        alloc,
        &mut workspace.sum,
        &mut workspace.values,
        tables.order(),
        halves,
    )
}

/// The images of z^(1,0) and z^(0,1) under the local product at a point, without terms of degree above the
/// order, where the weight is at most 2^126.
pub fn images_at(
    alloc: Global,
    e: &Diagram,
    p: &Point,
    order: u32,
) -> Result<(Series, Series), AllocError>
    requires order { order ≤ highest_order }
    requires light { IsLightAt e.now p.now order }
    ensures x { IfOk result (λ s. IsSeriesOf s.0 order (image_at e.now p.now order axis_x)) }
    ensures y { IfOk result (λ s. IsSeriesOf s.1 order (image_at e.now p.now order axis_y)) }
{
    let tables = tables_of(alloc, e, order)?;
    let mut workspace = Workspace::new(alloc, order)?;
    images_with(alloc, &tables, p, &mut workspace)
}

fn images_with<'a>(
    alloc: Global,
    tables: &'a LocalTables<'_>,
    p: &Point,
    workspace: &mut Workspace<'a>,
) -> Result<(Series, Series), AllocError>
    requires workspace { IsWorkspaceOf tables.now.order workspace.old }
    requires light { IsLightAt tables.now.diagram p.now tables.now.order }
    ensures x { IfOk result (λ s. IsSeriesOf s.0 tables.now.order
        (image_at tables.now.diagram p.now tables.now.order axis_x)) }
    ensures y { IfOk result (λ s. IsSeriesOf s.1 tables.now.order
        (image_at tables.now.diagram p.now tables.now.order axis_y)) }
{
    let order = tables.order();
    half_walls(&mut workspace.halves, tables, p)?;
    let halves = workspace.halves.as_slice();
    let sum = &mut workspace.sum;
    let values = &mut workspace.values;
    let x = image(alloc, sum, values, order, halves, AXIS_X, Extent::Whole)?;
    let y = image(alloc, sum, values, order, halves, AXIS_Y, Extent::Whole)?;
    Ok((x, y))
}

/// Whether the weight is at most 2^126: by a bound of it, or where that fails by the weight itself.
pub(crate) fn is_light(
    alloc: Global,
    sum: &mut SumByDegree,
    values: &mut PowerValues,
    order: u32,
    halves: &[HalfWall],
) -> Result<bool, AllocError>
    requires order { order ≤ highest_order }
    requires parts { length sum.old ≡ suc order }
    requires tables { HalvesHaveTables order halves.now }
    ensures parts { length sum.new ≡ suc order }
    ensures light { IfOk result (λ b. MatchBool b
        (majorants_mass order (halves_of halves.now) ≤ largest_weight)
        (largest_weight < majorants_mass order (halves_of halves.now))) }
{
    if is_surely_light(order, halves) {
        return Ok(true);
    }
    let weight = weight_of(alloc, sum, values, order, halves)?;
    Ok(weight <= LARGEST_WEIGHT)
}
