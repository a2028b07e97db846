// The correction at a point.

ghost use Rattle.std.specs.Prelude.{◌≡◌, ◌≤◌, suc, length, IfOk, IfErr, OnOk, IfSome, MatchOption};
ghost use Rattle.limits.specs.Limits.{highest_order};
ghost use Rattle.trunc_series.specs.Shown.{exp_of};
ghost use Rattle.vertex_lie.specs.Leading.{axis_of};
ghost use Rattle.local_product.specs.LightPoint.{IsLightPoint};
ghost use Rattle.local_product.specs.OneSide.{IsEdge};
ghost use Rattle.local_product.specs.Obstruction.{IsObstructionAt, IsHeavyAt, IsLightAt, IsConsistentBefore, HasLightRays, IsStoppedByWeight};
ghost use Rattle.local_product.specs.Workspace.{IsWorkspaceOf};

use crate::carrying::{AXIS_X, AXIS_Y, Extent, image};
use crate::half_walls::{HalfWall, half_walls};
use crate::one_side::edge_axis;
use crate::product::is_light;
use crate::tables::{LocalTables, tables_of};
use crate::workspace::Workspace;
use plane_geom::Point;
use power_tables::PowerValues;
use scatter_diagram::{Diagram, Stop, StopCause};
use std::alloc::{AllocError, Global};
use trunc_series::Exp;
use vertex_lie::{Axis, LieElement, leading, leading_from};
use wall_auto::SumByDegree;

/// The exponent that the axis is.
fn exponent_of(axis: Axis) -> Exp
    ensures { exp_of result ≡ axis_of axis }
{
    match axis {
        Axis::X => AXIS_X,
        Axis::Y => AXIS_Y,
    }
}

/// The correction: from the image of one axis, where all walls on the point turn to one side of it, or from
/// those of both.
fn light_correction(
    alloc: Global,
    tables: &LocalTables,
    p: &Point,
    halves: &[HalfWall],
    sum: &mut SumByDegree,
    values: &mut PowerValues,
) -> Result<LieElement, AllocError>
    requires point { IsLightPoint tables.now p.now halves.now }
    requires parts { length sum.old ≡ suc tables.now.order }
    ensures parts { length sum.new ≡ suc tables.now.order }
    ensures correction { IfOk result
        (IsObstructionAt tables.now.diagram p.now tables.now.order) }
{
    let order = tables.order();
    if let Some(axis) = edge_axis(halves, p) {
        let m = exponent_of(axis);
        let one = image(alloc, sum, values, order, halves, m, Extent::Highest)?;
        let h = leading_from(alloc, axis, &one, order)?;
        return Ok(h);
    }
    let x = image(alloc, sum, values, order, halves, AXIS_X, Extent::Highest)?;
    let y = image(alloc, sum, values, order, halves, AXIS_Y, Extent::Highest)?;
    let h = leading(alloc, &x, &y, order)?;
    Ok(h)
}

/// The correction, or None where the weight is above 2^126.
fn correction<'a>(
    alloc: Global,
    tables: &'a LocalTables<'_>,
    p: &Point,
    workspace: &mut Workspace<'a>,
) -> Result<Option<LieElement>, AllocError>
    requires some { 1 ≤ tables.now.order }
    requires consistent { IsConsistentBefore tables.now.diagram p.now tables.now.order }
    requires workspace { IsWorkspaceOf tables.now.order workspace.old }
    ensures workspace { IsWorkspaceOf tables.now.order workspace.new }
    ensures weight { IfOk result
        (λ o. MatchOption o (IsHeavyAt tables.now.diagram p.now tables.now.order)
        (λ h. IsLightAt tables.now.diagram p.now tables.now.order)) }
    ensures correction { IfOk result
        (λ o. IfSome o (IsObstructionAt tables.now.diagram p.now tables.now.order)) }
    ensures rays { IfOk result
        (λ o. IfSome o (λ h. HasLightRays tables.now.diagram p.now tables.now.order)) }
{
    half_walls(&mut workspace.halves, tables, p)?;
    let (halves, order) = (workspace.halves.as_slice(), tables.order());
    let (sum, values) = (&mut workspace.sum, &mut workspace.values);
    if !is_light(alloc, sum, values, order, halves)? {
        return Ok(None);
    }
    let h = light_correction(alloc, tables, p, halves, sum, values)?;
    Ok(Some(h))
}

/// The correction of degree `order` at a point, as `obstruction_at` answers it, where `order` is that of the
/// tables. They can be lent to one point after another, and so can the memory of the workspace.
pub fn obstruction_with<'a>(
    alloc: Global,
    tables: &'a LocalTables<'_>,
    p: &Point,
    workspace: &mut Workspace<'a>,
) -> Result<LieElement, Stop>
    requires some { 1 ≤ tables.now.order }
    requires consistent { IsConsistentBefore tables.now.diagram p.now tables.now.order }
    requires workspace { IsWorkspaceOf tables.now.order workspace.old }
    ensures workspace { IsWorkspaceOf tables.now.order workspace.new }
    ensures correction { IfOk result
        (IsObstructionAt tables.now.diagram p.now tables.now.order) }
    ensures rays { OnOk result (HasLightRays tables.now.diagram p.now tables.now.order) }
    ensures light { OnOk result (IsLightAt tables.now.diagram p.now tables.now.order) }
    ensures stop { IfErr result (IsStoppedByWeight tables.now.diagram p.now tables.now.order) }
{
    let order = tables.order();
    match correction(alloc, tables, p, workspace) {
        Err(_) => Err(Stop::Memory),
        Ok(None) => Err(Stop::At {
            order,
            cause: StopCause::WeightTooLarge,
        }),
        Ok(Some(h)) => Ok(h),
    }
}

/// The correction of degree `order` at a point that is consistent at the order before: the Lie element h
/// for which the images of z^(1,0) and z^(0,1) are these and {h, z^(1,0)} and {h, z^(0,1)}.
///
/// The point stops the order exactly where its weight is above 2^126.
pub fn obstruction_at(alloc: Global, e: &Diagram, p: &Point, order: u32) -> Result<LieElement, Stop>
    requires order { order ≤ highest_order }
    requires some { 1 ≤ order }
    requires consistent { IsConsistentBefore e.now p.now order }
    ensures correction { IfOk result (IsObstructionAt e.now p.now order) }
    ensures rays { OnOk result (HasLightRays e.now p.now order) }
    ensures light { OnOk result (IsLightAt e.now p.now order) }
    ensures stop { IfErr result (IsStoppedByWeight e.now p.now order) }
{
    let tables = tables_of(alloc, e, order)?;
    let mut workspace = Workspace::new(alloc, order)?;
    obstruction_with(alloc, &tables, p, &mut workspace)
}
