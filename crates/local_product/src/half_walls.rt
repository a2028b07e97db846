// The half-walls at a point, in order by angle.

ghost use Rattle.std.specs.Prelude.{◌≡◌, ℕ, OnOk, IsTrue};
ghost use Rattle.scattering.specs.Collections.{Every, in_order};
ghost use Rattle.scattering.specs.LocalProduct.{along};
ghost use Rattle.scattering.specs.Wall.{IsWall, is_on, walls};
ghost use Rattle.plane_geom.specs.Shown.{point_of, vector_of};
ghost use Rattle.scatter_diagram.specs.Shown.{wall_of};
ghost use Rattle.local_product.specs.Shown.{half_of, half_before, AddsHalves, AddsRun, AreHalvesOf, AreHalfWalls};
ghost use Rattle.local_product.specs.Tabled.{HalvesHaveTables, KeepsTables, KeepsRunTables};

use crate::parallels::line_through;
use crate::tables::LocalTables;
use crate::wall_tables::WallTables;
use plane_geom::{Direction, Point, angle_cmp};
use power_tables::PowerTable;
use scatter_diagram::{Wall, opposite};
use std::alloc::AllocError;
use wall_auto::Side;
use weight_bounds::MassTable;

/// A half-wall at a point, and the side of its wall to which it is crossed: `Minus` for the part along the
/// wall's direction, `Plus` for the part against it. The wall is lent, and so are its tables.
#[derive(Clone, Copy)]
pub struct HalfWall<'a> {
    pub wall: &'a Wall,
    pub powers: &'a PowerTable,
    pub masses: &'a MassTable,
    pub crossing: Side,
}

impl HalfWall<'_> {
    /// The direction along which it goes from the point.
    pub fn along(&self) -> Direction
        ensures { vector_of result ≡ along (half_of self.now) }
    {
        match self.crossing {
            Side::Minus => self.wall.dir,
            Side::Plus => opposite(&self.wall.dir),
        }
    }
}

/// Adds the half-walls of a wall at a point on it: both, but of a ray that starts there the one along which
/// it goes.
fn push_halves<'a>(
    out: &mut Vec<HalfWall<'a>>,
    w: &'a WallTables<'_>,
    p: &Point,
) -> Result<(), AllocError>
    requires { IsTrue (is_on (wall_of w.now.wall.now) (point_of p.now)) }
    ensures halves { OnOk result (AddsHalves p.now w.now.wall.now out.old.items out.new.items) }
    ensures tables { OnOk result (KeepsTables w.now out.old.items out.new.items) }
{
    let against = HalfWall {
        wall: w.wall,
        powers: &w.powers,
        masses: &w.masses,
        crossing: Side::Plus,
    };
    if w.wall.starts_at(p) {
        out.push(against)?;
        return Ok(());
    }
    out.push(HalfWall {
        crossing: Side::Minus,
        ..against
    })?;
    out.push(against)?;
    Ok(())
}

/// Adds the half-walls at a point of those of the walls that are on it, wall by wall.
fn push_run<'a>(
    out: &mut Vec<HalfWall<'a>>,
    run: &'a [WallTables<'_>],
    p: &Point,
) -> Result<(), AllocError>
    ensures halves { OnOk result (AddsRun p.now run.now out.old.items out.new.items) }
    ensures tables { OnOk result (KeepsRunTables run.now out.old.items out.new.items) }
{
    for w in run {
        if w.wall.holds(p) {
            push_halves(out, w, p)?;
        }
    }
    Ok(())
}

/// Sorts half-walls counter-clockwise from (1, 0); those along one direction stay in their order.
fn arrange(halves: &mut Vec<HalfWall>) -> Result<(), AllocError>
    ensures { OnOk result (halves.new.items ≡ in_order half_before halves.old.items) }
{
    halves.sort_by(|g, h| angle_cmp(&g.along(), &h.along()))?;
    Ok(())
}

/// Puts the half-walls at a point into `out`, run by run.
///
/// Of parallel lines at most one holds the point, and only of that one the walls are looked at.
fn unordered<'a>(
    out: &mut Vec<HalfWall<'a>>,
    tables: &'a LocalTables<'_>,
    p: &Point,
) -> Result<(), AllocError>
    ensures halves { OnOk result (AreHalvesOf tables.now p.now out.new.items) }
    ensures tables { OnOk result (HalvesHaveTables tables.now.order out.new.items) }
    ensures proper { OnOk result
        (Every (IsWall tables.now.diagram.order) (walls tables.now.diagram.diagram)) }
{
    out.clear();
    let runs = tables.runs();
    let (lines, ends) = tables.lines();
    let mut begin = 0;
    for i in 0..ends.len() {
        if let Some(at) = line_through(lines, begin, ends[i], p) {
            push_run(out, runs[at].as_slice(), p)?;
        }
        begin = ends[i];
    }
    Ok(())
}

/// Puts the half-walls at a point into `out`, counter-clockwise from (1, 0). Those along one direction
/// stand as their walls do.
pub fn half_walls<'a>(
    out: &mut Vec<HalfWall<'a>>,
    tables: &'a LocalTables<'_>,
    p: &Point,
) -> Result<(), AllocError>
    ensures halves { OnOk result (AreHalfWalls tables.now p.now out.new.items) }
    ensures tables { OnOk result (HalvesHaveTables tables.now.order out.new.items) }
{
    unordered(out, tables, p)?;
    arrange(out)?;
    Ok(())
}
