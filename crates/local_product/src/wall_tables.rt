// A wall with the tables of its function.

ghost use Rattle.std.specs.Prelude.{◌≡◌, ◌≤◌, IfOk};
ghost use Rattle.limits.specs.Limits.{highest_order};
ghost use Rattle.scatter_diagram.specs.Shown.{wall_of};
ghost use Rattle.local_product.specs.Tabled.{HasTables, AreTablesOfRun};

use power_tables::PowerTable;
use scatter_diagram::Wall;
use std::alloc::{AllocError, Global};
use trunc_series::sorted_terms::Arithmetic;
use weight_bounds::MassTable;

/// A wall of a diagram, on loan, with the tables of its function to an order: of its powers, modulo 2^128, and
/// of its masses, for bounds of weights.
#[derive(Drop)]
pub struct WallTables<'a> {
    pub wall: &'a Wall,
    pub powers: PowerTable,
    pub masses: MassTable,
}

fn tables_of_wall<'a>(
    alloc: Global,
    wall: &'a Wall,
    order: u32,
) -> Result<WallTables<'a>, AllocError>
    requires { order ≤ highest_order }
    ensures wall { IfOk result (λ t. wall_of t.wall.now ≡ wall_of wall.now) }
    ensures tables { IfOk result (HasTables order) }
{
    // the order tells how far the function's exponents go
    let _order = wall.function.order();
    let powers = PowerTable::new(alloc, Arithmetic::Wrapping, order, &wall.function)?;
    let masses = MassTable::new(alloc, order, &wall.dir, &wall.function)?;
    Ok(WallTables {
        wall,
        powers,
        masses,
    })
}

/// Those of walls along one line.
pub(crate) fn tables_of_run<'a>(
    alloc: Global,
    walls: &'a [Wall],
    order: u32,
) -> Result<Vec<WallTables<'a>>, AllocError>
    requires { order ≤ highest_order }
    ensures { IfOk result (λ r. AreTablesOfRun order walls.now r.items) }
{
    let mut out = Vec::with_capacity(alloc, walls.len())?;
    for w in walls {
        out.push(tables_of_wall(alloc, w, order)?)?;
    }
    Ok(out)
}
