// The walls of a diagram with the tables of their powers, by supporting line.

ghost use Rattle.std.specs.Prelude.{◌≡◌, ◌≤◌, length, IfOk};
ghost use Rattle.limits.specs.Limits.{highest_order};
ghost use Rattle.scattering.specs.Collections.{Every};
ghost use Rattle.scattering.specs.Wall.{IsWall, walls};
ghost use Rattle.scatter_diagram.specs.Proper.{AreTameWalls};
ghost use Rattle.local_product.specs.RunLines.{AreRunLines, AreParallels};
ghost use Rattle.local_product.specs.Tabled.{AreTablesOf, IsTabled, tables_to};

use crate::parallels::{ends_of, lines_of};
use crate::run_line::RunLine;
use crate::wall_tables::{WallTables, tables_of_run};
use scatter_diagram::Diagram;
use std::alloc::{AllocError, Global};
use std::marker::Model;

/// For each supporting line of a diagram the walls along it, on loan, with the tables of their powers to an
/// order; that line itself; and where each class of parallel lines ends. They are made once an order, and lent to
/// all its points.
#[derive(Drop)]
pub struct LocalTables<'a> {
    diagram: &'a Diagram,
    order: u32,
    runs: Vec<Vec<WallTables<'a>>>,
    lines: Vec<RunLine>,
    ends: Vec<usize>,
}

impl<'a> Model for LocalTables<'a> {
    ghost use Rattle.local_product.specs.Tabled.{SeenTables, AreTablesOf, tables_to};
    ghost use Rattle.std.specs.Prelude.{length};
    ghost use Rattle.local_product.specs.RunLines.{AreRunLines, AreParallels};

    ghost Value = { SeenTables };

    ghost view = { λ t. tables_to t.diagram.now t.order };

    ghost invariant = { λ t. AreTablesOf t.diagram.now t.order t.runs.items
        × AreRunLines t.diagram.now t.lines.items
        × AreParallels t.lines.items 0 t.ends.items (length t.lines.items) };
}

impl<'a> LocalTables<'a> {
    /// The order of the tables.
    pub fn order(&self) -> u32
        ensures value { result ≡ self.now.order }
        ensures bound { result ≤ highest_order }
        ensures proper { Every (IsWall self.now.diagram.order) (walls self.now.diagram.diagram) }
        ensures tame { AreTameWalls (walls self.now.diagram.diagram) }
    {
        self.order
    }

    /// For each supporting line the walls along it, with their tables.
    pub(crate) fn runs(&self) -> &[Vec<WallTables<'a>>]
        ensures { IsTabled self.now result.now }
    {
        self.runs.as_slice()
    }

    /// The supporting lines, and where each class of parallel ones ends.
    pub(crate) fn lines(&self) -> (&[RunLine], &[usize])
        ensures lines { AreRunLines self.now.diagram result.0.now }
        ensures ends { AreParallels result.0.now 0 result.1.now (length result.0.now) }
    {
        (self.lines.as_slice(), self.ends.as_slice())
    }
}

/// The runs of a diagram's walls, with their tables.
fn runs_of<'a>(
    alloc: Global,
    e: &'a Diagram,
    order: u32,
) -> Result<Vec<Vec<WallTables<'a>>>, AllocError>
    requires { order ≤ highest_order }
    ensures { IfOk result (λ r. AreTablesOf e.now order r.items) }
{
    let mut runs = Vec::with_capacity(alloc, e.run_count())?;
    for run in 0..e.run_count() {
        let walls = e.along(run);
        runs.push(tables_of_run(alloc, walls, order)?)?;
    }
    Ok(runs)
}

/// The tables of a diagram's walls to an order, which may be above or below its own.
pub fn tables_of<'a>(
    alloc: Global,
    e: &'a Diagram,
    order: u32,
) -> Result<LocalTables<'a>, AllocError>
    requires { order ≤ highest_order }
    ensures { IfOk result (λ t. t ≡ tables_to e.now order) }
{
    let lines = lines_of(alloc, e)?;
    let ends = ends_of(alloc, lines.as_slice())?;
    let runs = runs_of(alloc, e, order)?;
    Ok(LocalTables {
        diagram: e,
        order,
        runs,
        lines,
        ends,
    })
}
