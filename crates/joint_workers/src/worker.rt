// One worker: it claims tasks until none is left.

ghost use Rattle.std.specs.Prelude.{◌≡◌, ◌≤◌, [], ℕ, ◌+◌, length, IfOk, IfErr};
ghost use Rattle.scattering.specs.Wall.{walls};
ghost use Rattle.scattering.specs.Completion.{IsConsistent};
ghost use Rattle.scatter_step.specs.Orders.{IsStoppedByPoint};
ghost use Rattle.joint_board.specs.Seen.{new_seat};
ghost use Rattle.joint_workers.specs.Tasks.{IsFoundBy};

use joint_board::{Board, BoardSeat, Kept};
use local_product::{LocalTables, Workspace, obstruction_with};
use outside_io::Gate;
use plane_geom::Point;
use scatter_diagram::Stop;
use std::alloc::Global;
use vertex_lie::LieElement;

/// What the worker of a seat finds: for each task that it claims the point with its correction. It ends once no
/// task is left, or where a point stops it.
pub(crate) fn correct_claimed<G: Gate>(
    alloc: Global,
    board: &Board,
    mut seat: BoardSeat,
    tables: &LocalTables<'_>,
    points: &[Point],
    gate: &G,
) -> Result<Kept<(Point, LieElement)>, Stop>
    requires some { 1 ≤ tables.now.order }
    requires consistent { (n : ℕ) → n + 1 ≡ tables.now.order →
        IsConsistent n (walls tables.now.diagram.diagram) }
    requires board { board.now.tasks ≡ length points.now }
    requires seat { seat ≡ new_seat board.now seat.number }
    ensures { IsFoundBy tables.now.diagram tables.now.order points.now seat result }
{
    let order = tables.order();
    let mut workspace = Workspace::new(alloc, order)?;
    let mut found = Vec::new(alloc);
    while !seat.done() {
        if let Some(task) = board.claim(&mut seat) {
            gate.at_task(seat.number(), order, task);
            let point = &points[task as usize];
            let correction = obstruction_with(alloc, tables, point, &mut workspace)?;
            found.push((task, (*point, correction)))?;
        }
    }
    Ok(Kept::new(seat, found))
}
