// The workers of one order.

ghost use Rattle.std.specs.Prelude.{◌≡◌, ◌+◌, ◌<◌, ◌≤◌, ℕ, ◌⊎◌, length, map, All, Contains, Ok, Err, IfOk, IfErr};
ghost use Rattle.limits.specs.Limits.{highest_order, most_workers};
ghost use Rattle.scattering.specs.Wall.{walls};
ghost use Rattle.scattering.specs.Completion.{IsConsistent};
ghost use Rattle.scatter_step.specs.Orders.{AreTasks, AreCorrectionsAt, IsStoppedByPoint};
ghost use Rattle.scatter_diagram.specs.declared.stop.Stop.TheVariants.{Memory};
ghost use Rattle.order_machine.specs.History.{tasks_end};
ghost use Rattle.joint_board.specs.Seen.{new_seat};
ghost use Rattle.joint_workers.specs.Tasks.{diagram_of, AreAllFound, IsFoundBy};

use crate::worker::correct_claimed;
use joint_board::{Board, BoardSeat, Kept};
use local_product::{LocalTables, tables_of};
use outside_io::Gate;
use plane_geom::Point;
use scatter_diagram::Stop;
use scatter_step::Completed;
use std::alloc::{AllocError, Global};
use std::thread;
use std::thread::Threads;
use vertex_lie::LieElement;

/// What the worker of each seat finds, in the order of the seats.
fn found_by_all<R: Threads + Sync, G: Gate>(
    rt: &R,
    alloc: Global,
    board: &Board,
    seats: Vec<BoardSeat>,
    tables: &LocalTables<'_>,
    points: &[Point],
    gate: &G,
) -> Result<Vec<Result<Kept<(Point, LieElement)>, Stop>>, AllocError>
    requires some { 1 ≤ tables.now.order }
    requires consistent { (n : ℕ) → n + 1 ≡ tables.now.order →
        IsConsistent n (walls tables.now.diagram.diagram) }
    requires board { board.now.tasks ≡ length points.now }
    requires seats { All (λ s. s ≡ new_seat board.now s.number) seats.items }
    ensures { IfOk result (λ found. AreAllFound tables.now.diagram tables.now.order points.now
        seats.items found.items) }
{
    thread::map_vec(
        rt,
        seats,
        &|seat| -> Result<Kept<(Point, LieElement)>, Stop>
            requires some { 1 ≤ tables.now.order }
            requires consistent { (n : ℕ) → n + 1 ≡ tables.now.order →
                IsConsistent n (walls tables.now.diagram.diagram) }
            requires board { board.now.tasks ≡ length points.now }
            requires seat { seat ≡ new_seat board.now seat.number }
            ensures { IsFoundBy tables.entry.now.diagram tables.entry.now.order points.entry.now
                seat result }
        { correct_claimed(alloc, board, seat, tables, points, gate) },
    )
}

/// What the workers kept, or what stopped the first of those that were stopped.
fn all_kept(
    alloc: Global,
    found: Vec<Result<Kept<(Point, LieElement)>, Stop>>,
) -> Result<Vec<Kept<(Point, LieElement)>>, Stop>
    ensures kept { IfOk result (λ kept. map Ok kept.items ≡ found.items) }
    ensures stop { IfErr result (λ s. (s ≡ Memory) ⊎ Contains found.items (Err s)) }
{
    let mut kept = Vec::with_capacity(alloc, found.len())?;
    for one in found {
        kept.push(one?)?;
    }
    Ok(kept)
}

/// Each point with its correction of the tables' order, computed by so many workers from tables that all share.
fn correct_with<R: Threads + Sync, G: Gate>(
    rt: &R,
    alloc: Global,
    tables: &LocalTables<'_>,
    points: &[Point],
    workers: u32,
    gate: &G,
) -> Result<Vec<(Point, LieElement)>, Stop>
    requires order { 1 ≤ tables.now.order }
    requires consistent { (n : ℕ) → n + 1 ≡ tables.now.order →
        IsConsistent n (walls tables.now.diagram.diagram) }
    requires points { length points.now < tasks_end }
    requires some { 1 ≤ workers }
    requires few { workers ≤ most_workers }
    ensures corrections { IfOk result
        (λ cs. AreCorrectionsAt tables.now.diagram tables.now.order points.now cs.items) }
    ensures stop { IfErr result
        (IsStoppedByPoint tables.now.diagram tables.now.order points.now) }
{
    let (board, seats) = Board::begin(alloc, points.len() as u64, workers)?;
    let found = found_by_all(rt, alloc, &board, seats, tables, points, gate)?;
    let kept = all_kept(alloc, found)?;
    Ok(board.gather(kept)?)
}

/// Each active point of the next order with its correction, in the order of the points, computed by so many
/// workers, from 1 to 16. Each claims one task after another, task i at `points[i]`, and tells the gate of it
/// before it begins. Where no thread can be started, the caller's computes.
///
/// The stop is `WeightTooLarge` only where a point has a weight above 2^126.
pub fn correct_all<R: Threads + Sync, G: Gate>(
    rt: &R,
    alloc: Global,
    done: &Completed,
    points: &[Point],
    workers: u32,
    gate: &G,
) -> Result<Vec<(Point, LieElement)>, Stop>
    requires order { done.now.order < highest_order }
    requires some { 1 ≤ workers }
    requires few { workers ≤ most_workers }
    requires points { AreTasks done.now points.now }
    ensures corrections { IfOk result
        (λ cs. AreCorrectionsAt (diagram_of done.now) (done.now.order + 1) points.now cs.items) }
    ensures stop { IfErr result
        (IsStoppedByPoint (diagram_of done.now) (done.now.order + 1) points.now) }
{
    let tables = tables_of(alloc, done.diagram(), done.order() + 1)?;
    correct_with(rt, alloc, &tables, points, workers, gate)
}
