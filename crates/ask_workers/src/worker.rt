// One worker: it claims asks until none is left.

ghost use Rattle.std.specs.Prelude.{◌≡◌, [], length, All, IfOk};
ghost use Rattle.scattering.specs.Wall.{walls};
ghost use Rattle.theta_algebra.specs.Answering.{IsQuery};
ghost use Rattle.joint_board.specs.Seen.{new_seat};
ghost use Rattle.ask_workers.specs.Answered.{AreAnsweredBy};

use crate::one_ask::answer_by;
use joint_board::{Board, BoardSeat, Kept};
use scatter_diagram::Diagram;
use std::alloc::{AllocError, Global};
use theta_algebra::{Answer, Query, Tracers};

/// A worker's seat, and the room for its numbered answers. The room is made before any worker begins, when no
/// other takes memory.
#[derive(Drop)]
pub(crate) struct Place {
    pub(crate) seat: BoardSeat,
    pub(crate) answers: Vec<(u64, Answer)>,
}

/// What the worker of a seat keeps: the answer to each ask that it claims, want of memory too. What it finds of the
/// walls for one ask serves those that it claims later.
pub(crate) fn answer_claimed(
    alloc: Global,
    board: &Board,
    place: Place,
    e: &Diagram,
    asks: &[(u32, Query)],
) -> Result<Kept<Answer>, AllocError>
    requires queries { All (λ a. IsQuery a.1) asks.now }
    requires board { board.now.tasks ≡ length asks.now }
    requires seat { place.seat ≡ new_seat board.now place.seat.number }
    requires room { place.answers.items ≡ [] }
    ensures { IfOk result
        (AreAnsweredBy (walls e.now.diagram) e.now.order asks.now place.seat) }
{
    let Place {
        mut seat,
        mut answers,
    } = place;
    let mut tracers = Tracers::new(alloc, e);
    while !seat.done() {
        if let Some(task) = board.claim(&mut seat) {
            let ask = &asks[task as usize];
            let found = answer_by(&mut tracers, alloc, e, &ask.1);
            answers.push((task, found))?;
        }
    }
    Ok(Kept::new(seat, answers))
}
