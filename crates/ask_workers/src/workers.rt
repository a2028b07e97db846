// The workers of one run's asks.

ghost use Rattle.std.specs.Prelude.{◌≡◌, ◌≤◌, [], length, map, All, IfOk, Ok};
ghost use Rattle.std.specs.List.{AllZip};
ghost use Rattle.limits.specs.Limits.{most_asks, most_workers};
ghost use Rattle.scattering.specs.Wall.{walls};
ghost use Rattle.theta_algebra.specs.Answering.{IsQuery, IsAnswer, IsToldAnswer};
ghost use Rattle.joint_board.specs.Seen.{new_seat};
ghost use Rattle.ask_workers.specs.Answered.{AreAnswers, AreAnsweredBy};

use crate::one_ask::tell;
use crate::worker::{Place, answer_claimed};
use joint_board::{Board, BoardSeat, Kept};
use scatter_diagram::Diagram;
use std::alloc::{AllocError, Global};
use std::thread;
use std::thread::Threads;
use theta_algebra::{Answer, Query};

/// A place for each seat, with room for so many answers.
fn with_room(alloc: Global, seats: Vec<BoardSeat>, asks: usize) -> Result<Vec<Place>, AllocError>
    ensures seats { IfOk result (λ places. map (λ p. p.seat) places.items ≡ seats.items) }
    ensures room { IfOk result (λ places. All (λ p. p.answers.items ≡ []) places.items) }
{
    let mut places = Vec::with_capacity(alloc, seats.len())?;
    for seat in seats {
        let answers = Vec::with_capacity(alloc, asks)?;
        places.push(Place { seat, answers })?;
    }
    Ok(places)
}

/// What the worker of each place keeps, in the order of the places.
fn answered_by_all<R: Threads + Sync>(
    rt: &R,
    alloc: Global,
    board: &Board,
    places: Vec<Place>,
    e: &Diagram,
    asks: &[(u32, Query)],
) -> Result<Vec<Result<Kept<Answer>, AllocError>>, AllocError>
    requires queries { All (λ a. IsQuery a.1) asks.now }
    requires board { board.now.tasks ≡ length asks.now }
    requires seats { All (λ p. p.seat ≡ new_seat board.now p.seat.number) places.items }
    requires room { All (λ p. p.answers.items ≡ []) places.items }
    ensures { IfOk result (λ found. AllZip
        (λ p r. IfOk r (AreAnsweredBy (walls e.now.diagram) e.now.order asks.now p.seat))
        places.items found.items) }
{
    thread::map_vec(
        rt,
        places,
        &|place| -> Result<Kept<Answer>, AllocError>
            requires queries { All (λ a. IsQuery a.1) asks.now }
            requires board { board.now.tasks ≡ length asks.now }
            requires seat { place.seat ≡ new_seat board.now place.seat.number }
            requires room { place.answers.items ≡ [] }
            ensures { IfOk result (AreAnsweredBy (walls e.entry.now.diagram) e.entry.now.order
                asks.entry.now place.seat) }
        { answer_claimed(alloc, board, place, e, asks) },
    )
}

/// What the workers kept, where none of them failed.
fn all_kept(
    alloc: Global,
    found: Vec<Result<Kept<Answer>, AllocError>>,
) -> Result<Vec<Kept<Answer>>, AllocError>
    ensures { IfOk result (λ kept. map Ok kept.items ≡ found.items) }
{
    let mut kept = Vec::with_capacity(alloc, found.len())?;
    for one in found {
        kept.push(one?)?;
    }
    Ok(kept)
}

/// The answers by so many workers, want of memory among them.
fn answers_by_all<R: Threads + Sync>(
    rt: &R,
    alloc: Global,
    e: &Diagram,
    asks: &[(u32, Query)],
    workers: u32,
) -> Result<Vec<Answer>, AllocError>
    requires queries { All (λ a. IsQuery a.1) asks.now }
    requires few_asks { length asks.now ≤ most_asks }
    requires some { 1 ≤ workers }
    requires few { workers ≤ most_workers }
    ensures { IfOk result
        (λ v. AreAnswers (walls e.now.diagram) e.now.order asks.now v.items) }
{
    let (board, seats) = Board::begin(alloc, asks.len() as u64, workers)?;
    let places = with_room(alloc, seats, asks.len())?;
    let found = answered_by_all(rt, alloc, &board, places, e, asks)?;
    let kept = all_kept(alloc, found)?;
    board.gather(kept)
}

/// The answers to these asks in a diagram, in their order, by so many workers, from 1 to 16. Each claims one ask
/// after another. Where no thread can be started, the caller's computes.
///
/// Want of memory is no answer: an ask that a worker found too little memory for is answered once more, alone, once
/// the workers have ended; where that fails too, so does the call.
pub fn answer_all<R: Threads + Sync>(
    rt: &R,
    alloc: Global,
    e: &Diagram,
    asks: &[(u32, Query)],
    workers: u32,
) -> Result<Vec<Answer>, AllocError>
    requires queries { All (λ a. IsQuery a.1) asks.now }
    requires few_asks { length asks.now ≤ most_asks }
    requires some { 1 ≤ workers }
    requires few { workers ≤ most_workers }
    ensures answers { IfOk result (λ v.
        AllZip (λ a x. IsAnswer (walls e.now.diagram) e.now.order a.1 x) asks.now v.items) }
    ensures told { IfOk result (λ v. All IsToldAnswer v.items) }
{
    let mut answers = answers_by_all(rt, alloc, e, asks, workers)?;
    for (i, ask) in asks.iter().enumerate() {
        tell(alloc, e, &ask.1, &mut answers[i])?;
    }
    Ok(answers)
}
