// The answers of all readers, put together.

ghost use Rattle.std.specs.Prelude.{◌≡◌, ◌+◌, ◌<◌, ◌≤◌, ℕ, min, length, vec_len, slice_get, All, Some, IfOk};
ghost use Rattle.theta_algebra.specs.Answering.{IsQuery, IsToldAnswer};
ghost use Rattle.diagram_reader.specs.Asked.{IsAnswerAmong};
ghost use Rattle.session_readers.specs.Seats.{AreFullSeats};
ghost use Rattle.session_readers.specs.Gathered.{IsSameFrom, AreSameFrom, AreGathered};
ghost use Rattle.session_readers.specs.declared.seat.Seat.{Seat as SeenSeat};

use crate::seat::{Seat, is_memory};
use scatter_step::Completed;
use std::alloc::{AllocError, Global};
use theta_algebra::{Answer, Query, answer};

/// Takes the answer out of a place.
fn take_from(seat: &mut Seat, i: usize) -> Option<Answer>
    requires { i < vec_len seat.old.answers }
    ensures place { slice_get seat.old.answers.items i ≡ Some result }
    ensures others { IsSameFrom (i + 1) seat.old seat.new }
{
    seat.answers[i].take()
}

/// Takes a reader's answer out of its place.
fn take_answer(seats: &mut Vec<Seat>, reader: usize, i: usize) -> Option<Answer>
    requires reader { reader < vec_len seats.old }
    requires place { All (λ s. i < vec_len s.answers) seats.old.items }
    ensures place { (s : SeenSeat) → slice_get seats.old.items reader ≡ Some s
        → slice_get s.answers.items i ≡ Some result }
    ensures others { AreSameFrom (i + 1) seats.old.items seats.new.items }
{
    take_from(&mut seats[reader], i)
}

/// The answer, where its order isn't after the last one, and else the answer in the last one.
fn answer_by(
    alloc: Global,
    last: &Completed,
    query: &Query,
    found: Answer,
) -> Result<Answer, AllocError>
    requires query { IsQuery query.now }
    requires answer { IsAnswerAmong last.now.initial query.now found }
    requires told { IsToldAnswer found }
    ensures order { IfOk result (λ a. a.order ≡ min found.order last.now.order) }
    ensures answer { IfOk result (IsAnswerAmong last.now.initial query.now) }
    ensures told { IfOk result IsToldAnswer }
{
    if found.order <= last.order() {
        return Ok(found);
    }
    let again = answer(alloc, last.diagram(), query);
    if is_memory(&again) {
        return Err(AllocError);
    }
    Ok(again)
}

/// The answers to all asks, in their order, none of them in a later order than the last one.
pub(crate) fn gather(
    alloc: Global,
    last: &Completed,
    asks: &[(u32, Query)],
    mut seats: Vec<Seat>,
) -> Result<Vec<Answer>, AllocError>
    requires queries { All (λ a. IsQuery a.1) asks.now }
    requires numbers { All (λ a. (1 ≤ a.0) × (a.0 ≤ vec_len seats)) asks.now }
    requires seats { AreFullSeats last.now.initial asks.now (vec_len seats) seats.items }
    ensures length { IfOk result (λ v. vec_len v ≡ length asks.now) }
    ensures answers { IfOk result
        (λ v. AreGathered last.now.initial last.now.order seats.items asks.now v.items) }
{
    let mut answers = Vec::with_capacity(alloc, asks.len())?;
    for i in 0..asks.len() {
        let ask = &asks[i];
        let Some(found) = take_answer(&mut seats, ask.0 as usize - 1, i) else {
            unreachable!()
        };
        answers.push(answer_by(alloc, last, &ask.1, found)?)?;
    }
    Ok(answers)
}
