// All readers of a session.

ghost use Rattle.std.specs.Prelude.{◌≡◌, ◌≤◌, ℕ, length, vec_len, All, IfOk};
ghost use Rattle.std.specs.List.{AllZip};
ghost use Rattle.limits.specs.Limits.{most_asks, most_readers};
ghost use Rattle.theta_algebra.specs.Answering.{IsQuery};
ghost use Rattle.session_readers.specs.Seats.{IsReadersSeat, AreNewSeats, IsContinued, IsFinished, IsInformed};

use crate::seat::{Seat, answer_rest, answer_up_to};
use diagram_reader::DiagramReader;
use order_epochs::{EpochReader, Epochs};
use outside_io::Gate;
use std::alloc::{AllocError, Global};
use std::thread;
use std::thread::Threads;
use theta_algebra::Query;

/// The readers with their numbers, each with room for the answers to so many asks.
pub(crate) fn seat_all(
    alloc: Global,
    readers: Vec<EpochReader>,
    asks: usize,
) -> Result<Vec<Seat>, AllocError>
    requires { vec_len readers ≤ most_readers }
    ensures { IfOk result (λ seats. AreNewSeats readers.items seats.items) }
{
    let mut seats = Vec::with_capacity(alloc, readers.len())?;
    let mut number = 0;
    for reader in readers {
        number += 1;
        seats.push(Seat {
            number,
            reader: DiagramReader::new(reader),
            answers: Vec::with_capacity(alloc, asks)?,
        })?;
    }
    Ok(seats)
}

/// Each reader learns of the newest order, of which it is told.
pub(crate) fn inform_all(
    alloc: Global,
    epochs: &Epochs,
    seats: Vec<Seat>,
) -> Result<Vec<Seat>, AllocError>
    requires { All (λ s. s.reader.lines ≡ epochs.now.lines) seats.items }
    ensures { IfOk result
        (λ informed. AllZip (IsInformed epochs.now.order) seats.items informed.items) }
{
    let mut informed = Vec::with_capacity(alloc, seats.len())?;
    for seat in seats {
        informed.push(seat.learn(epochs.told()))?;
    }
    Ok(informed)
}

/// Each reader answers its asks among the next ones, up to so many, as far as memory is found, in a thread of its
/// own where one can be started.
pub(crate) fn answer_all<R: Threads + Sync, G: Gate>(
    rt: &R,
    alloc: Global,
    seats: Vec<Seat>,
    asks: &[(u32, Query)],
    to: usize,
    gate: &G,
) -> Result<Vec<Seat>, AllocError>
    requires queries { All (λ a. IsQuery a.1) asks.now }
    requires few { length asks.now ≤ most_asks }
    requires within { to ≤ length asks.now }
    requires next { All (λ s. vec_len s.answers ≤ to) seats.items }
    requires seats { All (IsReadersSeat asks.now) seats.items }
    ensures { IfOk result
        (λ answered. AllZip (IsContinued asks.now to) seats.items answered.items) }
{
    thread::map_vec(
        rt,
        seats,
        &|seat| -> Seat
            requires queries { All (λ a. IsQuery a.1) asks.now }
            requires few { length asks.now ≤ most_asks }
            requires within { to ≤ length asks.now }
            requires next { vec_len seat.answers ≤ to }
            requires seat { IsReadersSeat asks.now seat }
            ensures { IsContinued asks.entry.now to seat result }
        { answer_up_to(alloc, seat, asks, to, gate) },
    )
}

/// One reader after another answers the rest of its asks.
fn finish_all<G: Gate>(
    alloc: Global,
    seats: Vec<Seat>,
    asks: &[(u32, Query)],
    gate: &G,
) -> Result<Vec<Seat>, AllocError>
    requires queries { All (λ a. IsQuery a.1) asks.now }
    requires few { length asks.now ≤ most_asks }
    requires next { All (λ s. vec_len s.answers ≤ length asks.now) seats.items }
    requires seats { All (IsReadersSeat asks.now) seats.items }
    ensures { IfOk result (λ finished. AllZip (IsFinished asks.now) seats.items finished.items) }
{
    let mut finished = Vec::with_capacity(alloc, seats.len())?;
    for seat in seats {
        finished.push(answer_rest(alloc, seat, asks, gate)?)?;
    }
    Ok(finished)
}

/// Each reader answers the rest of its asks, in a thread of its own where one can be started. An ask that a reader
/// found too little memory for is answered once more, and those after it are too, once the other readers have
/// ended.
pub(crate) fn answer_rest_of_all<R: Threads + Sync, G: Gate>(
    rt: &R,
    alloc: Global,
    seats: Vec<Seat>,
    asks: &[(u32, Query)],
    gate: &G,
) -> Result<Vec<Seat>, AllocError>
    requires queries { All (λ a. IsQuery a.1) asks.now }
    requires few { length asks.now ≤ most_asks }
    requires next { All (λ s. vec_len s.answers ≤ length asks.now) seats.items }
    requires seats { All (IsReadersSeat asks.now) seats.items }
    ensures { IfOk result (λ finished. AllZip (IsFinished asks.now) seats.items finished.items) }
{
    let answered = answer_all(rt, alloc, seats, asks, asks.len(), gate)?;
    finish_all(alloc, answered, asks, gate)
}
