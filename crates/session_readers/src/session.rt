// A session, from the first order to the last answer.

ghost use Rattle.std.specs.Prelude.{◌≡◌, ◌≤◌, length, replicate, vec_len, All, IfOk, IfSome, Ok};
ghost use Rattle.std.specs.List.{AllZip};
ghost use Rattle.std.specs.Option.{ForSome};
ghost use Rattle.limits.specs.Limits.{highest_order, most_asks, most_readers, most_workers};
ghost use Rattle.scatter_step.specs.Completed.{IsCompleted};
ghost use Rattle.scatter_step.specs.Orders.{IsOutcome};
ghost use Rattle.order_epochs.specs.Seen.{epoch_of};
ghost use Rattle.theta_algebra.specs.Answering.{IsQuery};
ghost use Rattle.session_readers.specs.Session.{IsSession};
ghost use Rattle.session_readers.specs.Seats.{IsReadersSeat, IsContinued, AreNewSeats, IsSettledSeat};

use crate::beside::run_beside;
use crate::gathering::gather;
use crate::readers::{answer_all, answer_rest_of_all, inform_all, seat_all};
use crate::seat::Seat;
use crate::writer::publish_from;
use order_epochs::Epochs;
use outside_io::Gate;
use scatter_diagram::{Initial, StopCause};
use scatter_step::{Completed, Outcome};
use std::alloc::{AllocError, Global};
use std::sync::Wait;
use std::thread::Threads;
use theta_algebra::{Answer, Query};

/// The answers to all asks, in the order of these, the last order that was published, and at which order and by
/// what the one after is stopped.
#[derive(Drop)]
pub struct Session {
    pub answers: Vec<Answer>,
    pub published: u32,
    pub stop: Option<(u32, StopCause)>,
}

/// Answers asks by so many readers, from 1 to 8, while so many workers, from 1 to 16, compute the orders up to
/// `order`, or up to the first that is stopped. Each ask has the number of its reader, from 1. `settle` is the
/// number of asks after which the others wait for the last order, where some do.
///
/// Order 0 is published before anything is asked. While the others are computed, each reader answers its asks
/// before `settle`, in their order, each in the order that is published last, and tells the gate before it does.
/// When the last order is published and these are answered, each reader learns of it and answers the rest.
/// Readers run in threads of their own where these can be started, else one after another.
///
/// Want of memory is no answer: a reader that finds too little memory for an ask answers it, and its others, after
/// the last order is published, and once more, alone, once the readers have ended; where that fails too, so does
/// the session. It may wait for readers that are just taking an order.
pub fn hold_session<R: Threads + Wait + Sync, G: Gate>(
    rt: &R,
    alloc: Global,
    initial: &Initial,
    order: u32,
    workers: u32,
    readers: u32,
    asks: &[(u32, Query)],
    settle: Option<usize>,
    gate: &G,
) -> Result<Session, AllocError>
    requires order { order ≤ highest_order }
    requires some_workers { 1 ≤ workers }
    requires few_workers { workers ≤ most_workers }
    requires some_readers { 1 ≤ readers }
    requires few_readers { readers ≤ most_readers }
    requires queries { All (λ a. IsQuery a.1) asks.now }
    requires numbers { All (λ a. (1 ≤ a.0) × (a.0 ≤ readers)) asks.now }
    requires few_asks { length asks.now ≤ most_asks }
    requires settle { ForSome settle (λ n. n ≤ length asks.now) }
    ensures { IfOk result (λ s. IsSession initial.now order asks.now settle s) }
{
    let first = Completed::start(alloc, initial)?;
    let copy = first.copy()?;
    let (epochs, seats) = open_store(rt, alloc, copy, readers, asks.len())?;
    let before = settle.unwrap_or(asks.len());
    let (epochs, outcome, seats) = answer_beside(
        rt, alloc, epochs, first, order, workers, seats, asks, before, gate,
    )?;
    let seats = answer_settled(rt, alloc, epochs, seats, asks, gate)?;
    let answers = gather(alloc, &outcome.last, asks, seats)?;
    Ok(Session {
        answers,
        published: outcome.last.order(),
        stop: outcome.stop,
    })
}

/// A store that has the first order, with the seats of all readers.
fn open_store<R: Wait>(
    rt: &R,
    alloc: Global,
    first: Completed,
    readers: u32,
    asks: usize,
) -> Result<(Epochs, Vec<Seat>), AllocError>
    requires { readers ≤ most_readers }
    ensures store { IfOk result (λ r. r.0 ≡ epoch_of first) }
    ensures seats { IfOk result
        (λ r. AreNewSeats (replicate readers (epoch_of first)) r.1.items) }
{
    let (epochs, seated) = Epochs::begin(rt, alloc, first, readers)?;
    match seat_all(alloc, seated, asks) {
        Ok(seats) => Ok((epochs, seats)),
        Err(error) => {
            epochs.end(rt);
            Err(error)
        }
    }
}

/// The orders are published while the readers answer their asks among the first ones, up to so many. Where memory
/// is refused the store is ended.
fn answer_beside<R: Threads + Wait + Sync, G: Gate>(
    rt: &R,
    alloc: Global,
    epochs: Epochs,
    first: Completed,
    order: u32,
    workers: u32,
    seats: Vec<Seat>,
    asks: &[(u32, Query)],
    to: usize,
    gate: &G,
) -> Result<(Epochs, Outcome, Vec<Seat>), AllocError>
    requires store { epochs ≡ epoch_of first }
    requires first { (first.order ≡ 0) × IsCompleted first }
    requires order { order ≤ highest_order }
    requires some { 1 ≤ workers }
    requires few { workers ≤ most_workers }
    requires queries { All (λ a. IsQuery a.1) asks.now }
    requires few_asks { length asks.now ≤ most_asks }
    requires within { to ≤ length asks.now }
    requires next { All (λ s. vec_len s.answers ≤ to) seats.items }
    requires seats { All (IsReadersSeat asks.now) seats.items }
    ensures store { IfOk result (λ r. r.0 ≡ epoch_of r.1.last) }
    ensures outcome { IfOk result (λ r. IsOutcome first.initial order r.1) }
    ensures seats { IfOk result (λ r. AllZip (IsContinued asks.now to) seats.items r.2.items) }
{
    let mut desk = Some(epochs);
    let place = &mut desk;
    let (answered, published) = run_beside(
        rt,
        seats,
        |seats| -> Result<Vec<Seat>, AllocError>
            requires queries { All (λ a. IsQuery a.1) asks.now }
            requires few_asks { length asks.now ≤ most_asks }
            requires within { to ≤ length asks.now }
            requires next { All (λ s. vec_len s.answers ≤ to) seats.items }
            requires seats { All (IsReadersSeat asks.now) seats.items }
            ensures { IfOk result (λ v. AllZip (IsContinued asks.entry.now to) seats.items
                v.items) }
        { answer_all(rt, alloc, seats, asks, to, gate) },
        || -> Option<(Epochs, Result<Outcome, AllocError>)>
            requires store { IfSome place.now (λ e. e ≡ epoch_of first) }
            requires first { (first.order ≡ 0) × IsCompleted first }
            requires order { order ≤ highest_order }
            requires some { 1 ≤ workers }
            requires few { workers ≤ most_workers }
            ensures { IfSome result (λ r. IfOk r.1
                (λ o. (r.0 ≡ epoch_of o.last) × IsOutcome first.initial order o)) }
        { publish_from(rt, alloc, place, first, order, workers, gate) },
    );
    if let Some(epochs) = desk {
        epochs.end(rt);
    }
    let Some((epochs, published)) = published else {
        return Err(AllocError);
    };
    both_ended(rt, epochs, published, answered)
}

/// What the writer and the readers found. Where either was refused memory the store is ended.
fn both_ended<R: Wait>(
    rt: &R,
    epochs: Epochs,
    published: Result<Outcome, AllocError>,
    answered: Result<Vec<Seat>, AllocError>,
) -> Result<(Epochs, Outcome, Vec<Seat>), AllocError>
    ensures store { IfOk result (λ r. r.0 ≡ epochs) }
    ensures outcome { IfOk result (λ r. published ≡ Ok r.1) }
    ensures seats { IfOk result (λ r. answered ≡ Ok r.2) }
{
    let Ok(outcome) = published else {
        epochs.end(rt);
        return Err(AllocError);
    };
    let Ok(seats) = answered else {
        epochs.end(rt);
        return Err(AllocError);
    };
    Ok((epochs, outcome, seats))
}

/// Each reader learns of the last order and answers the rest of its asks. The store is ended.
fn answer_settled<R: Threads + Wait + Sync, G: Gate>(
    rt: &R,
    alloc: Global,
    epochs: Epochs,
    seats: Vec<Seat>,
    asks: &[(u32, Query)],
    gate: &G,
) -> Result<Vec<Seat>, AllocError>
    requires queries { All (λ a. IsQuery a.1) asks.now }
    requires few_asks { length asks.now ≤ most_asks }
    requires lines { All (λ s. s.reader.lines ≡ epochs.lines) seats.items }
    requires next { All (λ s. vec_len s.answers ≤ length asks.now) seats.items }
    requires seats { All (IsReadersSeat asks.now) seats.items }
    ensures { IfOk result (λ v. AllZip (IsSettledSeat asks.now epochs.order) seats.items
        v.items) }
{
    let answered = match inform_all(alloc, &epochs, seats) {
        Ok(informed) => answer_rest_of_all(rt, alloc, informed, asks, gate),
        Err(error) => Err(error),
    };
    epochs.end(rt);
    answered
}
