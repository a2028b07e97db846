// The writer of a session: it publishes one order after another.

ghost use Rattle.std.specs.Prelude.{◌≡◌, ◌+◌, ◌<◌, ◌≤◌, None, IfOk, IfErr, IfSome, IsSome, IsSomeAnd, MatchResult};
ghost use Rattle.limits.specs.Limits.{highest_order, most_workers};
ghost use Rattle.scattering.specs.Stops.{IsStopAt};
ghost use Rattle.scatter_step.specs.Completed.{IsCompleted};
ghost use Rattle.scatter_step.specs.Orders.{IsNextCompletion, IsStoppedAfter, IsOutcome};
ghost use Rattle.order_epochs.specs.Seen.{epoch_of};
ghost use Rattle.session_readers.specs.Published.{IsStopAfter};

use joint_workers::next_by_workers;
use order_epochs::Epochs;
use outside_io::Gate;
use scatter_diagram::Stop;
use scatter_step::{Completed, Outcome};
use std::alloc::{AllocError, Global};
use std::sync::Wait;
use std::thread::Threads;

/// Computes the next order by so many workers and publishes it, or tells what stops it. Nothing of an order is
/// published where memory is refused.
fn publish_next<R: Threads + Wait + Sync, G: Gate>(
    rt: &R,
    alloc: Global,
    epochs: Epochs,
    last: &Completed,
    workers: u32,
    gate: &G,
) -> (Epochs, Result<Completed, Stop>)
    requires store { epochs ≡ epoch_of last.now }
    requires order { last.now.order < highest_order }
    requires some { 1 ≤ workers }
    requires few { workers ≤ most_workers }
    ensures store { MatchResult result.1 (λ c. result.0 ≡ epoch_of c) (λ _. result.0 ≡ epochs) }
    ensures next { IfOk result.1 (λ c. IsNextCompletion last.now c × IsCompleted c
        × IsStopAt last.now.initial.lines (last.now.order + 1) None) }
    ensures stop { IfErr result.1 (IsStoppedAfter last.now) }
{
    let next = match next_by_workers(rt, alloc, last, workers, gate) {
        Ok(next) => next,
        Err(stop) => return (epochs, Err(stop)),
    };
    let Ok(copy) = next.copy() else {
        return (epochs, Err(Stop::Memory));
    };
    let (epochs, told) = epochs.publish(rt, copy);
    match told {
        Ok(_) => (epochs, Ok(next)),
        Err(_) => (epochs, Err(Stop::Memory)),
    }
}

/// The last order with what stops the one after.
fn stopped_at(last: Completed, stop: Stop) -> Result<Outcome, AllocError>
    requires { IsStoppedAfter last stop }
    ensures last { IfOk result (λ o. o.last ≡ last) }
    ensures stop { IfOk result (λ o. IsSomeAnd o.stop (IsStopAfter last)) }
{
    match stop {
        Stop::Memory => Err(AllocError),
        Stop::At { order, cause } => Ok(Outcome {
            last,
            stop: Some((order, cause)),
        }),
    }
}

/// Publishes the orders up to `order`, or up to the first that is stopped, in a store that has order 0.
fn publish_orders<R: Threads + Wait + Sync, G: Gate>(
    rt: &R,
    alloc: Global,
    mut epochs: Epochs,
    first: Completed,
    order: u32,
    workers: u32,
    gate: &G,
) -> (Epochs, Result<Outcome, AllocError>)
    requires store { epochs ≡ epoch_of first }
    requires first { (first.order ≡ 0) × IsCompleted first }
    requires order { order ≤ highest_order }
    requires some { 1 ≤ workers }
    requires few { workers ≤ most_workers }
    ensures { IfOk result.1
        (λ o. (result.0 ≡ epoch_of o.last) × IsOutcome first.initial order o) }
{
    let mut last = first;
    for _ in 0..order {
        let (newer, next) = publish_next(rt, alloc, epochs, &last, workers, gate);
        epochs = newer;
        match next {
            Ok(next) => last = next,
            Err(stop) => return (epochs, stopped_at(last, stop)),
        }
    }
    (epochs, Ok(Outcome { last, stop: None }))
}

/// Takes the store off the desk and publishes the orders in it. A closure can't hold a store, since it isn't
/// `Drop`.
pub(crate) fn publish_from<R: Threads + Wait + Sync, G: Gate>(
    rt: &R,
    alloc: Global,
    desk: &mut Option<Epochs>,
    first: Completed,
    order: u32,
    workers: u32,
    gate: &G,
) -> Option<(Epochs, Result<Outcome, AllocError>)>
    requires store { IfSome desk.old (λ e. e ≡ epoch_of first) }
    requires first { (first.order ≡ 0) × IsCompleted first }
    requires order { order ≤ highest_order }
    requires some { 1 ≤ workers }
    requires few { workers ≤ most_workers }
    ensures taken { IsSome desk.old → IsSome result }
    ensures published { IfSome result (λ r. IfOk r.1
        (λ o. (r.0 ≡ epoch_of o.last) × IsOutcome first.initial order o)) }
{
    match desk.take() {
        None => None,
        Some(epochs) => Some(publish_orders(rt, alloc, epochs, first, order, workers, gate)),
    }
}
