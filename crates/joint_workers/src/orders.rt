// Completion order by order, by workers.

ghost use Rattle.std.specs.Prelude.{◌≡◌, ◌+◌, ◌<◌, ◌≤◌, None, IfOk, IfErr};
ghost use Rattle.limits.specs.Limits.{highest_order, most_workers};
ghost use Rattle.scattering.specs.Stops.{IsStopAt};
ghost use Rattle.scatter_step.specs.Completed.{IsCompleted};
ghost use Rattle.scatter_step.specs.Orders.{IsNextCompletion, IsStoppedAfter, IsOutcome};

use crate::correct_all;
use outside_io::Gate;
use scatter_diagram::{Initial, Stop};
use scatter_step::{Completed, Outcome};
use std::alloc::{AllocError, Global};
use std::thread::Threads;

/// The completion of the lines at `order`, or at the order before the first that is stopped, by so many
/// workers, from 1 to 16. It is the only one of its order, so the number of workers doesn't count.
pub fn complete_by_workers<R: Threads + Sync, G: Gate>(
    rt: &R,
    alloc: Global,
    initial: &Initial,
    order: u32,
    workers: u32,
    gate: &G,
) -> Result<Outcome, AllocError>
    requires order { order ≤ highest_order }
    requires some { 1 ≤ workers }
    requires few { workers ≤ most_workers }
    ensures { IfOk result (λ o. IsOutcome initial.now order o) }
{
    let mut last = Completed::start(alloc, initial)?;
    for _ in 0..order {
        match next_by_workers(rt, alloc, &last, workers, gate) {
            Ok(next) => last = next,
            Err(Stop::Memory) => return Err(AllocError),
            Err(Stop::At { order, cause }) => {
                let stop = Some((order, cause));
                return Ok(Outcome { last, stop });
            }
        }
    }
    Ok(Outcome { last, stop: None })
}

/// The completion of the next order, whose points are corrected by so many workers, from 1 to 16, or the first
/// cause that stops it: an active point with a number above 2^40, then one of a weight above 2^126, then more
/// than 8192 walls.
pub fn next_by_workers<R: Threads + Sync, G: Gate>(
    rt: &R,
    alloc: Global,
    done: &Completed,
    workers: u32,
    gate: &G,
) -> Result<Completed, Stop>
    requires order { done.now.order < highest_order }
    requires some { 1 ≤ workers }
    requires few { workers ≤ most_workers }
    ensures next { IfOk result (λ c. IsNextCompletion done.now c × IsCompleted c) }
    ensures free { IfOk result (λ c. IsStopAt done.now.initial.lines (done.now.order + 1) None) }
    ensures stop { IfErr result (IsStoppedAfter done.now) }
{
    let _ = done.order(); // tells that it is a completion
    let points = done.tasks_by_workers(rt, workers)?;
    let corrections = correct_all(rt, alloc, done, points.as_slice(), workers, gate)?;
    done.advance(corrections.as_slice())
}
