// Completion to an order, or to the last one before a stop.

ghost use Rattle.std.specs.Prelude.{◌≡◌, ◌≤◌, IfOk};
ghost use Rattle.limits.specs.Limits.{highest_order};
ghost use Rattle.scatter_step.specs.Orders.{IsOutcome};

use crate::Completed;
use scatter_diagram::{Initial, Stop, StopCause};
use std::alloc::{AllocError, Global};

/// The last completion, and at which order and by what the one after is stopped.
#[derive(Drop)]
pub struct Outcome {
    pub last: Completed,
    pub stop: Option<(u32, StopCause)>,
}

impl Outcome {
    pub fn copy(&self) -> Result<Outcome, AllocError>
        ensures { IfOk result (λ o. o ≡ self.now) }
    {
        Ok(Outcome {
            last: self.last.copy()?,
            stop: self.stop,
        })
    }
}

/// The completion of the lines at `order`, or at the order before the first that is stopped. It is the
/// only one of its order.
pub fn complete_plain(alloc: Global, initial: &Initial, order: u32) -> Result<Outcome, AllocError>
    requires { order ≤ highest_order }
    ensures { IfOk result (λ o. IsOutcome initial.now order o) }
{
    let mut last = Completed::start(alloc, initial)?;
    for _ in 0..order {
        match last.next_order() {
            Ok(next) => last = next,
            Err(Stop::At { order, cause }) => {
                return Ok(Outcome {
                    last,
                    stop: Some((order, cause)),
                });
            }
            Err(Stop::Memory) => return Err(AllocError),
        }
    }
    Ok(Outcome { last, stop: None })
}
