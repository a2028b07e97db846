// Lists of events.

ghost use Rattle.std.specs.Prelude.{◌≡◌, [], ◌∷◌, ◌++◌, length, All, IsTrue, MatchResult};
ghost use Rattle.order_machine.specs.History.{IsNamed};
ghost use Rattle.order_machine.specs.Steps.{AreOfOneSize, IsRun, IsHalted};

use crate::{Event, MachineFault, Reply, State};

/// Notes one more reply; false where memory runs out.
fn is_noted(replies: &mut Vec<Reply>, reply: Reply) -> bool
    ensures { IsTrue result → replies.new.items ≡ replies.old.items ++ reply ∷ [] }
{
    replies.push(reply).is_ok()
}

/// Does one event after the other. `NotEnabled` names the first one whose condition fails, by its place in the list from 0;
/// the state is then that after the events before it. Where memory runs out it is that after some of them.
pub fn run(state: &mut State, events: &[Event]) -> Result<Vec<Reply>, MachineFault>
    requires named { All (λ e. IsNamed state.old.workers (length state.old.readers) e) events.now }
    ensures sizes { AreOfOneSize state.old state.new }
    ensures run { MatchResult result
        (λ r. IsRun state.old events.now r.items state.new)
        (λ f. IsHalted state.old events.now f state.new) }
{
    let mut replies = state.no_replies();
    for place in 0..events.len() {
        match state.step(&events[place]) {
            Ok(reply) => {
                if !is_noted(&mut replies, reply) {
                    return Err(MachineFault::Memory);
                }
            }
            Err(MachineFault::NotEnabled { .. }) => return Err(MachineFault::NotEnabled { place }),
            Err(MachineFault::Memory) => return Err(MachineFault::Memory),
        }
    }
    Ok(replies)
}
