// Results, put into the slots of their tasks while the seats are joined.

ghost use Rattle.std.specs.Prelude.{◌≡◌, ◌<◌, ◌≤◌, ◌++◌, ℕ, [], All, length, map, replicate, IfOk, None, Some, IsSome};
ghost use Rattle.joint_board.specs.Seen.{numbers_of, results_of, tasks_drawn};
ghost use Rattle.joint_board.specs.Rule.{IsViewAt, shown_board, times_in};
ghost use Rattle.joint_board.specs.Gathering.{placed, drawn_of, IsWhole, AreSeatsFrom, HasJoined};

use crate::Kept;
use crate::steps::{Tally, join, settle};
use crate::view::View;
use atomic_table::Seat;
use std::alloc::{AllocError, Global};
use std::collections::VecDeque;

/// A slot for the result of each task.
pub(crate) fn no_results<T: Drop>(alloc: Global, tasks: u64) -> Result<Vec<Option<T>>, AllocError>
    ensures { IfOk result (λ slots. slots.items ≡ replicate tasks None) }
{
    let mut slots = Vec::with_capacity(alloc, tasks as usize)?;
    for _ in 0..tasks {
        slots.push(None)?;
    }
    Ok(slots)
}

fn place<T: Drop>(results: Vec<(u64, T)>, slots: &mut Vec<Option<T>>)
    requires { All (λ x. x < length slots.old.items) (numbers_of results.items) }
    ensures { slots.new.items ≡ placed results.items slots.old.items }
{
    for (number, result) in results {
        slots[number as usize] = Some(result);
    }
}

/// Joins the other seats, which are done, into the first one.
fn join_all<T: Drop>(
    table: &Tally,
    first: &mut Seat<(), View>,
    mut others: VecDeque<Kept<T>>,
    slots: &mut Vec<Option<T>>,
)
    requires table { IsViewAt table.now.shared.table_id first.old.table_id first.old.me }
    requires first { HasJoined (shown_board table.now.shared.table_id table.now.shared.key) 1
        first.old.me.0 }
    requires others { AreSeatsFrom (shown_board table.now.shared.table_id table.now.shared.key) 1
        others.items }
    requires slots { length slots.old.items ≡ table.now.shared.key.tasks }
    ensures table { IsViewAt table.now.shared.table_id first.new.table_id first.new.me }
    ensures joined { HasJoined (shown_board table.now.shared.table_id table.now.shared.key)
        table.now.shared.key.workers first.new.me.0 }
    ensures drawn { first.new.me.0.drawn ≡ first.old.me.0.drawn ++ drawn_of others.items }
    ensures whole { All IsWhole others.items }
    ensures slots { slots.new.items ≡ placed (results_of others.items) slots.old.items }
{
    while let Some(other) = others.pop_front() {
        let (seat, results) = other.into_parts();
        place(results, slots);
        join(table, first, seat.into_seat());
    }
}

/// Puts all results into the slots of their tasks, and joins all seats, which shows that each task was
/// drawn once.
pub(crate) fn place_all<T: Drop>(
    table: &Tally,
    kept: Vec<Kept<T>>,
    mut slots: Vec<Option<T>>,
) -> Vec<Option<T>>
    requires table { table.now.shared.table_id.words ≡ 1 }
    requires some { 1 ≤ table.now.shared.key.workers }
    requires kept { AreSeatsFrom (shown_board table.now.shared.table_id table.now.shared.key) 0
        kept.items }
    requires slots { length slots.items ≡ table.now.shared.key.tasks }
    ensures whole { All IsWhole kept.items }
    ensures slots { result.items ≡ placed (results_of kept.items) slots.items }
    ensures once { (x : ℕ) → x < table.now.shared.key.tasks → times_in x (drawn_of kept.items) ≡ 1 }
{
    let mut others = VecDeque::from(kept);
    let (seat, results) = others.pop_front().unwrap().into_parts();
    let mut first = seat.into_seat();
    place(results, &mut slots);
    join_all(table, &mut first, others, &mut slots);
    settle(table, &mut first);
    slots
}

/// The results in the slots, none of which is empty.
pub(crate) fn take_all<T: Drop>(
    slots: Vec<Option<T>>,
    mut results: Vec<T>,
) -> Result<Vec<T>, AllocError>
    requires slots { All IsSome slots.items }
    requires results { results.items ≡ [] }
    ensures { IfOk result (λ r. map Some r.items ≡ slots.items) }
{
    for slot in slots {
        if let Some(result) = slot {
            results.push(result)?;
        }
    }
    Ok(results)
}
